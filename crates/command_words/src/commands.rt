//! The commands, each a chain of its arguments, and the parse of words by one of them.

ghost use Rattle.std.specs.Prelude.{◌≡◌, IfOk, true, false, codes};
ghost use Rattle.clap.specs.Words.{app_of, rule_of, with_rule, is_simple_and_free, IsParsedFrom};
ghost use Rattle.command_words.specs.Commands.{machine_app, run_app, monitor_app, dis_app, demo_app};
ghost use Rattle.command_words.specs.Jobs.{texts};
ghost use Rattle.command_words.specs.Parses.{IsParsedBy, IsUnfit};

use crate::arguments::{
    big_arg, count_arg, from_arg, number_arg, path_arg, ram_arg, rom_arg, steps_arg,
};
use crate::jobs::Refused;
use clap::error::ErrorKind;
use clap::{Arg, ArgMatches, Command};
use std::alloc::{AllocError, Global};

/// A command with one more argument.
fn with_arg<'a>(command: Command<'a>, arg: Arg<'a>) -> Result<Command<'a>, AllocError>
    requires { arg.global ≡ false }
    ensures { IfOk result (λ r. app_of r ≡ with_rule (app_of command.entry) (rule_of arg.entry)) }
{
    command.arg(arg)
}

/// A command that is told of a machine.
fn machine_command<'a>(alloc: Global, name: &'a str) -> Result<Command<'a>, AllocError>
    ensures { IfOk result (λ r. app_of r ≡ machine_app name.entry.now) }
{
    let command = with_arg(Command::new(alloc, name), rom_arg(alloc))?;
    let command = with_arg(command, path_arg(alloc, "disk"))?;
    let command = with_arg(command, path_arg(alloc, "script"))?;
    with_arg(command, ram_arg(alloc))
}

/// `run`.
pub(crate) fn run_command<'a>(alloc: Global) -> Result<Command<'a>, AllocError>
    ensures { IfOk result (λ r. app_of r ≡ run_app) }
{
    let command = with_arg(machine_command(alloc, "run")?, steps_arg(alloc))?;
    let command = with_arg(command, path_arg(alloc, "mem"))?;
    with_arg(command, path_arg(alloc, "save"))
}

/// `monitor`.
pub(crate) fn monitor_command<'a>(alloc: Global) -> Result<Command<'a>, AllocError>
    ensures { IfOk result (λ r. app_of r ≡ monitor_app) }
{
    machine_command(alloc, "monitor")
}

/// `dis`.
pub(crate) fn dis_command<'a>(alloc: Global) -> Result<Command<'a>, AllocError>
    ensures { IfOk result (λ r. app_of r ≡ dis_app) }
{
    let command = with_arg(Command::new(alloc, "dis"), rom_arg(alloc))?;
    let command = with_arg(command, from_arg(alloc))?;
    let command = with_arg(command, count_arg(alloc))?;
    with_arg(command, big_arg(alloc))
}

/// `demo`.
pub(crate) fn demo_command<'a>(alloc: Global) -> Result<Command<'a>, AllocError>
    ensures { IfOk result (λ r. app_of r ≡ demo_app) }
{
    with_arg(Command::new(alloc, "demo"), number_arg(alloc))
}

/// The matches of the words, of which the first is the command's name. `clap` builds the command by
/// the way, which takes memory.
pub(crate) fn parse<'a>(
    command: Command<'a>,
    words: &'a [&'a str],
) -> Result<ArgMatches<'a>, Refused>
    requires { is_simple_and_free (app_of command) ≡ true }
    ensures ok { IfOk result (IsParsedBy (app_of command.entry) (texts words.entry.now)) }
    ensures parsed { IfOk result (IsParsedFrom command.entry) }
    ensures usage { result ≡ Err Refused.Usage → IsUnfit (app_of command.entry) (texts words.entry.now) }
{
    match command.try_get_matches_from(words) {
        Ok(matches) => Ok(matches),
        Err(error) => match error.kind() {
            ErrorKind::OutOfMemory => Err(Refused::Memory),
            _ => Err(Refused::Usage),
        },
    }
}
