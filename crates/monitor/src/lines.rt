//! The lines of the monitor.

ghost use Rattle.std.specs.Prelude.{◌∷◌, IfSome, IfNone, IfOk, OnErr};
ghost use Rattle.mdl_text.specs.CommandLine.{IsCommand, IsNoCommand};
ghost use Rattle.monitor.specs.Answers.{IsShort};

use crate::operands::{address_of, small_count_of, steps_of, stretch_of};
use mdl_text::Command;

/// How many steps a line traces at most.
const MOST_TRACED: u32 = 1000;

/// How many bytes a line shows at most.
const MOST_BYTES: u32 = 4096;

/// How many instructions a line lists at most.
const MOST_LISTED: u32 = 100;

/// The line asks for nothing that there is.
#[derive(Clone, Copy, Debug, PartialEq, Eq)]
pub struct NotACommand;

/// The command that a line asks for. The line is given without its end: whoever cuts the input into
/// lines drops the line feed, and one carriage return before it.
pub fn read_line(line: &[u8]) -> Result<Command, NotACommand>
    ensures command { IfOk result (λ command. IsCommand line.now command) }
    ensures short { IfOk result IsShort }
    ensures refused { OnErr result (IsNoCommand line.now) }
{
    let command = match line {
        b"s" => Some(Command::Steps(1)),
        b"c" => Some(Command::Continue),
        b"r" => Some(Command::Registers),
        b"p" => Some(Command::Screen),
        b"q" => Some(Command::Quit),
        [letter, b' ', operands @ ..] => with_operands(*letter, operands),
        _ => None,
    };
    command.ok_or(NotACommand)
}

/// The command of a letter with operands.
fn with_operands(letter: u8, operands: &[u8]) -> Option<Command>
    ensures some { IfSome result (λ command. IsCommand (letter ∷ 32 ∷ operands.now) command) }
    ensures short { IfSome result IsShort }
    ensures none { IfNone result (IsNoCommand (letter ∷ 32 ∷ operands.now)) }
{
    match letter {
        b's' => Some(Command::Steps(steps_of(operands)?)),
        b't' => Some(Command::Trace(small_count_of(operands, MOST_TRACED)?)),
        b'g' => Some(Command::Go(steps_of(operands)?)),
        b'b' => Some(Command::AddStop(address_of(operands)?)),
        b'd' => Some(Command::DropStop(address_of(operands)?)),
        b'm' => {
            let bytes = stretch_of(operands, MOST_BYTES)?;
            Some(Command::Bytes(bytes.at, bytes.count))
        }
        b'u' => {
            let lines = stretch_of(operands, MOST_LISTED)?;
            Some(Command::List(lines.at, lines.count))
        }
        _ => None,
    }
}
