//! The answers to commands.

ghost use Rattle.std.specs.Prelude.{◌≡◌, ◌≤◌, IfOk, OnOk, OnErr, []};
ghost use Rattle.host_io.specs.declared.host.OutSlot.TheVariants.{Report};
ghost use Rattle.host_io.specs.declared.host.Slot.TheVariants.{Out};
ghost use Rattle.host_io.specs.Causes.{HasCause};
ghost use Rattle.host_io.specs.Promises.{IsSure, IsFull};
ghost use Rattle.host_io.specs.Slots.{Same, SameBut};
ghost use Rattle.mdl_text.specs.CommandLine.{most_steps};
ghost use Rattle.mdl_text.specs.declared.command.Command.TheVariants as commands;
ghost use Rattle.monitor.specs.Answers.{Traces, IsShort, Shows, Answers, AnswersInPart, stops_after, goes_on};
ghost use Rattle.monitor.specs.Places.{IsPlace};

use crate::byte_lines::bytes_lines;
use crate::code_lines::push_listing;
use crate::moves::{go_on, move_by, move_to};
use crate::places::place_line;
use crate::stops::{Breaks, add, drop};
use crate::target::{Target, View};
use crate::texts::{Text, push_line, text_of};
use host_io::{Failed, Host, OutSlot, write_all};
use mdl_text::Command;
use reports::{register_lines, screen_lines};

/// The place where steps ended.
fn place<T: Target>(target: &T) -> Text
    ensures { IsPlace (T.machine target.now) result.items }
{
    text_of(place_line(target).as_slice())
}

/// Makes so many steps, with a place line behind each.
fn trace<T: Target>(target: &mut T, count: u32) -> Text
    requires steps { (T.machine target.old).state.core.steps ≤ most_steps }
    requires count { count ≤ 1000 }
    ensures trace { Traces (T.script target.old) count (T.machine target.old) (T.machine target.new) result.items }
    ensures bound { (T.machine target.new).state.core.steps ≤ most_steps }
    ensures script { T.script target.new ≡ T.script target.old }
{
    let mut text = Text::new();
    for _line in 0..count {
        move_by(target, 1);
        push_line(&mut text, place_line(target).as_slice());
    }
    text
}

/// The listing at a linear address.
fn listing<T: Target>(target: &T, at: u32, count: u32) -> Text
    requires { count ≤ 100 }
    ensures { Shows (commands.List at count) [] [] (T.machine target.now) (T.machine target.now) result.items }
{
    let mut text = Text::new();
    push_listing(&mut text, target, at, count);
    text
}

/// Does what a command asks for, and gives the text of its answer.
fn text_for<T: Target>(command: Command, breaks: &mut Breaks, target: &mut T) -> Text
    requires steps { (T.machine target.old).state.core.steps ≤ most_steps }
    requires short { IsShort command }
    ensures shows { Shows command (T.script target.old) breaks.old.items (T.machine target.old) (T.machine target.new) result.items }
    ensures stops { breaks.new.items ≡ stops_after command breaks.old.items }
    ensures bound { (T.machine target.new).state.core.steps ≤ most_steps }
    ensures script { T.script target.new ≡ T.script target.old }
{
    match command {
        Command::Steps(count) => {
            move_by(target, count);
            place(target)
        }
        Command::Trace(count) => trace(target, count),
        Command::Go(to) => {
            move_to(target, to);
            place(target)
        }
        Command::Continue => {
            go_on(target, breaks);
            place(target)
        }
        Command::AddStop(at) => text_of(add(breaks, at)),
        Command::DropStop(at) => text_of(drop(breaks, at)),
        Command::Registers => text_of(register_lines(&View { target }).as_slice()),
        Command::Screen => text_of(screen_lines(&View { target }).as_slice()),
        Command::Bytes(at, count) => bytes_lines(target, at, count),
        Command::List(at, count) => listing(target, at, count),
        Command::Quit => Text::new(),
    }
}

/// Does what a command asks for, and writes its answer to the report. Answers whether the session
/// goes on.
pub fn answer<T: Target, H: Host>(
    command: &Command,
    breaks: &mut Breaks,
    target: &mut T,
    host: &mut H,
) -> Result<bool, Failed>
    requires steps { (T.machine target.old).state.core.steps ≤ most_steps }
    requires short { IsShort command.now }
    ensures ok { OnOk result (Answers command.now (T.script target.old) breaks.old.items (T.machine target.old) (T.machine target.new) (H.took host.old Report) (H.took host.new Report)) }
    ensures err { OnErr result (AnswersInPart command.now (T.script target.old) breaks.old.items (T.machine target.old) (T.machine target.new) (H.took host.old Report) (H.took host.new Report)) }
    ensures goes_on { IfOk result (λ on. on ≡ goes_on command.now) }
    ensures stops { breaks.new.items ≡ stops_after command.now breaks.old.items }
    ensures bound { (T.machine target.new).state.core.steps ≤ most_steps }
    ensures script { T.script target.new ≡ T.script target.old }
    ensures outputs { SameBut Report (H.took host.old) (H.took host.new) }
    ensures paths { Same (H.path host.old) (H.path host.new) }
    ensures left { Same (H.left host.old) (H.left host.new) }
    ensures cause { HasCause (H.faults host.old) (H.faults host.new) (Out Report) result }
    ensures promise { H.promise host.new ≡ H.promise host.old }
    ensures sure { OnErr result (IsSure (H.promise host.old) (Out Report) → IsFull (H.promise host.old) Report (H.took host.new Report)) }
{
    let text = text_for(*command, breaks, target);
    write_all(host, OutSlot::Report, text.as_slice())?;
    Ok(!matches!(command, Command::Quit))
}
