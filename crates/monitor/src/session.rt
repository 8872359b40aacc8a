//! A session: each line of the input is answered before more of it is read.

ghost use Rattle.std.specs.Prelude.{◌≡◌, ◌≤◌, [], IfOk, IfErr, OnOk, OnErr, true};
ghost use Rattle.host_io.specs.declared.host.InSlot.TheVariants.{Commands};
ghost use Rattle.host_io.specs.declared.host.OutSlot.TheVariants.{Report};
ghost use Rattle.host_io.specs.declared.host.Slot.TheVariants.{Out};
ghost use Rattle.host_io.specs.Causes.{HasCause};
ghost use Rattle.host_io.specs.Promises.{IsSure, IsFull};
ghost use Rattle.host_io.specs.Slots.{Same, SameBut};
ghost use Rattle.mdl_text.specs.CommandInput.{text_of};
ghost use Rattle.mdl_text.specs.CommandLine.{most_steps};
ghost use Rattle.monitor.specs.Session.{IsSession, IsBroken, IsCausedBy, IsExcused};
ghost use Rattle.monitor.specs.LineSteps.{AnswersWhole, AnswersSome, AnswersLast};

use crate::answers::answer;
use crate::line_buffer::LineBuffer;
use crate::lines::{NotACommand, read_line};
use crate::reader::Reader;
use crate::stops::Breaks;
use crate::target::Target;
use host_io::{Failed, Host, OutSlot, write_all};
use mdl_text::a_line_is_kept_as_far_as_it_matters;

/// The most bytes of commands.
pub const MOST_COMMANDS: u32 = 0x1000000;

/// Why a session ended before `q` and before the end of the input.
#[derive(Clone, Copy, Debug, PartialEq, Eq)]
pub enum Broken {
    /// An answer was not written whole.
    Report,
    /// The input failed.
    Commands,
    /// The input has too many bytes.
    TooLong,
}

/// Answers a line, and tells whether the session goes on.
fn answer_line<T: Target, H: Host>(
    line: &LineBuffer,
    breaks: &mut Breaks,
    target: &mut T,
    host: &mut H,
) -> Result<bool, Failed>
    requires steps { (T.machine target.old).state.core.steps ≤ most_steps }
    ensures ok { IfOk result (λ on. AnswersWhole (T.script target.old) (text_of line.now) on (T.machine target.old) breaks.old.items (T.machine target.new) breaks.new.items (H.took host.old Report) (H.took host.new Report)) }
    ensures err { OnErr result (AnswersSome (T.script target.old) (text_of line.now) (T.machine target.old) breaks.old.items (T.machine target.new) breaks.new.items (H.took host.old Report) (H.took host.new Report)) }
    ensures bound { (T.machine target.new).state.core.steps ≤ most_steps }
    ensures script { T.script target.new ≡ T.script target.old }
    ensures outputs { SameBut Report (H.took host.old) (H.took host.new) }
    ensures paths { Same (H.path host.old) (H.path host.new) }
    ensures left { Same (H.left host.old) (H.left host.new) }
    ensures cause { HasCause (H.faults host.old) (H.faults host.new) (Out Report) result }
    ensures promise { H.promise host.new ≡ H.promise host.old }
    ensures sure { OnErr result (IsSure (H.promise host.old) (Out Report) → IsFull (H.promise host.old) Report (H.took host.new Report)) }
{
    match read_line(line.line()) {
        Ok(command) => answer(&command, breaks, target, host),
        Err(NotACommand) => {
            write_all(host, OutSlot::Report, b"?\n")?;
            Ok(true)
        }
    }
}

/// Answers the last line, which has no end, where there is one.
fn end<T: Target, H: Host>(
    line: &LineBuffer,
    breaks: &mut Breaks,
    target: &mut T,
    host: &mut H,
) -> Result<(), Broken>
    requires steps { (T.machine target.old).state.core.steps ≤ most_steps }
    ensures ok { OnOk result (AnswersLast (T.script target.old) line.now (T.machine target.old) breaks.old.items (T.machine target.new) breaks.new.items (H.took host.old Report) (H.took host.new Report)) }
    ensures broken { IfErr result (λ broken. broken ≡ Broken.Report) }
    ensures err { OnErr result (AnswersSome (T.script target.old) (text_of line.now) (T.machine target.old) breaks.old.items (T.machine target.new) breaks.new.items (H.took host.old Report) (H.took host.new Report)) }
    ensures script { T.script target.new ≡ T.script target.old }
    ensures outputs { SameBut Report (H.took host.old) (H.took host.new) }
    ensures paths { Same (H.path host.old) (H.path host.new) }
    ensures left { Same (H.left host.old) (H.left host.new) }
    ensures cause { HasCause (H.faults host.old) (H.faults host.new) (Out Report) result }
    ensures promise { H.promise host.new ≡ H.promise host.old }
    ensures sure { OnErr result (IsSure (H.promise host.old) (Out Report) → IsFull (H.promise host.old) Report (H.took host.new Report)) }
{
    if line.is_empty() {
        return Ok(());
    }
    match answer_line(line, breaks, target, host) {
        Ok(_) => Ok(()),
        Err(_) => Err(Broken::Report),
    }
}

/// Answers the lines of the slot `Commands`, which is open as the report is, up to `q` or the end.
pub fn converse<T: Target, H: Host>(target: &mut T, host: &mut H) -> Result<(), Broken>
    requires steps { (T.machine target.old).state.core.steps ≤ most_steps }
    ensures session { OnOk result (IsSession (T.script target.old) (T.machine target.old) (T.machine target.new) (H.left host.old Commands) (H.took host.old Report) (H.took host.new Report)) }
    ensures broken { IfErr result (λ broken. IsBroken broken (T.script target.old) (T.machine target.old) (T.machine target.new) (H.left host.old Commands) (H.left host.new Commands) (H.took host.old Report) (H.took host.new Report)) }
    ensures kept { OnOk result (Same (H.faults host.old) (H.faults host.new)) }
    ensures cause { IfErr result (λ broken. IsCausedBy broken (H.faults host.old) (H.faults host.new)) }
    ensures promise { H.promise host.new ≡ H.promise host.old }
    ensures sure { IfErr result (λ broken. IsExcused broken (H.promise host.old) (H.took host.new Report)) }
    ensures script { T.script target.new ≡ T.script target.old }
    ensures outputs { SameBut Report (H.took host.old) (H.took host.new) }
    ensures inputs { SameBut Commands (H.left host.old) (H.left host.new) }
    ensures paths { Same (H.path host.old) (H.path host.new) }
{
    let mut reader = Reader::new();
    let mut line = LineBuffer::new();
    let mut breaks = Breaks::new();
    a_line_is_kept_as_far_as_it_matters();
    for _taken in 0..MOST_COMMANDS {
        let Ok(next) = reader.next(host) else {
            return Err(Broken::Commands);
        };
        let Some(byte) = next else {
            return end(&line, &mut breaks, target, host);
        };
        if byte != b'\n' {
            let _ = line.take(&[byte]);
            continue;
        }
        match answer_line(&line, &mut breaks, target, host) {
            Ok(true) => line.clear(),
            Ok(false) => return Ok(()),
            Err(_) => return Err(Broken::Report),
        }
    }
    match reader.next(host) {
        Ok(Some(_)) => Err(Broken::TooLong),
        Ok(None) => end(&line, &mut breaks, target, host),
        Err(_) => Err(Broken::Commands),
    }
}
