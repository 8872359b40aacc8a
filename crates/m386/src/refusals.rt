//! The refusals of a command, and the line of each.

ghost use Rattle.std.specs.Prelude.{◌≡◌, ◌≢◌, ◌≤◌, ◌+◌, ◌++◌, [], Some, length, OnOk, OnErr};
ghost use Rattle.std.specs.Io.KnownBytes.{Appends};
ghost use Rattle.arrayvec.specs.ArrayVec.{array_vec_len};
ghost use Rattle.host_io.specs.declared.host.OutSlot.TheVariants.{Report};
ghost use Rattle.host_io.specs.declared.host.Slot.TheVariants.{Out};
ghost use Rattle.host_io.specs.Causes.{HasCause};
ghost use Rattle.host_io.specs.Openings.{WasOpened};
ghost use Rattle.host_io.specs.Promises.{IsFull, Opens};
ghost use Rattle.host_io.specs.Slots.{Same, SameBut};
ghost use Rattle.host_io.specs.Transfers.{AppendsPrefix};
ghost use Rattle.m386.specs.Refusals.{slot_name, fault_line, length_line, script_line, line_of, status_of};
ghost use Rattle.m386.specs.Answers.{IsTold};
ghost use Rattle.m386.specs.Causes.{IsLineOpened, IsReady};

use crate::status::Status;
use arrayvec::ArrayVec;
use host_io::{Failed, Host, InSlot, OutSlot, Slot, write_all};
use monitor::MOST_COMMANDS;
use reports::{ROOM, push_decimal, push_text};

/// Why a command was not done.
#[derive(Clone, Copy, Debug, PartialEq, Eq)]
pub(crate) enum Refusal {
    /// Memory was wanting.
    Memory,
    /// The words ask for no command that is there.
    Words,
    /// A call on a slot failed before the report was open.
    HostFault(Slot),
    /// An input has this length, or a greater one where this is above the limit.
    Length(InSlot, u32),
    /// This line of the script is the first bad one.
    Script(u32),
    /// A call on an output failed, with the report open.
    Late(OutSlot),
    /// A read of the commands failed, with the report open.
    Commands,
    /// The commands have more bytes than they may have, which is found with the report open.
    TooLong,
}

/// A slot's name.
fn slot_name(slot: Slot) -> &'static str
    ensures name { result.now ≡ slot_name slot }
    ensures short { length result.now ≤ 8 }
{
    match slot {
        Slot::In(InSlot::Rom) => "rom",
        Slot::In(InSlot::Disk) => "disk",
        Slot::In(InSlot::Script) => "script",
        Slot::In(InSlot::Commands) => "commands",
        Slot::Out(OutSlot::Report) => "report",
        Slot::Out(OutSlot::Mem) => "mem",
        Slot::Out(OutSlot::Save) => "save",
    }
}

#[tactic(auto, unfolding(crate::specs::Refusals::fault_line))]
fn push_fault(text: &mut ArrayVec<u8, ROOM>, slot: Slot)
    requires { array_vec_len text.old + 64 ≤ ROOM }
    ensures { text.new.items ≡ text.old.items ++ fault_line slot }
{
    push_text(text, b"m386: host fault at ");
    push_text(text, slot_name(slot).as_bytes());
    push_text(text, b"\n");
}

#[tactic(auto, unfolding(crate::specs::Refusals::length_line))]
fn push_length(text: &mut ArrayVec<u8, ROOM>, slot: Slot, n: u32)
    requires { array_vec_len text.old + 64 ≤ ROOM }
    ensures { text.new.items ≡ text.old.items ++ length_line slot n }
{
    push_text(text, b"m386: ");
    push_text(text, slot_name(slot).as_bytes());
    push_text(text, b" length ");
    push_decimal(text, u64::from(n));
    push_text(text, b"\n");
}

#[tactic(auto, unfolding(crate::specs::Refusals::script_line))]
fn push_script(text: &mut ArrayVec<u8, ROOM>, n: u32)
    requires { array_vec_len text.old + 64 ≤ ROOM }
    ensures { text.new.items ≡ text.old.items ++ script_line n }
{
    push_text(text, b"m386: script line ");
    push_decimal(text, u64::from(n));
    push_text(text, b"\n");
}

/// The line of a refusal.
#[tactic(auto, unfolding(crate::specs::Refusals::words_line))]
fn line_of(refusal: Refusal) -> ArrayVec<u8, ROOM>
    ensures { result.items ≡ line_of refusal }
{
    let mut text = ArrayVec::new();
    match refusal {
        Refusal::Memory => {}
        Refusal::Words => push_text(&mut text, b"m386: bad words\n"),
        Refusal::HostFault(slot) => push_fault(&mut text, slot),
        Refusal::Length(slot, n) => push_length(&mut text, Slot::In(slot), n),
        Refusal::Script(n) => push_script(&mut text, n),
        Refusal::Late(slot) => push_fault(&mut text, Slot::Out(slot)),
        Refusal::Commands => push_fault(&mut text, Slot::In(InSlot::Commands)),
        Refusal::TooLong => push_length(&mut text, Slot::In(InSlot::Commands), MOST_COMMANDS + 1),
    }
    text
}

fn status_of(refusal: Refusal) -> Status
    ensures { result ≡ status_of refusal }
{
    match refusal {
        Refusal::Memory => Status::Memory,
        Refusal::Words => Status::Usage,
        Refusal::HostFault(_) => Status::HostFault,
        Refusal::Length(_, _) => Status::Image,
        Refusal::Script(_) => Status::Script,
        Refusal::Late(_) => Status::HostFault,
        Refusal::Commands => Status::HostFault,
        Refusal::TooLong => Status::Image,
    }
}

/// Opens the report, if it is not open yet.
fn open_report<H: Host>(host: &mut H, refusal: Refusal) -> Result<(), Failed>
    requires { IsReady refusal (H.path host.old (Out Report)) }
    ensures opened { OnOk result (WasOpened (H.path host.new (Out Report)) []) }
    ensures path { IsLineOpened refusal (H.path host.old (Out Report)) (H.path host.new (Out Report)) }
    ensures paths { SameBut (Out Report) (H.path host.old) (H.path host.new) }
    ensures took { Same (H.took host.old) (H.took host.new) }
    ensures left { Same (H.left host.old) (H.left host.new) }
    ensures cause { HasCause (H.faults host.old) (H.faults host.new) (Out Report) result }
    ensures promise { H.promise host.new ≡ H.promise host.old }
    ensures sure { OnErr result (¬ (Opens (H.promise host.old) (Out Report) [])) }
{
    match refusal {
        Refusal::Late(_) | Refusal::Commands | Refusal::TooLong => Ok(()),
        _ => host.open_out(OutSlot::Report, ""),
    }
}

/// Tries to write the line of a refusal.
fn write_line<H: Host>(host: &mut H, refusal: Refusal) -> Result<(), Failed>
    requires { IsReady refusal (H.path host.old (Out Report)) }
    ensures ok { OnOk result (Appends (H.took host.old Report) (H.took host.new Report) (line_of refusal)) }
    ensures opened { OnOk result (WasOpened (H.path host.new (Out Report)) []) }
    ensures err { OnErr result (AppendsPrefix (H.took host.old Report) (H.took host.new Report) (line_of refusal)) }
    ensures outputs { SameBut Report (H.took host.old) (H.took host.new) }
    ensures path { IsLineOpened refusal (H.path host.old (Out Report)) (H.path host.new (Out Report)) }
    ensures paths { SameBut (Out Report) (H.path host.old) (H.path host.new) }
    ensures left { Same (H.left host.old) (H.left host.new) }
    ensures cause { HasCause (H.faults host.old) (H.faults host.new) (Out Report) result }
    ensures sure { Opens (H.promise host.old) (Out Report) [] → OnErr result (IsFull (H.promise host.old) Report (H.took host.new Report)) }
{
    open_report(host, refusal)?;
    write_all(host, OutSlot::Report, line_of(refusal).as_slice())
}

/// Tells a refusal by its line, which is tried once, and answers its status.
pub(crate) fn refuse<H: Host>(host: &mut H, refusal: Refusal) -> Status
    requires { IsReady refusal (H.path host.old (Out Report)) }
    ensures status { result ≡ status_of refusal }
    ensures line { refusal ≢ Refusal.Memory → IsTold (H.took host.old Report) (H.took host.new Report)
        (H.path host.new (Out Report)) (H.faults host.old (Out Report)) (H.faults host.new (Out Report)) (line_of refusal) }
    ensures silent { refusal ≡ Refusal.Memory → Same (H.took host.old) (H.took host.new) }
    ensures memory { refusal ≡ Refusal.Memory → Same (H.faults host.old) (H.faults host.new) }
    ensures unopened { refusal ≡ Refusal.Memory → Same (H.path host.old) (H.path host.new) }
    ensures outputs { SameBut Report (H.took host.old) (H.took host.new) }
    ensures path { IsLineOpened refusal (H.path host.old (Out Report)) (H.path host.new (Out Report)) }
    ensures paths { SameBut (Out Report) (H.path host.old) (H.path host.new) }
    ensures left { Same (H.left host.old) (H.left host.new) }
    ensures faults { SameBut (Out Report) (H.faults host.old) (H.faults host.new) }
    ensures later { H.faults host.old (Out Report) ≤ H.faults host.new (Out Report) }
    ensures sure { Opens (H.promise host.old) (Out Report) [] → ¬ (IsFull (H.promise host.old) Report (H.took host.new Report))
        → Same (H.faults host.old) (H.faults host.new) }
{
    match refusal {
        Refusal::Memory => {}
        _ => {
            let _ = write_line(host, refusal);
        }
    }
    status_of(refusal)
}
