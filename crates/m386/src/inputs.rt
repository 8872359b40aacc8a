//! The inputs of a machine, read from the host.

ghost use Rattle.std.specs.Prelude.{◌≡◌, ◌↔◌, ◌<◌, ◌^◌, length, IsTrue, IfOk, IfErr, OnOk, None, Some};
ghost use Rattle.host_io.specs.declared.host.InSlot as slots;
ghost use Rattle.host_io.specs.declared.host.InSlot.TheVariants.{Rom, Disk, Script};
ghost use Rattle.host_io.specs.declared.host.OutSlot as outputs;
ghost use Rattle.host_io.specs.declared.host.Slot.TheVariants.{In, Out};
ghost use Rattle.host_io.specs.Promises.{Opens};
ghost use Rattle.host_io.specs.Slots.{Same, SameBut};
ghost use Rattle.host_io.specs.Transfers.{IsWhole, TakesAtMost};
ghost use Rattle.command_words.specs.Jobs.{machine_of, text_of};
ghost use Rattle.mdl_text.specs.Script as texts;
ghost use Rattle.m386.specs.Slots.{OpenedAs, OpenedOnly, input_path};
ghost use Rattle.m386.specs.Inputs.{limit_of, IsFit, IsInput, IsFed};
ghost use Rattle.m386.specs.Causes.{AreCounted};
ghost use Rattle.m386.specs.Feeding.{IsInputRefused, IsLinesRefused, IsFeedRefused, IsNamed, fed_of};
ghost use Rattle.m386.specs.Assured.{OpensAt, IsNoFault};
ghost use Rattle.m386.specs.Within.{AreWithin, IsInputWithin, IsWithin};

use crate::refusals::Refusal;
use command_words::Machine;
use host_io::{Host, InError, InSlot, Slot, read_all};
use mdl_dev::disk::{MOST_BYTES, SECTOR_BYTES};
use mdl_state::Event;
use monitor::MOST_COMMANDS;
use script_gen::{ScriptError, read_script};
use std::alloc::Global;

/// The bytes of a page, of which a ROM has a whole number.
const PAGE: usize = 0x1000;

/// The most bytes of a ROM.
const MOST_ROM: u32 = 0x40000;

/// The most bytes of a script.
const MOST_SCRIPT: u32 = 0x400000;

/// What a machine is fed with.
#[derive(Drop)]
pub(crate) struct Inputs {
    pub(crate) rom: Vec<u8>,
    pub(crate) disk: Vec<u8>,
    pub(crate) events: Vec<Event>,
}

/// The most bytes of an input.
fn limit_of(slot: InSlot) -> u32
    ensures limit { result ≡ limit_of slot }
    ensures small { result < 2 ^ 28 }
{
    match slot {
        InSlot::Rom => MOST_ROM,
        InSlot::Disk => MOST_BYTES as u32,
        InSlot::Script => MOST_SCRIPT,
        InSlot::Commands => MOST_COMMANDS,
    }
}

/// Whether an input may have so many bytes.
fn is_fit(slot: InSlot, bytes: usize) -> bool
    ensures { IsTrue result ↔ IsFit slot bytes }
{
    match slot {
        InSlot::Rom => bytes >= PAGE && bytes <= MOST_ROM as usize && bytes % PAGE == 0,
        InSlot::Disk => bytes <= MOST_BYTES && bytes % SECTOR_BYTES == 0,
        InSlot::Script => bytes <= MOST_SCRIPT as usize,
        InSlot::Commands => bytes <= MOST_COMMANDS as usize,
    }
}

/// The bytes of the input at a path. Of one that is too long the limit and one byte more are told.
pub(crate) fn read_input<H: Host>(
    alloc: Global,
    host: &mut H,
    slot: InSlot,
    path: &str,
) -> Result<Vec<u8>, Refusal>
    ensures whole { IfOk result (λ bytes. IsWhole (H.left host.old slot) bytes.items) }
    ensures fits { IfOk result (λ bytes. IsFit slot (length bytes.items)) }
    ensures opened { OnOk result (OpenedAs (Some path.now) (H.path host.old (In slot)) (H.path host.new (In slot))) }
    ensures only { OpenedOnly (Some path.now) (H.path host.old (In slot)) (H.path host.new (In slot)) }
    ensures paths { SameBut (In slot) (H.path host.old) (H.path host.new) }
    ensures left { SameBut slot (H.left host.old) (H.left host.new) }
    ensures took { Same (H.took host.old) (H.took host.new) }
    ensures kept { OnOk result (Same (H.faults host.old) (H.faults host.new)) }
    ensures cause { IfErr result (IsInputRefused slot (H.left host.old slot)) }
    ensures counted { IfErr result (λ refusal. AreCounted refusal (H.faults host.old) (H.faults host.new)) }
    ensures within { OnOk result (TakesAtMost (limit_of slot) (H.left host.old slot) (H.left host.new slot)) }
    ensures memory { IfErr result (IsInputWithin (limit_of slot) (H.left host.old slot) (H.left host.new slot)) }
    ensures promise { H.promise host.new ≡ H.promise host.old }
    ensures sure { Opens (H.promise host.old) (In slot) path.now → IfErr result IsNoFault }
{
    let Ok(()) = host.open_in(slot, path) else {
        return Err(Refusal::HostFault(Slot::In(slot)));
    };
    let limit = limit_of(slot);
    let bytes = match read_all(alloc, host, slot, limit) {
        Ok(bytes) => bytes,
        Err(InError::Memory) => return Err(Refusal::Memory),
        Err(InError::HostFault) => return Err(Refusal::HostFault(Slot::In(slot))),
        Err(InError::TooLong) => return Err(Refusal::Length(slot, limit + 1)),
    };
    if !is_fit(slot, bytes.len()) {
        return Err(Refusal::Length(slot, bytes.len() as u32));
    }
    Ok(bytes)
}

/// The bytes of an input that may be left out, and has no bytes then.
fn read_named<H: Host>(
    alloc: Global,
    host: &mut H,
    slot: InSlot,
    path: Option<&str>,
) -> Result<Vec<u8>, Refusal>
    requires { IsFit slot 0 }
    ensures whole { IfOk result (λ bytes. IsInput (text_of path.entry) (H.left host.old slot) bytes.items) }
    ensures fits { IfOk result (λ bytes. IsFit slot (length bytes.items)) }
    ensures opened { OnOk result (OpenedAs (text_of path.entry) (H.path host.old (In slot)) (H.path host.new (In slot))) }
    ensures only { OpenedOnly (text_of path.entry) (H.path host.old (In slot)) (H.path host.new (In slot)) }
    ensures paths { SameBut (In slot) (H.path host.old) (H.path host.new) }
    ensures unread { text_of path.entry ≡ None → H.left host.new slot ≡ H.left host.old slot }
    ensures left { SameBut slot (H.left host.old) (H.left host.new) }
    ensures took { Same (H.took host.old) (H.took host.new) }
    ensures kept { OnOk result (Same (H.faults host.old) (H.faults host.new)) }
    ensures named { IfErr result (λ _. IsNamed (text_of path.entry)) }
    ensures cause { IfErr result (IsInputRefused slot (H.left host.old slot)) }
    ensures counted { IfErr result (λ refusal. AreCounted refusal (H.faults host.old) (H.faults host.new)) }
    ensures within { OnOk result (TakesAtMost (limit_of slot) (H.left host.old slot) (H.left host.new slot)) }
    ensures memory { IfErr result (IsInputWithin (limit_of slot) (H.left host.old slot) (H.left host.new slot)) }
    ensures promise { H.promise host.new ≡ H.promise host.old }
    ensures sure { OpensAt (H.promise host.old) (In slot) (text_of path.entry) → IfErr result IsNoFault }
{
    match path {
        Some(path) => read_input(alloc, host, slot, path),
        None => Ok(Vec::new(alloc)),
    }
}

/// The events of a script's bytes.
fn events_of(alloc: Global, script: &[u8]) -> Result<Vec<Event>, Refusal>
    requires { length script.now < 2 ^ 32 }
    ensures ok { IfOk result (λ events. texts.Script script.now events.items) }
    ensures err { IfErr result (IsLinesRefused script.now) }
{
    match read_script(alloc, script) {
        Ok(events) => Ok(events),
        Err(ScriptError::Memory) => Err(Refusal::Memory),
        Err(ScriptError::Line(n)) => Err(Refusal::Script(n)),
    }
}

/// Reads the inputs of a machine, in the order ROM, disk, script; each is opened, read and looked at
/// before the next is opened.
pub(crate) fn read_inputs<H: Host>(
    alloc: Global,
    host: &mut H,
    machine: &Machine,
) -> Result<Inputs, Refusal>
    ensures fed { IfOk result (λ inputs. IsFed (machine_of machine.now) (H.left host.old) (fed_of inputs)) }
    ensures opened { OnOk result ((slot : slots.InSlot) →
        OpenedAs (input_path (machine_of machine.now) slot) (H.path host.old (In slot)) (H.path host.new (In slot))) }
    ensures only { (slot : slots.InSlot) →
        OpenedOnly (input_path (machine_of machine.now) slot) (H.path host.old (In slot)) (H.path host.new (In slot)) }
    ensures outputs { (slot : outputs.OutSlot) → H.path host.new (Out slot) ≡ H.path host.old (Out slot) }
    ensures unread { (slot : slots.InSlot) → input_path (machine_of machine.now) slot ≡ None → H.left host.new slot ≡ H.left host.old slot }
    ensures took { Same (H.took host.old) (H.took host.new) }
    ensures kept { OnOk result (Same (H.faults host.old) (H.faults host.new)) }
    ensures cause { IfErr result (IsFeedRefused (machine_of machine.now) (H.left host.old)) }
    ensures counted { IfErr result (λ refusal. AreCounted refusal (H.faults host.old) (H.faults host.new)) }
    ensures within { OnOk result (AreWithin (H.left host.old) (H.left host.new)) }
    ensures memory { IfErr result (IsWithin (H.left host.old) (H.left host.new)) }
    ensures promise { H.promise host.new ≡ H.promise host.old }
    ensures sure { ((slot : slots.InSlot) → OpensAt (H.promise host.old) (In slot) (input_path (machine_of machine.now) slot)) → IfErr result IsNoFault }
{
    let rom = read_input(alloc, host, InSlot::Rom, machine.rom)?;
    let disk = read_named(alloc, host, InSlot::Disk, machine.disk)?;
    let script = read_named(alloc, host, InSlot::Script, machine.script)?;
    let events = events_of(alloc, script.as_slice())?;
    Ok(Inputs { rom, disk, events })
}
