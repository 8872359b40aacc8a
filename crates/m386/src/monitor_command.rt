//! The command `monitor`.

ghost use Rattle.std.specs.Prelude.{◌≡◌, ◌≢◌, ◌≤◌, length, IfOk, IfErr, OnOk};
ghost use Rattle.host_io.specs.declared.host.InSlot.TheVariants.{Commands};
ghost use Rattle.host_io.specs.declared.host.OutSlot.TheVariants.{Report};
ghost use Rattle.host_io.specs.declared.host.Slot as slots;
ghost use Rattle.host_io.specs.declared.host.Slot.TheVariants.{Out};
ghost use Rattle.host_io.specs.Slots.{Same, SameBut};
ghost use Rattle.command_words.specs.Jobs.{Monitor, machine_of, IsWithinLimits};
ghost use Rattle.mdl_dev.specs.Disk.{IsDiskLength};
ghost use Rattle.mdl_state.specs.Memory.{IsRomLength};
ghost use Rattle.mdl_text.specs.CommandLine.{most_steps};
ghost use Rattle.mdl_text.specs.Script.{RisesFrom};
ghost use Rattle.m386.specs.Slots.{Keeps, OpenedAs, OpenedOnly, path_for};
ghost use Rattle.m386.specs.Monitored.{Monitored};
ghost use Rattle.m386.specs.Causes.{AreCounted, IsOpenedUpTo, IsReady, IsRefused};
ghost use Rattle.m386.specs.Assured.{IsAssured, IsNoFault};
ghost use Rattle.m386.specs.Within.{IsWithin};
ghost use Rattle.m386.specs.Feeding.{fed_of};
ghost use Rattle.m386.specs.Talking.{HasSession, IsAtPowerOn, IsTalkRefused, talk_path};

use crate::inputs::{Inputs, read_inputs};
use crate::refusals::Refusal;
use command_words::Machine;
use host_io::{Host, InSlot, OutSlot, Slot};
use monitor::{Broken, converse};
use pc_machine::Pc;
use scripted_pc::Guest;
use std::alloc::Global;

/// The machine that is fed with these inputs, at power on. All memory is taken here.
fn power_on(alloc: Global, ram: u8, inputs: Inputs) -> Result<Guest, Refusal>
    requires least { 1 ≤ ram }
    requires most { ram ≤ 64 }
    requires rom { IsRomLength (length inputs.rom.items) }
    requires disk { IsDiskLength (length inputs.disk.items) }
    requires rises { RisesFrom 0 inputs.events.items }
    ensures ok { IfOk result (IsAtPowerOn ram (fed_of inputs)) }
    ensures err { IfErr result (λ refusal. refusal ≡ Refusal.Memory) }
{
    let Inputs { rom, disk, events } = inputs;
    match Pc::new(alloc, ram, rom, disk) {
        Ok(pc) => Ok(Guest::new(pc, events)),
        Err(_) => Err(Refusal::Memory),
    }
}

/// Opens the commands and the report, and answers the lines of the commands.
fn talk<H: Host>(guest: &mut Guest, host: &mut H) -> Result<(), Refusal>
    requires { guest.old.machine.state.core.steps ≤ most_steps }
    ensures ok { OnOk result (HasSession guest.old.events guest.old.machine (H.left host.old Commands) (H.took host.old Report) (H.took host.new Report)) }
    ensures refused { IfErr result (IsTalkRefused guest.old.events guest.old.machine (H.left host.old Commands) (H.left host.new Commands) (H.took host.old Report) (H.took host.new Report)) }
    ensures opened { OnOk result ((slot : slots.Slot) → OpenedAs (talk_path slot) (H.path host.old slot) (H.path host.new slot)) }
    ensures only { (slot : slots.Slot) → OpenedOnly (talk_path slot) (H.path host.old slot) (H.path host.new slot) }
    ensures inputs { SameBut Commands (H.left host.old) (H.left host.new) }
    ensures outputs { SameBut Report (H.took host.old) (H.took host.new) }
    ensures kept { OnOk result (Same (H.faults host.old) (H.faults host.new)) }
    ensures counted { IfErr result (λ refusal. AreCounted refusal (H.faults host.old) (H.faults host.new)) }
    ensures memory { IfErr result (λ refusal. refusal ≢ Refusal.Memory) }
    ensures promise { H.promise host.new ≡ H.promise host.old }
    ensures sure { IsAssured (H.promise host.old) talk_path (H.took host.new) → IfErr result IsNoFault }
    ensures ready { IfErr result (λ refusal. IsReady refusal (H.path host.new (Out Report))) }
    ensures up_to { IfErr result (λ refusal. IsOpenedUpTo refusal (H.path host.old) (H.path host.new)) }
{
    let Ok(()) = host.open_in(InSlot::Commands, "") else {
        return Err(Refusal::HostFault(Slot::In(InSlot::Commands)));
    };
    let Ok(()) = host.open_out(OutSlot::Report, "") else {
        return Err(Refusal::HostFault(Slot::Out(OutSlot::Report)));
    };
    match converse(guest, host) {
        Ok(()) => Ok(()),
        Err(Broken::Report) => Err(Refusal::Late(OutSlot::Report)),
        Err(Broken::Commands) => Err(Refusal::Commands),
        Err(Broken::TooLong) => Err(Refusal::TooLong),
    }
}

/// Reads the inputs, makes the machine, and answers the lines of the commands.
pub(crate) fn monitor_command<H: Host>(
    alloc: Global,
    host: &mut H,
    machine: &Machine,
) -> Result<(), Refusal>
    requires { IsWithinLimits (Monitor (machine_of machine.now)) }
    ensures ok { OnOk result (Monitored (machine_of machine.now) (H.left host.old) (H.took host.old) (H.took host.new) (H.path host.old) (H.path host.new)) }
    ensures kept { OnOk result (Same (H.faults host.old) (H.faults host.new)) }
    ensures refused { IfErr result (IsRefused (Monitor (machine_of machine.now)) (H.left host.old) (H.left host.new) (H.took host.old) (H.took host.new)) }
    ensures counted { IfErr result (λ refusal. AreCounted refusal (H.faults host.old) (H.faults host.new)) }
    ensures within { IfErr result (IsWithin (H.left host.old) (H.left host.new)) }
    ensures promise { H.promise host.new ≡ H.promise host.old }
    ensures sure { IsAssured (H.promise host.old) (path_for (Monitor (machine_of machine.now))) (H.took host.new) → IfErr result IsNoFault }
    ensures ready { IfErr result (λ refusal. IsReady refusal (H.path host.new (Out Report))) }
    ensures up_to { IfErr result (λ refusal. IsOpenedUpTo refusal (H.path host.old) (H.path host.new)) }
    ensures keeps { Keeps (path_for (Monitor (machine_of machine.now))) (H.left host.old) (H.left host.new) (H.path host.old) (H.path host.new) }
{
    let inputs = read_inputs(alloc, host, machine)?;
    let mut guest = power_on(alloc, machine.ram, inputs)?;
    talk(&mut guest, host)
}
