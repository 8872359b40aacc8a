//! The machine of a job, after its run.

ghost use Rattle.std.specs.Prelude.{◌≡◌, ◌≤◌, ◌^◌, length, IfOk, IfErr};
ghost use Rattle.mdl_state.specs.Memory.{IsRomLength};
ghost use Rattle.mdl_dev.specs.Disk.{IsDiskLength};
ghost use Rattle.mdl_text.specs.Script.{RisesFrom};
ghost use Rattle.m386.specs.Feeding.{fed_of};
ghost use Rattle.m386.specs.Running.{RanTo};

use crate::inputs::Inputs;
use crate::refusals::Refusal;
use pc_machine::Pc;
use std::alloc::Global;

/// The machine that is fed with these inputs, after so many steps from power on. All memory is taken
/// before the first step.
pub(crate) fn run(alloc: Global, ram: u8, inputs: Inputs, steps: u64) -> Result<Pc, Refusal>
    requires least { 1 ≤ ram }
    requires most { ram ≤ 64 }
    requires rom { IsRomLength (length inputs.rom.items) }
    requires disk { IsDiskLength (length inputs.disk.items) }
    requires rises { RisesFrom 0 inputs.events.items }
    requires steps { steps ≤ 10 ^ 15 }
    ensures ok { IfOk result (RanTo ram (fed_of inputs) steps) }
    ensures err { IfErr result (λ refusal. refusal ≡ Refusal.Memory) }
{
    let Inputs { rom, disk, events } = inputs;
    let Ok(mut pc) = Pc::new(alloc, ram, rom, disk) else {
        return Err(Refusal::Memory);
    };
    pc.run(events.as_slice(), steps);
    Ok(pc)
}
