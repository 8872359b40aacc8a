//! The command `dis`.

ghost use Rattle.std.specs.Prelude.{◌≡◌, IfErr, OnOk};
ghost use Rattle.host_io.specs.declared.host.OutSlot.TheVariants.{Report};
ghost use Rattle.host_io.specs.declared.host.Slot.TheVariants.{Out};
ghost use Rattle.host_io.specs.Slots.{Same};
ghost use Rattle.command_words.specs.Jobs.{Dis, dis_of};
ghost use Rattle.m386.specs.Slots.{Keeps, path_for};
ghost use Rattle.m386.specs.Listed.{Listed};
ghost use Rattle.m386.specs.Causes.{AreCounted, IsOpenedUpTo, IsReady, IsRefused};
ghost use Rattle.m386.specs.Assured.{IsAssured, IsNoFault};
ghost use Rattle.m386.specs.Within.{IsWithin};

use crate::inputs::read_input;
use crate::refusals::Refusal;
use command_words::DisJob;
use host_io::{Host, InSlot, OutSlot, Slot};
use reports::write_listing;
use std::alloc::Global;

/// Reads the ROM, and writes its listing.
pub(crate) fn dis_command<H: Host>(alloc: Global, host: &mut H, job: &DisJob) -> Result<(), Refusal>
    ensures ok { OnOk result (Listed (dis_of job.now) (H.left host.old) (H.took host.old) (H.took host.new) (H.path host.old) (H.path host.new)) }
    ensures kept { OnOk result (Same (H.faults host.old) (H.faults host.new)) }
    ensures refused { IfErr result (IsRefused (Dis (dis_of job.now)) (H.left host.old) (H.left host.new) (H.took host.old) (H.took host.new)) }
    ensures counted { IfErr result (λ refusal. AreCounted refusal (H.faults host.old) (H.faults host.new)) }
    ensures within { IfErr result (IsWithin (H.left host.old) (H.left host.new)) }
    ensures promise { H.promise host.new ≡ H.promise host.old }
    ensures sure { IsAssured (H.promise host.old) (path_for (Dis (dis_of job.now))) (H.took host.new) → IfErr result IsNoFault }
    ensures ready { IfErr result (λ refusal. IsReady refusal (H.path host.new (Out Report))) }
    ensures up_to { IfErr result (λ refusal. IsOpenedUpTo refusal (H.path host.old) (H.path host.new)) }
    ensures keeps { Keeps (path_for (Dis (dis_of job.now))) (H.left host.old) (H.left host.new) (H.path host.old) (H.path host.new) }
{
    let rom = read_input(alloc, host, InSlot::Rom, job.rom)?;
    let Ok(()) = host.open_out(OutSlot::Report, "") else {
        return Err(Refusal::HostFault(Slot::Out(OutSlot::Report)));
    };
    match write_listing(
        host,
        rom.as_slice(),
        u64::from(job.from),
        u64::from(job.count),
        job.big,
    ) {
        Ok(()) => Ok(()),
        Err(_) => Err(Refusal::Late(OutSlot::Report)),
    }
}
