//! The command `demo`.

ghost use Rattle.std.specs.Prelude.{◌≡◌, IfErr, OnOk};
ghost use Rattle.host_io.specs.declared.host.OutSlot.TheVariants.{Report};
ghost use Rattle.host_io.specs.declared.host.Slot.TheVariants.{Out};
ghost use Rattle.host_io.specs.Slots.{Same};
ghost use Rattle.command_words.specs.Jobs.{Demo};
ghost use Rattle.m386.specs.Slots.{Keeps, path_for};
ghost use Rattle.m386.specs.Demonstrated.{Demonstrated};
ghost use Rattle.m386.specs.Causes.{AreCounted, IsOpenedUpTo, IsReady, IsRefused};
ghost use Rattle.m386.specs.Assured.{IsAssured, IsNoFault};
ghost use Rattle.m386.specs.Within.{IsWithin};

use crate::inputs::Inputs;
use crate::machine::run;
use crate::outputs::report;
use crate::refusals::Refusal;
use host_io::Host;
use script_gen::make_guest;
use std::alloc::Global;

/// How many mebibytes of RAM the machine of a demo has.
const RAM: u8 = 4;

/// How many steps a demo makes.
const STEPS: u64 = 1_000_000;

/// Runs the demo guest of a number, and writes the report.
pub(crate) fn demo_command<H: Host>(alloc: Global, host: &mut H, number: u32) -> Result<(), Refusal>
    ensures ok { OnOk result (Demonstrated number (H.took host.old) (H.took host.new) (H.path host.old) (H.path host.new)) }
    ensures kept { OnOk result (Same (H.faults host.old) (H.faults host.new)) }
    ensures refused { IfErr result (IsRefused (Demo number) (H.left host.old) (H.left host.new) (H.took host.old) (H.took host.new)) }
    ensures counted { IfErr result (λ refusal. AreCounted refusal (H.faults host.old) (H.faults host.new)) }
    ensures within { IfErr result (IsWithin (H.left host.old) (H.left host.new)) }
    ensures promise { H.promise host.new ≡ H.promise host.old }
    ensures sure { IsAssured (H.promise host.old) (path_for (Demo number)) (H.took host.new) → IfErr result IsNoFault }
    ensures ready { IfErr result (λ refusal. IsReady refusal (H.path host.new (Out Report))) }
    ensures up_to { IfErr result (λ refusal. IsOpenedUpTo refusal (H.path host.old) (H.path host.new)) }
    ensures keeps { Keeps (path_for (Demo number)) (H.left host.old) (H.left host.new) (H.path host.old) (H.path host.new) }
{
    let Ok(rom) = make_guest(alloc, number) else {
        return Err(Refusal::Memory);
    };
    let inputs = Inputs {
        rom,
        disk: Vec::new(alloc),
        events: Vec::new(alloc),
    };
    let pc = run(alloc, RAM, inputs, STEPS)?;
    report(host, &pc)
}
