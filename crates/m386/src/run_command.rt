//! The command `run`.

ghost use Rattle.std.specs.Prelude.{◌≡◌, IfErr, OnOk};
ghost use Rattle.host_io.specs.declared.host.OutSlot.TheVariants.{Report};
ghost use Rattle.host_io.specs.declared.host.Slot.TheVariants.{Out};
ghost use Rattle.host_io.specs.Slots.{Same};
ghost use Rattle.command_words.specs.Jobs.{Run, run_of, IsWithinLimits};
ghost use Rattle.m386.specs.Slots.{Keeps, path_for};
ghost use Rattle.m386.specs.Headline.{Headline};
ghost use Rattle.m386.specs.Causes.{AreCounted, IsOpenedUpTo, IsReady, IsRefused};
ghost use Rattle.m386.specs.Assured.{IsAssured, IsNoFault};
ghost use Rattle.m386.specs.Within.{IsWithin};

use crate::inputs::read_inputs;
use crate::machine::run;
use crate::outputs::write_outputs;
use crate::refusals::Refusal;
use command_words::RunJob;
use host_io::Host;
use std::alloc::Global;

/// Reads the inputs, runs the machine for so many steps from power on, and writes the outputs.
pub(crate) fn run_command<H: Host>(alloc: Global, host: &mut H, job: &RunJob) -> Result<(), Refusal>
    requires { IsWithinLimits (Run (run_of job.now)) }
    ensures ok { OnOk result (Headline (run_of job.now) (H.left host.old) (H.took host.old) (H.took host.new) (H.path host.old) (H.path host.new)) }
    ensures kept { OnOk result (Same (H.faults host.old) (H.faults host.new)) }
    ensures refused { IfErr result (IsRefused (Run (run_of job.now)) (H.left host.old) (H.left host.new) (H.took host.old) (H.took host.new)) }
    ensures counted { IfErr result (λ refusal. AreCounted refusal (H.faults host.old) (H.faults host.new)) }
    ensures within { IfErr result (IsWithin (H.left host.old) (H.left host.new)) }
    ensures promise { H.promise host.new ≡ H.promise host.old }
    ensures sure { IsAssured (H.promise host.old) (path_for (Run (run_of job.now))) (H.took host.new) → IfErr result IsNoFault }
    ensures ready { IfErr result (λ refusal. IsReady refusal (H.path host.new (Out Report))) }
    ensures up_to { IfErr result (λ refusal. IsOpenedUpTo refusal (H.path host.old) (H.path host.new)) }
    ensures keeps { Keeps (path_for (Run (run_of job.now))) (H.left host.old) (H.left host.new) (H.path host.old) (H.path host.new) }
{
    let inputs = read_inputs(alloc, host, &job.machine)?;
    let pc = run(alloc, job.machine.ram, inputs, job.steps)?;
    write_outputs(host, job, &pc)
}
