//! The top call.

ghost use Rattle.std.specs.Prelude.{◌≡◌, ◌≢◌, ◌⊎◌, ℕ, IfErr, OnOk};
ghost use Rattle.host_io.specs.declared.host.OutSlot.TheVariants.{Report};
ghost use Rattle.host_io.specs.declared.host.Slot.TheVariants.{Out};
ghost use Rattle.host_io.specs.Slots.{Same, SameBut};
ghost use Rattle.command_words.specs.Jobs as asked;
ghost use Rattle.command_words.specs.Jobs.{Matched, NoneMatched, IsRun, IsDis, IsDemo, IsMonitor, texts};
ghost use Rattle.m386.specs.Slots.{Keeps, NoneOpened, NoneOpenedBehind, path_for, report_only};
ghost use Rattle.m386.specs.Headline.{Headline};
ghost use Rattle.m386.specs.Listed.{Listed};
ghost use Rattle.m386.specs.Demonstrated.{Demonstrated};
ghost use Rattle.m386.specs.Monitored.{Monitored};
ghost use Rattle.m386.specs.Refusals.{words_line};
ghost use Rattle.m386.specs.Causes.{AreCounted, IsOpenedUpTo, IsReady};
ghost use Rattle.m386.specs.Answers.{Accepts, HasLine, IsDone, IsEnded, IsFaulted, IsImageWrong, IsScriptBad, SomeRose, Tells};
ghost use Rattle.m386.specs.Assured.{IsAssured, IsNoFault};
ghost use Rattle.m386.specs.Within.{AreWithin, IsWithin};

use crate::demo_command::demo_command;
use crate::dis_command::dis_command;
use crate::monitor_command::monitor_command;
use crate::refusals::{Refusal, refuse};
use crate::run_command::run_command;
use crate::status::Status;
use command_words::{Job, Refused, read_words};
use host_io::Host;
use std::alloc::Global;

/// Does what the words ask for, up to a refusal.
fn command<H: Host>(alloc: Global, words: &[&str], host: &mut H) -> Result<(), Refusal>
    ensures ok { OnOk result (IsDone (texts words.now) (H.left host.old) (H.took host.old) (H.took host.new) (H.path host.old) (H.path host.new)) }
    ensures kept { OnOk result (Same (H.faults host.old) (H.faults host.new)) }
    ensures refused { IfErr result (IsEnded (texts words.now) (H.left host.old) (H.left host.new) (H.took host.old) (H.took host.new)) }
    ensures counted { IfErr result (λ refusal. AreCounted refusal (H.faults host.old) (H.faults host.new)) }
    ensures within { IfErr result (IsWithin (H.left host.old) (H.left host.new)) }
    ensures promise { H.promise host.new ≡ H.promise host.old }
    ensures sure { (job : asked.Job) → Matched (texts words.now) job
        → IsAssured (H.promise host.old) (path_for job) (H.took host.new) → IfErr result IsNoFault }
    ensures ready { IfErr result (λ refusal. IsReady refusal (H.path host.new (Out Report))) }
    ensures up_to { IfErr result (λ refusal. IsOpenedUpTo refusal (H.path host.old) (H.path host.new)) }
    ensures keeps { (job : asked.Job) → Matched (texts words.now) job
        → Keeps (path_for job) (H.left host.old) (H.left host.new) (H.path host.old) (H.path host.new) }
    ensures unasked { NoneMatched (texts words.now)
        → Keeps report_only (H.left host.old) (H.left host.new) (H.path host.old) (H.path host.new) }
{
    match read_words(alloc, words) {
        Ok(Job::Run(job)) => run_command(alloc, host, &job),
        Ok(Job::Dis(job)) => dis_command(alloc, host, &job),
        Ok(Job::Demo(number)) => demo_command(alloc, host, number),
        Ok(Job::Monitor(machine)) => monitor_command(alloc, host, &machine),
        Err(Refused::Usage) => Err(Refusal::Words),
        Err(Refused::Memory) => Err(Refusal::Memory),
    }
}

/// Does what the words ask for: a run with its outputs, a listing, a demo, or a session of the monitor. What
/// is refused is told by a line.
pub fn m386<H: Host>(alloc: Global, words: &[&str], host: &mut H) -> Status
    ensures headline { (job : asked.RunJob) → IsRun (texts words.now) job → result ≡ Status.Done
        → Headline job (H.left host.old) (H.took host.old) (H.took host.new) (H.path host.old) (H.path host.new) }
    ensures listing { (job : asked.DisJob) → IsDis (texts words.now) job → result ≡ Status.Done
        → Listed job (H.left host.old) (H.took host.old) (H.took host.new) (H.path host.old) (H.path host.new) }
    ensures demo { (number : ℕ) → IsDemo (texts words.now) number → result ≡ Status.Done
        → Demonstrated number (H.took host.old) (H.took host.new) (H.path host.old) (H.path host.new) }
    ensures monitor { (machine : asked.Machine) → IsMonitor (texts words.now) machine → result ≡ Status.Done
        → Monitored machine (H.left host.old) (H.took host.old) (H.took host.new) (H.path host.old) (H.path host.new) }

    // When each other answer comes, and what the outputs then have.
    ensures usage { result ≡ Status.Usage → NoneMatched (texts words.now) }
    ensures usage_line { result ≡ Status.Usage
        → HasLine (H.took host.old) (H.took host.new) (H.path host.new) (H.faults host.old) (H.faults host.new) words_line }
    ensures unserved { NoneMatched (texts words.now) → (result ≡ Status.Usage) ⊎ (result ≡ Status.Memory) }
    ensures image { result ≡ Status.Image → IsImageWrong (texts words.now) (H.left host.old)
        (H.took host.old) (H.took host.new) (H.path host.new) (H.faults host.old) (H.faults host.new) }
    ensures script { result ≡ Status.Script → IsScriptBad (texts words.now) (H.left host.old)
        (H.took host.old) (H.took host.new) (H.path host.new) (H.faults host.old) (H.faults host.new) }
    ensures fault { result ≡ Status.HostFault → IsFaulted (texts words.now) (H.left host.old) (H.left host.new)
        (H.took host.old) (H.took host.new) (H.path host.old) (H.path host.new) (H.faults host.old) (H.faults host.new) }
    ensures memory { result ≡ Status.Memory → Same (H.took host.old) (H.took host.new) }
    ensures within { result ≡ Status.Memory → AreWithin (H.left host.old) (H.left host.new) }

    // What stays.
    ensures kept { (result ≡ Status.Done) ⊎ (result ≡ Status.Memory) → Same (H.faults host.old) (H.faults host.new) }
    ensures line_only { result ≢ Status.HostFault → SameBut (Out Report) (H.faults host.old) (H.faults host.new) }
    ensures keeps { (job : asked.Job) → Matched (texts words.now) job
        → Keeps (path_for job) (H.left host.old) (H.left host.new) (H.path host.old) (H.path host.new) }
    ensures unasked { NoneMatched (texts words.now)
        → Keeps report_only (H.left host.old) (H.left host.new) (H.path host.old) (H.path host.new) }

    // Over a host that promises to open what is asked for, and with no output full in the end, no call fails.
    ensures sure { (job : asked.Job) → Matched (texts words.now) job → IsAssured (H.promise host.old) (path_for job) (H.took host.new)
        → (result ≢ Status.HostFault) × Same (H.faults host.old) (H.faults host.new) }
    ensures sure_of_the_line { NoneMatched (texts words.now) → IsAssured (H.promise host.old) report_only (H.took host.new)
        → Same (H.faults host.old) (H.faults host.new) }

    // No output but the report is opened before the run has ended, and none where memory wants.
    ensures unwritten { result ≢ Status.Done → result ≢ Status.HostFault → NoneOpenedBehind (Out Report) (H.path host.old) (H.path host.new) }
    ensures unopened { result ≡ Status.Memory → NoneOpened (H.path host.old) (H.path host.new) }

    // What is asked for and accepted is done, unless memory wants.
    ensures complete { (job : asked.Job) → Matched (texts words.now) job → Accepts job (H.left host.old) → Tells (H.left host.old)
        → ¬ SomeRose (H.faults host.old) (H.faults host.new)
        → (result ≡ Status.Done) ⊎ (result ≡ Status.Memory) }
{
    match command(alloc, words, host) {
        Ok(()) => Status::Done,
        Err(refusal) => refuse(host, refusal),
    }
}
