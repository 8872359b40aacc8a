//! The steps of a session.

ghost use Rattle.std.specs.Prelude.{◌≡◌, ◌≤◌, ◌+◌, ◌-◌, ◌^◌, ◌↔◌, IsTrue, min};
ghost use Rattle.mdl_text.specs.CommandLine.{most_steps};
ghost use Rattle.monitor.specs.Moves.{Makes, Continues, IsStopped, steps_left};
ghost use Rattle.monitor.specs.Answers.{most_continued};

use crate::places::code_address;
use crate::stops::{Breaks, place_of};
use crate::target::Target;
use mdl_state::Activity;

/// The greatest count of steps.
const MOST_STEPS: u64 = 1_000_000_000_000_000;

/// How many steps `c` makes at most.
const MOST_CONTINUED: u64 = 10_000_000;

/// Makes so many steps, or as many as there may be.
pub(crate) fn move_by<T: Target>(target: &mut T, count: u64)
    requires { (T.machine target.old).state.core.steps ≤ most_steps }
    ensures made { Makes (T.script target.old) (min count (steps_left (T.machine target.old))) (T.machine target.old) (T.machine target.new) }
    ensures bound { (T.machine target.new).state.core.steps ≤ most_steps }
    ensures script { T.script target.new ≡ T.script target.old }
{
    let steps = target.steps();
    target.advance(steps + count.min(MOST_STEPS - steps));
}

/// Makes steps up to a count of them; none where it is passed.
pub(crate) fn move_to<T: Target>(target: &mut T, to: u64)
    requires { (T.machine target.old).state.core.steps ≤ most_steps }
    ensures made { Makes (T.script target.old) (min to most_steps - (T.machine target.old).state.core.steps) (T.machine target.old) (T.machine target.new) }
    ensures bound { (T.machine target.new).state.core.steps ≤ most_steps }
    ensures script { T.script target.new ≡ T.script target.old }
{
    let steps = target.steps();
    target.advance(to.min(MOST_STEPS).max(steps));
}

/// Whether the machine stands at a breakpoint, or does not run.
fn is_stopped<T: Target>(target: &T, breaks: &Breaks) -> bool
    ensures { IsTrue result ↔ IsStopped breaks.now.items (T.machine target.now) }
{
    match target.activity() {
        Activity::Running => place_of(breaks, code_address(&target.regs())).is_some(),
        _ => true,
    }
}

/// Makes steps, at least one, up to a breakpoint or until the processor does not run, but at most so
/// many as `c` makes.
pub(crate) fn go_on<T: Target>(target: &mut T, breaks: &Breaks)
    requires { (T.machine target.old).state.core.steps ≤ most_steps }
    ensures made { Continues (T.script target.old) breaks.now.items (min most_continued (steps_left (T.machine target.old))) (T.machine target.old) (T.machine target.new) }
    ensures bound { (T.machine target.new).state.core.steps ≤ most_steps }
    ensures script { T.script target.new ≡ T.script target.old }
{
    let most = MOST_CONTINUED.min(MOST_STEPS - target.steps());
    for _step in 0..most {
        target.step();
        if is_stopped(target, breaks) {
            return;
        }
    }
}
