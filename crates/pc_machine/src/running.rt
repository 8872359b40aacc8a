//! Runs, with events at their counts of steps.

ghost use Rattle.std.specs.Prelude.{◌≡◌, ◌≤◌, ◌<◌, ◌+◌, ◌^◌, [], drop, length, IfSome};
ghost use Rattle.mdl_text.specs.Script.{RisesFrom};
ghost use Rattle.mdl_step.specs.Run.{after_events};
ghost use Rattle.mdl_step.specs.RunLaws.{StepsFor};
ghost use Rattle.mdl_step.specs.Computer.{board_rules, on_board, run_policy};
ghost use Rattle.pc_machine.specs.Runs.{due_by, RanFor};
ghost use Rattle.pc_machine.specs.EventLaws.{Split, next_at};

use crate::pc::Pc;
use mdl_state::Event;

/// The event at an index, where it has this count.
fn next_event(events: &[Event], at: usize, count: u64) -> Option<Event>
    ensures next { result ≡ next_at count (drop at events.now) }
    ensures inside { IfSome result (λ _. at < length events.now) }
{
    if at < events.len() && events[at].at == count {
        Some(events[at])
    } else {
        None
    }
}

/// How many steps there are up to the count of the next event, the one at an index, but at most so many.
fn steps_before_next(events: &[Event], at: usize, count: u64, most: u64) -> u64
    requires split { Split (count + 1) (count + 1) events.now at }
    requires most { 0 < most }
    ensures some { 0 < result }
    ensures most { result ≤ most }
    ensures split { Split (count + 1) (count + result) events.now at }
{
    if at < events.len() {
        let next = events[at].at;
        return most.min(next - count);
    }
    most
}

impl Pc {
    /// Applies the events of the present count of steps, from an index on, and answers the index
    /// behind them.
    #[tactic(auto, using(crate::specs::EventLaws::events))]
    fn apply(&mut self, events: &[Event], from: usize) -> usize
        requires split { Split self.old.state.core.steps self.old.state.core.steps events.now from }
        ensures applied { self.new ≡ after_events board_rules on_board events.now self.old }
        ensures split { Split (self.new.state.core.steps + 1) (self.new.state.core.steps + 1) events.now result }
        ensures steps { self.new.state.core.steps ≡ self.old.state.core.steps }
    {
        let mut done = from;
        while let Some(event) = next_event(events, done, self.steps()) {
            self.event(event);
            done += 1;
        }
        done
    }

    /// Makes so many steps with no event between them.
    fn advance(&mut self, steps: u64)
        requires { self.old.state.core.steps + steps ≤ 10 ^ 15 }
        ensures made { StepsFor board_rules on_board [] run_policy steps self.old self.new }
        ensures count { self.new.state.core.steps ≡ self.old.state.core.steps + steps }
    {
        for done in 0..steps {
            if self.pass(steps - done) {
                return;
            }
            self.step();
        }
    }

    /// Makes so many steps. An event is applied when the count of steps is its own, before the next
    /// step, in the list's order; those of the last count are applied behind the last step, and later
    /// ones never. Answers how many events were applied.
    pub fn run(&mut self, events: &[Event], steps: u64) -> usize
        requires count { self.old.state.core.steps + steps ≤ 10 ^ 15 }
        requires rises { RisesFrom self.old.state.core.steps events.now }
        ensures ran { RanFor events.now steps self.old self.new }
        ensures count { self.new.state.core.steps ≡ self.old.state.core.steps + steps }
        ensures applied { result ≡ due_by self.new.state.core.steps events.now }
    {
        let mut applied = self.apply(events, 0);
        let mut done = 0;
        while done < steps {
            let burst = steps_before_next(events, applied, self.steps(), steps - done);
            self.advance(burst);
            applied = self.apply(events, applied);
            done += burst;
        }
        applied
    }
}
