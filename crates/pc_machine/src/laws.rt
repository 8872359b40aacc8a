//! Laws of runs, stated by functions that do nothing.

ghost use Rattle.std.specs.Prelude.{◌≡◌, ◌+◌, ℕ, List};
ghost use Rattle.mdl_state.specs.declared.Event.{Event};
ghost use Rattle.mdl_state.specs.Machine.{Machine};
ghost use Rattle.mdl_board.specs.Board.{BoardState};
ghost use Rattle.mdl_text.specs.Script.{RisesFrom};
ghost use Rattle.mdl_step.specs.RunLaws.{StepsFor};
ghost use Rattle.mdl_step.specs.Computer.{board_rules, on_board, run_policy};
ghost use Rattle.pc_machine.specs.Runs.{RanFor};
ghost use Rattle.pc_machine.specs.CutLaws.{rest_at};

/// A run that is cut in two changes nothing: a run of some steps, and then one with the events that
/// were not applied yet, are a run of all the steps.
#[tactic(auto, using(crate::specs::CutLaws::cut))]
pub fn a_run_may_be_cut_anywhere()
    ensures { (events : List Event) (k first second : ℕ) (m mid n : Machine BoardState) → RisesFrom k events
        → RanFor events first m mid → RanFor (rest_at mid.state.core.steps events) second mid n → RanFor events (first + second) m n }
{}

/// Where the events of the present count were applied, a run with the rest of them makes the steps of
/// the whole list.
#[tactic(auto, using(crate::specs::CutLaws::ran_on))]
pub fn a_run_goes_on_with_the_rest_of_the_events()
    ensures { (events : List Event) (k steps : ℕ) (m n : Machine BoardState) → RisesFrom k events
        → RanFor (rest_at m.state.core.steps events) steps m n → StepsFor board_rules on_board events run_policy steps m n }
{}
