//! The laws of scripts. Each function states one and does nothing.

ghost use Rattle.std.specs.Prelude.{◌≡◌, ℕ, List};
ghost use Rattle.mdl_state.specs.declared.Event.{Event};
ghost use Rattle.mdl_text.specs.Script.{Script, IsFirstBad, RisesFrom};

/// A file that is a script has no first bad line.
pub fn a_script_has_no_bad_line()
    ensures { (bytes : List ℕ) (events : List Event) (n : ℕ) → Script bytes events → ¬ (IsFirstBad bytes n) }
{}

/// A file is a script of one list of events.
#[tactic(auto, using(crate::specs::ScriptLaws::one_script))]
pub fn a_script_has_one_reading()
    ensures { (bytes : List ℕ) (a b : List Event) → Script bytes a → Script bytes b → a ≡ b }
{}

/// At most one line is the first bad one.
pub fn one_line_is_the_first_bad_one()
    ensures { (bytes : List ℕ) (m n : ℕ) → IsFirstBad bytes m → IsFirstBad bytes n → m ≡ n }
{}

/// The counts of a script's events do not fall.
pub fn the_events_of_a_script_rise()
    ensures { (bytes : List ℕ) (events : List Event) → Script bytes events → RisesFrom 0 events }
{}
