//! What the processor does between two steps, and what it remembers. Manual, chapters 9 and 10.

ghost use Rattle.std.specs.Prelude.{◌≡◌, true};
ghost use Rattle.std.specs.Bool.{OnTrue};
ghost use Rattle.mdl_state.specs.declared.Activity.TheVariants.{Running};
ghost use Rattle.mdl_state.specs.Boot.{clear_latches};

use mdl_state::{Activity, Latches};

/// What the processor does, and what waits, is masked or is held back. It is calm only where it runs and
/// there is none of that: then one look tells so before an instruction, and one that goes on leaves it.
#[derive(Clone, Copy)]
pub(crate) struct Between {
    pub(crate) activity: Activity,
    pub(crate) latches: Latches,
    calm: bool,
    ghost runs: { calm ≡ true → activity ≡ Running },
    ghost clear: { calm ≡ true → latches ≡ clear_latches },
}

/// Whether the processor runs, and nothing is latched.
fn is_quiet(activity: Activity, latches: &Latches) -> bool
    ensures runs { OnTrue result (activity ≡ Running) }
    ensures clear { OnTrue result (latches.now ≡ clear_latches) }
{
    if latches.nmi || latches.masked || latches.hold != 0 || latches.pending != 0 {
        return false;
    }
    match activity {
        Activity::Running => true,
        _ => false,
    }
}

impl Between {
    pub(crate) fn new(activity: Activity, latches: Latches) -> Between
        ensures activity { result.activity ≡ activity }
        ensures latches { result.latches ≡ latches }
    {
        let calm = is_quiet(activity, &latches);
        Between {
            activity,
            latches,
            calm,
        }
    }

    /// Whether the processor is calm.
    #[inline(always)]
    pub(crate) fn is_calm(&self) -> bool
        ensures runs { OnTrue result (self.now.activity ≡ Running) }
        ensures clear { OnTrue result (self.now.latches ≡ clear_latches) }
    {
        self.calm
    }
}
