//! The law of plans while paging is off. The function states it and does nothing.

ghost use Rattle.std.specs.Prelude.{◌≡◌, ℕ, false, []};
ghost use Rattle.mdl_state.specs.State.{Mem};
ghost use Rattle.mdl_state.specs.Serving.{Serve};
ghost use Rattle.mdl_state.specs.Attempt.{Plan, tried};

/// With paging off a plan that is tried changes nothing in memory but what is held, and the breakpoints
/// that were met where some are looked for.
#[tactic(auto, using(crate::proofs::Unpaged::unpaged))]
pub fn without_paging_only_held_writes_change<A>()
    ensures held { (serve : Serve) (given : ℕ) (plan : Plan A) (m : Mem) → m.paging ≡ false
        → (tried serve given plan m).1 ≡ record m { held = (tried serve given plan m).1.held; hits = (tried serve given plan m).1.hits } }
    ensures met { (serve : Serve) (given : ℕ) (plan : Plan A) (m : Mem) → m.paging ≡ false → m.watch ≡ []
        → (tried serve given plan m).1.hits ≡ m.hits }
{}
