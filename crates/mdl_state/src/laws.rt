//! The laws of attempts: plans in a row, choices, and restart. Each function states one and does
//! nothing.

ghost use Rattle.std.specs.Prelude.{◌≡◌, ℕ, []};
ghost use Rattle.mdl_state.specs.State.{Mem};
ghost use Rattle.mdl_state.specs.Serving.{Serve, Pick, Policy, by_pick, by_list, on};
ghost use Rattle.mdl_state.specs.Attempt.{Plan, then_plan, tried, attempt};
ghost use Rattle.mdl_state.specs.Choices.{Meets, Follows};
ghost use Rattle.mdl_state.specs.Restart.{OnlyMarks, IsFailed, bare};

/// A plan after a plan is tried in two parts.
#[tactic(auto, using(crate::specs::Rules::attempts))]
pub fn a_plan_after_a_plan<A, B>()
    ensures { (serve : Serve) (given : ℕ) (p : Plan A) (f : A → Plan B) (m : Mem) →
        tried serve given (then_plan p f) m ≡ on (tried serve given p m) (λ x n. tried serve given (f x) n) }
{}

/// What comes of an attempt by a rule that meets a policy comes of it by some list of items that
/// meet it, used in order and wholly, and the walks among them are counted.
pub fn a_rule_is_some_choice<A>()
    ensures { (pick : Pick) (policy : Policy) → Meets pick policy → (given : ℕ) (plan : Plan A) (m : Mem) →
        Follows m (attempt (by_pick pick) given plan m) (λ n. attempt (by_list policy) given plan n) }
{}

/// An attempt that ends in a fault leaves every byte of memory but for bits 5 and 6, which walks
/// set in page entries, and holds no write.
#[tactic(auto, using(crate::specs::Rules::marks))]
pub fn a_fault_leaves_memory<A>()
    ensures fault { (serve : Serve) → OnlyMarks serve → (given : ℕ) (plan : Plan A) (m : Mem) →
        IsFailed (attempt serve given plan m).0 →
        (bare (attempt serve given plan m).1 ≡ bare m) × ((attempt serve given plan m).1.held ≡ []) }
    ensures rules { (pick : Pick) → OnlyMarks (by_pick pick) }
    ensures lists { (policy : Policy) → OnlyMarks (by_list policy) }
{}
