//! The laws of memory operands and of deliveries. Each function states one and does nothing.

ghost use Rattle.std.specs.Prelude.{◌≡◌, ℕ, ◌+◌, Bool, List, []};
ghost use Rattle.mdl_state.specs.declared.Regs.{Regs};
ghost use Rattle.mdl_state.specs.State.{Mem};
ghost use Rattle.mdl_state.specs.Serving.{Serve, Pick, Policy, Passed, handled, by_pick, by_list};
ghost use Rattle.mdl_state.specs.Choices.{Meets, Follows};
ghost use Rattle.mdl_state.specs.Restart.{OnlyMarks, IsFailed, bare};
ghost use Rattle.mdl_insn.specs.Spelling.{Spelt};
ghost use Rattle.mdl_insn.specs.declared.instruction.Insn.{Insn};
ghost use Rattle.mdl_cpu.specs.Addresses.{HasAddresses};
ghost use Rattle.mdl_cpu.specs.declared.Cause.{Cause};
ghost use Rattle.mdl_cpu.specs.DoubleFault.{combine};
ghost use Rattle.mdl_cpu.specs.Delivery.{running, delivered_once, followed_by, deliveries, deliver};
ghost use Rattle.mdl_cpu.specs.Deliveries.{IsStep, RaisesPageFaults, ServesAll};

/// A memory operand, however it is spelt, has a base and an index among the eight registers, where
/// it has them, and a scale of 1, 2, 4 or 8. So who computes an offset from decoded bytes reads no
/// other register.
pub fn operands_address_by_registers()
    ensures { (bytes : List ℕ) (big : Bool) (insn : Insn) → Spelt bytes big insn → HasAddresses insn }
{}

/// Where more than four deliveries may be made, no more are made. So a delivery is one delivery and, behind
/// a fault of that, a delivery again, and it comes to a handler or to shutdown, where memory serves each
/// page or raises its fault.
pub fn no_delivery_needs_a_fifth()
    ensures same { (serve : Serve) → RaisesPageFaults serve → (n : ℕ) (cause : Cause) (r : Regs) (m : Mem)
        → deliveries (4 + n) serve cause r m ≡ deliver serve cause r m }
    ensures again { (serve : Serve) → RaisesPageFaults serve → (cause : Cause) (r : Regs) (m : Mem)
        → deliver serve cause r m ≡ handled (delivered_once serve cause r m) (λ q n. (Passed (running q), n))
        (λ fault n. followed_by (combine cause fault) r n (deliver serve)) }
    ensures step { (serve : Serve) → RaisesPageFaults serve → ServesAll serve → (cause : Cause) (r : Regs) (m : Mem)
        → IsStep (deliver serve cause r m).0 }
    ensures rules { (pick : Pick) → RaisesPageFaults (by_pick pick) }
    ensures lists { (policy : Policy) → RaisesPageFaults (by_list policy) }
{}

/// What is delivered by a rule that meets a policy is delivered by some list of items that meet it.
#[tactic(auto, using(crate::proofs::DeliveryLaws::deliver_follows))]
pub fn a_delivery_is_some_choice()
    ensures { (pick : Pick) (policy : Policy) → Meets pick policy → (cause : Cause) (r : Regs) (m : Mem)
        → Follows m (deliver (by_pick pick) cause r m) (λ n. deliver (by_list policy) cause r n) }
{}

/// A delivery that raises a fault leaves every byte of memory but for bits 5 and 6, which walks set in page
/// entries, and holds no write.
pub fn a_refused_delivery_leaves_memory()
    ensures { (serve : Serve) → OnlyMarks serve → (cause : Cause) (r : Regs) (m : Mem) → IsFailed (delivered_once serve cause r m).0
        → (bare (delivered_once serve cause r m).1 ≡ bare m) × ((delivered_once serve cause r m).1.held ≡ []) }
{}
