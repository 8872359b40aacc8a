//! The laws of deliveries in every mode. Each function states one and does nothing.

ghost use Rattle.std.specs.Prelude.{◌≡◌, ℕ, ◌+◌, []};
ghost use Rattle.mdl_state.specs.declared.Regs.{Regs};
ghost use Rattle.mdl_state.specs.State.{Mem};
ghost use Rattle.mdl_state.specs.Serving.{Serve, Pick, Policy, by_pick, by_list};
ghost use Rattle.mdl_state.specs.Choices.{Meets, Follows};
ghost use Rattle.mdl_state.specs.Restart.{OnlyMarks, IsFailed, bare};
ghost use Rattle.mdl_cpu.specs.declared.Cause.{Cause};
ghost use Rattle.mdl_cpu.specs.DoubleFault.{combine};
ghost use Rattle.mdl_cpu.specs.Delivery.{followed_by};
ghost use Rattle.mdl_cpu.specs.TaskDeliveries.{delivered_by_gate, behind_delivery, deliveries_by_gate, deliver_by_gate};
ghost use Rattle.mdl_cpu.specs.Deliveries.{IsStep, RaisesPageFaults, ServesAll};
ghost use Rattle.fault_delivery.specs.GateAttempts.{gate_attempt};

/// Where more than four deliveries may be made, no more are made, also where some enter tasks. So a delivery
/// is one delivery and, behind a fault of that, a delivery again, and it comes to a handler, a task or shutdown,
/// where memory serves each page or raises its fault.
pub fn no_delivery_needs_a_fifth()
    ensures same { (serve : Serve) → RaisesPageFaults serve → (n : ℕ) (cause : Cause) (r : Regs) (m : Mem)
        → deliveries_by_gate (4 + n) serve cause r m ≡ deliver_by_gate serve cause r m }
    ensures again { (serve : Serve) → RaisesPageFaults serve → (cause : Cause) (r : Regs) (m : Mem)
        → deliver_by_gate serve cause r m ≡ behind_delivery (delivered_by_gate serve cause r m)
        (λ fault q n. followed_by (combine cause fault) q n (deliver_by_gate serve)) }
    ensures step { (serve : Serve) → RaisesPageFaults serve → ServesAll serve → (cause : Cause) (r : Regs) (m : Mem)
        → IsStep (deliver_by_gate serve cause r m).0 }
{}

/// What is delivered by a rule that meets a policy, to handlers and to tasks, is delivered by some list of
/// items that meet it.
pub fn a_delivery_is_some_choice()
    ensures { (pick : Pick) (policy : Policy) → Meets pick policy → (cause : Cause) (r : Regs) (m : Mem)
        → Follows m (deliver_by_gate (by_pick pick) cause r m) (λ n. deliver_by_gate (by_list policy) cause r n) }
{}

/// A gate that raises a fault leaves every byte of memory but for bits 5 and 6, which walks set in page entries,
/// and holds no write. Behind a task gate the switch says in which task its fault is, and what stands.
pub fn a_refused_gate_leaves_memory()
    ensures { (serve : Serve) → OnlyMarks serve → (cause : Cause) (r : Regs) (m : Mem) → IsFailed (gate_attempt serve cause r m).0
        → (bare (gate_attempt serve cause r m).1 ≡ bare m) × ((gate_attempt serve cause r m).1.held ≡ []) }
{}
