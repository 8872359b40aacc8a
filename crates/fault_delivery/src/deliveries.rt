//! Deliveries, one after another.

ghost use Rattle.std.specs.Prelude.{◌≡◌, true, false, []};
ghost use Rattle.mdl_state.specs.Serving.{Passed, outcome, by_pick};
ghost use Rattle.mdl_state.specs.Accesses.{KeepsPhysical};
ghost use Rattle.mdl_cpu.specs.Segments.{has_protection};
ghost use Rattle.mdl_cpu.specs.Steady.{Agree, IsSound, Steady};
ghost use Rattle.mdl_cpu.specs.Switch.{left, switch};
ghost use Rattle.mdl_cpu.specs.TaskDeliveries.{task_request, entering, delivered_by_gate, deliver_by_gate};
ghost use Rattle.mdl_cpu.specs.Deliveries.{KeepsWatch};
ghost use Rattle.fault_delivery.specs.Arrivals.{CanDeliver, arrival};

use crate::combining::{combine, fault_cause, note_address};
use gate_transfer::{saved_eip, through_gate};
use mdl_cpu::{Cause, Outcome, Reason, Request, Switched};
use mdl_state::{Fault, Regs};
use mem_iface::Linear;
use task_switch::switch;

/// What a delivery comes to.
#[derive(Clone, Copy, Debug, PartialEq, Eq)]
pub enum Delivered {
    /// The processor is at a handler, of a task whose T bit is set where this says so.
    Done(bool),
    /// A fault arose while a double fault was delivered.
    Shutdown,
}

/// The switch to the task that a task gate names.
fn task_request(regs: &Regs, cause: Cause, selector: u16) -> Request
    ensures { result ≡ task_request cause regs.now selector }
{
    Request {
        selector,
        reason: Reason::Interrupt,
        direct: false,
        back: saved_eip(regs, cause),
        code: cause.code,
        ext: cause.ext,
        fault: cause.fault,
    }
}

/// The task that a task gate names is entered, and tells its T bit; or a fault is raised in one of both tasks.
fn enter_task<L: Linear>(
    regs: &mut Regs,
    lin: &mut L,
    cause: Cause,
    selector: u16,
) -> Result<bool, Fault>
    requires mode { has_protection regs.old ≡ true }
    requires sound { IsSound regs.old }
    requires tables { Agree regs.old (L.seen lin.old) }
    requires held { (L.seen lin.old).held ≡ [] }
    ensures run { left (outcome result) regs.new (L.seen lin.new)
        ≡ entering (switch (by_pick L.pick) regs.old (task_request cause regs.old selector) (L.seen lin.old)) }
    ensures sound { IsSound regs.new }
    ensures tables { Agree regs.new (L.seen lin.new) }
    ensures keeps { KeepsPhysical (L.seen lin.old).physical (L.seen lin.new).physical }
    ensures held { (L.seen lin.new).held ≡ [] }
{
    match switch(regs, lin, task_request(regs, cause, selector)) {
        Switched::Done(trap) => Ok(trap),
        Switched::OldFault(fault) | Switched::NewFault(fault) => Err(fault),
    }
}

/// One delivery, committed or discarded: the T bit of a task that was entered, or the fault that it raises, with
/// the registers of the task in which that is.
#[tactic(auto, unfolding(mdl_cpu::specs::TaskDeliveries::delivered_by_gate))]
fn attempt<L: Linear>(regs: &mut Regs, lin: &mut L, cause: Cause) -> Result<bool, Fault>
    requires ready { CanDeliver regs.old (L.seen lin.old) }
    requires held { (L.seen lin.old).held ≡ [] }
    ensures run { left (outcome result) regs.new (L.seen lin.new)
        ≡ delivered_by_gate (by_pick L.pick) cause regs.old (L.seen lin.old) }
    ensures ready { CanDeliver regs.new (L.seen lin.new) }
    ensures sound { IsSound regs.old → IsSound regs.new }
    ensures tables { Agree regs.old (L.seen lin.old) → Agree regs.new (L.seen lin.new) }
    ensures keeps { KeepsPhysical (L.seen lin.old).physical (L.seen lin.new).physical }
    ensures held { (L.seen lin.new).held ≡ [] }
{
    match through_gate(regs, lin, cause) {
        Ok(way) => {
            lin.commit();
            match way {
                Outcome::Done => Ok(false),
                Outcome::Switch(selector) => enter_task(regs, lin, cause, selector),
            }
        }
        Err(fault) => {
            lin.discard();
            Err(fault)
        }
    }
}

/// A cause delivered, through a gate, by a task switch, or by the table of real mode, and those of the faults
/// that arise on the way, each by itself committed or refused. Chapters 7, 9, 14 and 15.
///
/// Where a page fault is handed in, its address is in CR2 already.
pub fn deliver<L: Linear>(regs: &mut Regs, lin: &mut L, cause: Cause) -> Delivered
    requires ready { CanDeliver regs.old (L.seen lin.old) }
    requires held { (L.seen lin.old).held ≡ [] }
    ensures run { (Passed (arrival result regs.new), L.seen lin.new)
        ≡ deliver_by_gate (by_pick L.pick) cause regs.old (L.seen lin.old) }
    ensures ready { CanDeliver regs.new (L.seen lin.new) }
    ensures sound { IsSound regs.old → IsSound regs.new }
    ensures tables { Agree regs.old (L.seen lin.old) → Agree regs.new (L.seen lin.new) }
    ensures keeps { KeepsPhysical (L.seen lin.old).physical (L.seen lin.new).physical }
    ensures watch { KeepsWatch (L.seen lin.old) (L.seen lin.new) }
    ensures held { (L.seen lin.new).held ≡ [] }
    ensures real { has_protection regs.old ≡ false → Steady regs.old regs.new }
{
    let mut next = cause;
    loop {
        match attempt(regs, lin, next) {
            Ok(trap) => return Delivered::Done(trap),
            Err(raised) => {
                let Some(fault) = combine(next, raised) else {
                    return Delivered::Shutdown;
                };
                next = fault_cause(regs, fault);
                note_address(regs, fault);
            }
        }
    }
}
