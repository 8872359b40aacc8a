//! The switch whole.

ghost use Rattle.std.specs.Prelude.{◌≡◌, ◌≤◌, [], true};
ghost use Rattle.mdl_state.specs.Serving.{Passed, by_pick};
ghost use Rattle.mdl_state.specs.Accesses.{KeepsPhysical};
ghost use Rattle.mdl_cpu.specs.Faults.{extended};
ghost use Rattle.mdl_cpu.specs.Segments.{has_protection};
ghost use Rattle.mdl_cpu.specs.Steady.{IsSound, Agree};
ghost use Rattle.mdl_cpu.specs.NewTask.{by_directory};
ghost use Rattle.mdl_cpu.specs.Switch.{left, new_part, switch};
ghost use Rattle.task_switch.specs.TaskOfFault.{TaskOfFault};

use crate::first_registers::{begin, has_trap};
use crate::new_task::load_task;
use crate::old_task::leave;
use mdl_cpu::{Request, Switched, Task};
use mdl_state::{Fault, Regs};
use mem_iface::Linear;

/// The vectors whose codes have no EXT: those of a double fault and of a page fault.
const DOUBLE_FAULT: u8 = 8;

const PAGE_FAULT: u8 = 14;

/// EXT in the code of a fault that comes on the way of an external cause.
fn extended(external: bool, fault: Fault) -> Fault
    ensures { result ≡ extended external fault }
{
    if external && fault.vector != PAGE_FAULT && fault.vector != DOUBLE_FAULT {
        Fault {
            code: fault.code - fault.code % 2 + 1,
            ..fault
        }
    } else {
        fault
    }
}

/// Memory by the page directory of the new task.
fn set_directory<L: Linear>(lin: &mut L, old: u32, new: u32)
    requires { (L.seen lin.old).cr3 ≡ old }
    ensures directory { L.seen lin.new ≡ by_directory new (L.seen lin.old) }
    ensures cr3 { (L.seen lin.new).cr3 ≡ new }
    ensures paging { (L.seen lin.new).paging ≡ (L.seen lin.old).paging }
    ensures held { (L.seen lin.new).held ≡ (L.seen lin.old).held }
    ensures physical { KeepsPhysical (L.seen lin.old).physical (L.seen lin.new).physical }
{
    if old != new {
        lin.load_cr3(new);
    }
}

/// The new task, whose registers are set, is loaded by its own page directory. What that held is placed, or
/// it is dropped at a fault, which is one of the new task.
#[tactic(auto, using(crate::proofs::FirstRegisters::level_after), unfolding(mdl_cpu::specs::Switch::new_part))]
fn enter<L: Linear>(regs: &mut Regs, lin: &mut L, request: Request, task: &Task) -> Switched
    requires held { (L.seen lin.old).held ≡ [] }
    requires tables { Agree regs.old (L.seen lin.old) }
    ensures run { left (Passed result) regs.new (L.seen lin.new) ≡ new_part (by_pick L.pick) regs.old request task.now (L.seen lin.old) }
    ensures held { (L.seen lin.new).held ≡ [] }
    ensures tables { Agree regs.new (L.seen lin.new) }
    ensures keeps { KeepsPhysical (L.seen lin.old).physical (L.seen lin.new).physical }
    ensures level { regs.new.cpl ≤ 3 }
    ensures sound { has_protection regs.old ≡ true → IsSound regs.new }
{
    let old = regs.cr3;
    begin(regs, request, task);
    set_directory(lin, old, regs.cr3);
    match load_task(regs, lin, request, task) {
        Ok(()) => {
            lin.commit();
            Switched::Done(has_trap(&task.image))
        }
        Err(fault) => {
            lin.discard();
            Switched::NewFault(extended(request.ext, fault))
        }
    }
}

/// Both parts.
#[tactic(auto, unfolding(mdl_cpu::specs::Switch::switch))]
fn exchange<L: Linear>(regs: &mut Regs, lin: &mut L, request: Request) -> Switched
    requires level { regs.old.cpl ≤ 3 }
    requires held { (L.seen lin.old).held ≡ [] }
    requires tables { Agree regs.old (L.seen lin.old) }
    ensures run { left (Passed result) regs.new (L.seen lin.new) ≡ switch (by_pick L.pick) regs.old request (L.seen lin.old) }
    ensures held { (L.seen lin.new).held ≡ [] }
    ensures tables { Agree regs.new (L.seen lin.new) }
    ensures keeps { KeepsPhysical (L.seen lin.old).physical (L.seen lin.new).physical }
    ensures level { regs.new.cpl ≤ 3 }
    ensures sound { has_protection regs.old ≡ true → IsSound regs.old → IsSound regs.new }
{
    match leave(regs, lin, request) {
        Ok(task) => {
            lin.commit();
            enter(regs, lin, request, &task)
        }
        Err(fault) => {
            lin.discard();
            Switched::OldFault(extended(request.ext, fault))
        }
    }
}

/// A switch to the task of a TSS. It is made, and tells whether the T bit of the new task is set, or a fault
/// comes, before the old task is left or in the new one. What it writes is placed.
///
/// Behind a fault of the old task everything stands but marks of page entries and the cache. Behind one of
/// the new task the old one is saved, and the registers are those of the new task, with the segments that
/// were loaded before the fault.
#[tactic(auto, using(crate::proofs::TaskLaws::switched_task))]
pub fn switch<L: Linear>(regs: &mut Regs, lin: &mut L, request: Request) -> Switched
    requires level { regs.old.cpl ≤ 3 }
    requires held { (L.seen lin.old).held ≡ [] }
    requires tables { Agree regs.old (L.seen lin.old) }
    ensures run { left (Passed result) regs.new (L.seen lin.new) ≡ switch (by_pick L.pick) regs.old request (L.seen lin.old) }
    ensures task { TaskOfFault (by_pick L.pick) regs.old request (L.seen lin.old) result regs.new (L.seen lin.new) }
    ensures held { (L.seen lin.new).held ≡ [] }
    ensures tables { Agree regs.new (L.seen lin.new) }
    ensures keeps { KeepsPhysical (L.seen lin.old).physical (L.seen lin.new).physical }
    ensures level { regs.new.cpl ≤ 3 }
    ensures sound { has_protection regs.old ≡ true → IsSound regs.old → IsSound regs.new }
{
    exchange(regs, lin, request)
}
