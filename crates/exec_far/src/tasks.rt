//! The switch to the task that a transfer leads to.

ghost use Rattle.std.specs.Prelude.{◌≡◌, IfOk, OnErr, [], true};
ghost use Rattle.mdl_state.specs.Serving.{by_pick};
ghost use Rattle.mdl_state.specs.Accesses.{KeepsPhysical};
ghost use Rattle.mdl_cpu.specs.Segments.{has_protection};
ghost use Rattle.mdl_cpu.specs.Steady.{Agree, IsSound};
ghost use Rattle.mdl_cpu.specs.Switch.{left, switch};
ghost use Rattle.mdl_effect.specs.FarEffects.{reason_of, far_request, switching};
ghost use Rattle.operands.specs.Whole.{ran};
ghost use Rattle.exec_far.specs.Arrivals.{Arrives, IsOfEitherTask};

use mdl_cpu::{Reason, Request, Switched};
use mdl_insn::Op;
use mdl_state::{Fault, Next, Regs};
use mem_iface::Linear;
use task_switch::switch;

/// Why the task is left.
fn reason_of(op: Op) -> Reason
    ensures { result ≡ reason_of op }
{
    match op {
        Op::Callf => Reason::Call,
        Op::Iret => Reason::Return,
        _ => Reason::Jump,
    }
}

/// The switch that an instruction asks for, by whether it names the task itself. EIP is saved as it is behind the
/// instruction.
pub(crate) fn far_request(op: Op, task: u16, direct: bool, back: u32) -> Request
    ensures { result ≡ far_request op task direct back }
{
    Request {
        selector: task,
        reason: reason_of(op),
        direct,
        back,
        code: None,
        ext: false,
        fault: false,
    }
}

/// The task is entered, and tells its T bit; or a fault is raised in one of both tasks.
pub(crate) fn enter_task<L: Linear>(
    regs: &mut Regs,
    lin: &mut L,
    request: Request,
) -> Result<Next, Fault>
    requires mode { has_protection regs.old ≡ true }
    requires sound { IsSound regs.old }
    requires tables { Agree regs.old (L.seen lin.old) }
    requires held { (L.seen lin.old).held ≡ [] }
    ensures run { left (ran result regs.new) regs.new (L.seen lin.new)
        ≡ switching (switch (by_pick L.pick) regs.old request (L.seen lin.old)) }
    ensures sound { IsSound regs.new }
    ensures tables { Agree regs.new (L.seen lin.new) }
    ensures unchanged { OnErr result (IsOfEitherTask regs.old regs.new) }
    ensures keeps { KeepsPhysical (L.seen lin.old).physical (L.seen lin.new).physical }
    ensures held { (L.seen lin.new).held ≡ [] }
    ensures follows { IfOk result Arrives }
{
    match switch(regs, lin, request) {
        Switched::Done(trap) => Ok(Next::Task(trap)),
        Switched::OldFault(fault) | Switched::NewFault(fault) => Err(fault),
    }
}
