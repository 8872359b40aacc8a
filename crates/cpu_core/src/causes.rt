//! What is delivered between two instructions, or by one. Manual, chapter 9.

ghost use Rattle.std.specs.Prelude.{◌≡◌, ℕ, if◌then◌else◌, bit_or};
ghost use Rattle.mdl_state.specs.declared.Regs.{Regs as Registers};
ghost use Rattle.mdl_cpu.specs.Causes.{event_cause, soft_cause};
ghost use Rattle.mdl_cpu.specs.SystemFlags.{TF};
ghost use Rattle.mdl_state.specs.Bytes.{bit};
ghost use Rattle.mdl_step.specs.Delivering.{BT};
ghost use Rattle.mdl_step.specs.Step.{break_cause, step_trap, task_trap};
ghost use Rattle.fault_delivery.specs.Arrivals.{arrival};

use fault_delivery::{Cause, Delivered};
use mdl_state::{Activity, Next, Regs};

/// The vectors of a debug trap and of a non-maskable interrupt.
pub(crate) const DEBUG: u8 = 1;

pub(crate) const NON_MASKABLE: u8 = 2;

/// A debug trap, an NMI or an interrupt, between two instructions.
pub(crate) fn event_cause(regs: &Regs, vector: u8) -> Cause
    ensures { result ≡ event_cause regs.now vector }
{
    Cause {
        vector,
        code: None,
        soft: false,
        fault: false,
        ext: true,
        back: regs.eip,
    }
}

/// The fault of a breakpoint, which is met before the instruction.
pub(crate) fn break_cause(regs: &Regs) -> Cause
    ensures { result ≡ break_cause regs.now }
{
    Cause {
        vector: DEBUG,
        code: None,
        soft: false,
        fault: true,
        ext: true,
        back: regs.eip,
    }
}

/// A software interrupt. `back` is the EIP behind it.
pub(crate) fn soft_cause(vector: u8, back: u32) -> Cause
    ensures { result ≡ soft_cause vector back }
{
    Cause {
        vector,
        code: None,
        soft: true,
        fault: false,
        ext: false,
        back,
    }
}

/// The bit of DR6 that a task with its T bit set makes pending.
const TASK_TRAP: u16 = 0x8000;

/// What the processor does behind a delivery.
pub(crate) fn activity_at(delivered: Delivered) -> Activity
    ensures { (r : Registers) → result ≡ (arrival delivered r).activity }
{
    match delivered {
        Delivered::Done(_) => Activity::Running,
        Delivered::Shutdown => Activity::Shutdown,
    }
}

/// The bits of DR6 that are pending behind it.
pub(crate) fn pending_at(delivered: Delivered, pending: u16) -> u16
    ensures { (r : Registers) → result ≡ (if (arrival delivered r).trap then bit_or pending BT else pending) }
{
    match delivered {
        Delivered::Done(true) => pending | TASK_TRAP,
        _ => pending,
    }
}

/// The bit of DR6 of a single step.
const SINGLE_STEP: u16 = 0x4000;

/// The bits of DR6 of the debug traps behind an instruction: that of a single step, where TF was 1 as it
/// began, and that of a task whose T bit is set. A software interrupt and a task switch come without the
/// first.
#[tactic(auto, using(crate::proofs::Pending::or_zero, crate::proofs::Pending::zero_or))]
fn debug_traps(next: Next, traced: bool) -> u16
    ensures { (r : Registers) → bit r.eflags TF ≡ traced → result ≡ bit_or (step_trap next r) (task_trap next) }
{
    match next {
        Next::Soft(_) | Next::Task(false) => 0,
        Next::Task(true) => TASK_TRAP,
        _ => { if traced { SINGLE_STEP } else { 0 } }
    }
}

/// The bits of DR6 that are pending behind an instruction that met these breakpoints.
pub(crate) fn pending_after(next: Next, traced: bool, hits: u16, pending: u16) -> u16
    ensures { (r : Registers) → bit r.eflags TF ≡ traced → result ≡ bit_or pending (bit_or hits (bit_or (step_trap next r) (task_trap next))) }
{
    pending | (hits | debug_traps(next, traced))
}
