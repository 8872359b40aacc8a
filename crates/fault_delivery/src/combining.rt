//! What follows a fault that a delivery raises.

ghost use Rattle.std.specs.Prelude.{◌≡◌};
ghost use Rattle.mdl_cpu.specs.Causes.{has_code, fault_cause, with_address};
ghost use Rattle.mdl_cpu.specs.DoubleFault.{class_of_fault, class_of, combine};

use mdl_cpu::{Cause, Class};
use mdl_state::{Fault, Regs};

/// The vector of a page fault.
const PAGE_FAULT: u8 = 14;

/// The double fault, whose code is 0.
const DOUBLE_FAULT: Fault = Fault {
    vector: 8,
    code: 0,
    addr: 0,
};

/// The class of a fault.
fn class_of_fault(vector: u8) -> Class
    ensures { result ≡ class_of_fault vector }
{
    if vector == 8 {
        Class::DoubleFault
    } else if vector == PAGE_FAULT {
        Class::PageFault
    } else if vector == 0 || 10 <= vector && vector <= 13 {
        Class::Contributory
    } else {
        Class::Benign
    }
}

/// The class of a cause: interrupts and traps are benign.
fn class_of(cause: Cause) -> Class
    ensures { result ≡ class_of cause }
{
    if cause.fault {
        class_of_fault(cause.vector)
    } else {
        Class::Benign
    }
}

/// The fault that is delivered where one arises while a cause is delivered, or None where the processor
/// shuts down.
#[tactic(auto, unfolding(mdl_cpu::specs::DoubleFault::combine))]
pub(crate) fn combine(first: Cause, second: Fault) -> Option<Fault>
    ensures { result ≡ combine first second }
{
    match (class_of(first), class_of_fault(second.vector)) {
        (Class::DoubleFault, _) => None,
        (Class::Contributory | Class::PageFault, Class::Contributory) => Some(DOUBLE_FAULT),
        (Class::PageFault, Class::PageFault) => Some(DOUBLE_FAULT),
        _ => Some(second),
    }
}

/// Whether a fault has an error code.
fn has_code(vector: u8) -> bool
    ensures { result ≡ has_code vector }
{
    vector == 8 || 10 <= vector && vector <= 14
}

/// The cause of a fault that arises with these registers.
pub fn fault_cause(regs: &Regs, fault: Fault) -> Cause
    ensures { result ≡ fault_cause regs.now fault }
{
    let code = if has_code(fault.vector) {
        Some(fault.code)
    } else {
        None
    };
    Cause {
        vector: fault.vector,
        code,
        soft: false,
        fault: true,
        ext: true,
        back: regs.eip,
    }
}

/// CR2 takes the address of a page fault that is delivered.
pub fn note_address(regs: &mut Regs, fault: Fault)
    ensures { regs.new ≡ with_address regs.old fault }
{
    if fault.vector == PAGE_FAULT {
        regs.cr2 = fault.addr;
    }
}
