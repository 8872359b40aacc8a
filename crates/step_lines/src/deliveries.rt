//! What the delivery of a fault or of a software interrupt leaves, in real mode.

use crate::steps::ROOM;
use fault_delivery::{Cause, Delivered, deliver, fault_cause};
use mdl_state::{Fault, Regs};
use mem_iface::Linear;

/// How the steps of a line ended, and where the delivery of that arrives.
#[derive(Clone, Copy)]
pub struct Ending {
    pub vector: u8,
    pub code: u16,
    pub delivered: Delivered,
    pub regs: Regs,
}

/// A software interrupt. `back` is the EIP behind it.
fn soft_cause(vector: u8, back: u32) -> Cause {
    Cause {
        vector,
        code: None,
        soft: true,
        fault: false,
        ext: false,
        back,
    }
}

/// A cause is delivered with these registers; nothing where memory holds writes still.
#[tactic(auto, using(fault_delivery::proofs::Attempts::real_ready))]
fn ended_by<L: Linear>(regs: &Regs, lin: &mut L, cause: Cause, code: u16) -> Option<Ending> {
    if lin.room() < ROOM {
        return None;
    }
    let mut regs = Regs { cr0: 0, ..*regs };
    let delivered = deliver(&mut regs, lin, cause);
    Some(Ending {
        vector: cause.vector,
        code,
        delivered,
        regs,
    })
}

/// The delivery of a fault of the instruction at EIP.
pub fn ended_by_fault<L: Linear>(regs: &Regs, lin: &mut L, fault: Fault) -> Option<Ending> {
    ended_by(regs, lin, fault_cause(regs, fault), fault.code)
}

/// The delivery of a software interrupt, which has no error code.
pub fn ended_by_interrupt<L: Linear>(regs: &Regs, lin: &mut L, vector: u8) -> Option<Ending> {
    ended_by(regs, lin, soft_cause(vector, regs.eip), 0)
}
