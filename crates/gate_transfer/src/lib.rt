//! Far transfers, far returns, and the way of an interrupt or exception to its handler, in every mode.
//!
//! The one contract used above: `call_far`, `jump_far`, `return_far`, `interrupt_return` and
//! `through_gate` are the written plans over any memory, all of their writes held. Read
//! `mdl_cpu/specs/Transfers.antt` first, then `GateDescriptors`, `InnerStacks`, `Returns`, `Gates` and
//! `InterruptGates`.
#![tactic(auto)]

mod calls;
mod code;
mod gate_descriptors;
mod gates;
mod interrupt_gates;
mod interrupt_returns;
mod jumps;
mod returns;
mod stacks;

pub use calls::call_far;
pub use gates::{extended, saved_eip, through_gate};
pub use interrupt_returns::interrupt_return;
pub use jumps::jump_far;
pub use mdl_cpu::{Cause, Outcome};
pub use returns::return_far;
