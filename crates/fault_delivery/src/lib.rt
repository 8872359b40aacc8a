//! The delivery of exceptions and interrupts, in every mode.
//!
//! The one contract used above: `deliver` is the written delivery, with those of the faults that arise
//! on the way, all of it committed. Read `mdl_cpu/specs/TaskDeliveries.antt` first, then `Delivery.antt`
//! and `DoubleFault.antt`.
#![tactic(auto)]

mod combining;
mod deliveries;
mod laws;

pub use combining::{fault_cause, note_address};
pub use deliveries::{Delivered, deliver};
pub use laws::{
    a_delivery_is_some_choice, a_refused_gate_leaves_memory, no_delivery_needs_a_fifth,
};
pub use mdl_cpu::Cause;

#[cfg(test)]
mod tests;
