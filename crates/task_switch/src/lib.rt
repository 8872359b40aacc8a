//! Task switches, to a TSS of the 80386 or of the 80286.
//!
//! The one contract used above: `switch` is the written switch, over any memory, and a fault of it is
//! one of the old task, with nothing changed, or one of the new task, with the old one saved. Read
//! `mdl_cpu/specs/Switch.antt` first, then `OldTask.antt` and `NewTask.antt`.
#![tactic(auto)]

mod busy_bits;
mod first_registers;
mod images;
mod kinds;
mod new_task;
mod old_task;
mod switches;

pub use mdl_cpu::{Reason, Request, Switched};
pub use switches::switch;
