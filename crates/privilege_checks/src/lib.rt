//! What a program may see of a segment, and what its level allows: LAR, LSL, VERR, VERW, ARPL, IOPL.
//!
//! The one contract used above: each call is its written plan, tried over any memory, or the written
//! answer. Read `mdl_cpu/specs/Visibility.antt` first.
#![tactic(auto)]

mod levels;
mod visibility;

pub use levels::{arpl, io_level, iopl_allows};
pub use visibility::{lar, lsl, verr, verw};
