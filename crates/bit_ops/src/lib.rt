//! Shifts, rotates, double shifts, bit tests and scans.
//!
//! Each call answers the value of its definition in `mdl_num`, and EFLAGS with each status flag
//! by its rule there. Which way an undefined flag goes is not promised. Read `Shifts.antt` of
//! `mdl_num` first.
#![tactic(auto)]

mod bits;
mod rotates;
mod shifts;

pub use bits::{bit_test, scan};
pub use rotates::rotate;
pub use shifts::{double_shift, shift};
