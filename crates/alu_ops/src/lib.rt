//! Sums, differences, logic, products, quotients and decimal adjustments.
//!
//! Each call answers the value of its definition in `mdl_num`, and EFLAGS with each status flag
//! by its rule there. Which way an undefined flag goes is not promised. Read `Sums.antt` of
//! `mdl_num` first.
#![tactic(auto)]

mod decimal;
mod products;
mod sums;

pub use decimal::{aaa, aad, aam, aas, daa, das};
pub use products::{div, idiv, imul, mul};
pub use sums::{add, bitwise, dec, difference, inc, logic, neg, sub, sum};
