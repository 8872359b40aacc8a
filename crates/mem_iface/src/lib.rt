//! Memory and ports as the processor reaches them: the traits that every executing crate stands on.
//!
//! The one contract used above: the clauses of `Linear`, which are those of the written accesses.
//! `Phys` is physical memory, below it; `Ports` is the board. Read `mdl_state/specs/Accesses.antt`
//! first, then `linear.rt`.
#![tactic(auto)]

mod linear;
mod phys;
mod ports;

pub use linear::Linear;
pub use mdl_state::{Access, Next, Place};
pub use phys::{Phys, bytes_of};
pub use ports::{NoPorts, Ports};
