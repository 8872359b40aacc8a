//! Arithmetic and flags as whole numbers: what each operation answers, and what becomes of each
//! status flag.
//!
//! `specs/Flags.antt` says how the rules of the six flags make the next EFLAGS; `specs/Sums.antt`
//! and its neighbours give the value and the rules of each operation. The crates that compute
//! stand on `settle`, the one function that puts flags in place. Read `specs/Flags.antt` first.
#![tactic(auto)]

mod results;
mod sizes;
mod status;

pub use results::{Alu, BitOp, DivideError, LogicOp, RotateOp, ShiftOp, Wide};
pub use sizes::{bits, bound, fits, half, low, signed, word};
pub use status::{
    AF, CF, Flag, OF, PF, SF, Status, ZF, bit, is_even_parity, of_result, settle, untouched,
    with_bit,
};
