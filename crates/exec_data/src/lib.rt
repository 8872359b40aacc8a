//! The data instructions: moves, extensions, arithmetic, logic, products, quotients, decimal adjusts,
//! shifts, rotates, bits, conditions, far pointers, bounds and segment registers.
//!
//! The one contract used above is `run`: over any memory it does what the written machine says of the
//! instruction. `run_plain` does the same where each operand is a register or a number, and reads no
//! memory. The status flags stand apart from EFLAGS, in a keeper. Read `Whole.antt` of `operands`
//! first, then `DataEffects.antt` of `mdl_effect`.
#![tactic(auto)]

mod addresses;
mod adjusts;
mod arithmetic;
mod bit_strings;
mod bits;
mod bounds;
mod conditions;
mod far_pointers;
mod instructions;
mod kinds;
mod memory_run;
mod moves;
mod pairs;
mod plain;
mod plain_run;
mod products;
mod reads;
mod segments;
mod shifts;

pub use instructions::{run, run_kind};
pub use kinds::{Changes, Comparisons, Conditions, DataKind, Moves, Shifts, Sums};
pub use plain::{is_plain_data, runs_data};
pub use plain_run::run_plain;
