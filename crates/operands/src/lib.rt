//! Registers and operands, numbers in memory, the stack, conditions, and the flags that stand apart.
//!
//! The executing crates stand on it. Each call is a plan of the written machine, tried over any
//! memory, on the registers with the status flags packed into EFLAGS, whatever those are. Read
//! `specs/Whole.antt` first, then `Operands.antt` of `mdl_effect` and `Stack.antt` of `mdl_cpu`.
#![tactic(auto)]

mod conditions;
mod counts;
mod faults;
mod flags;
mod memory;
mod memory_operands;
mod plain;
mod registers;
mod stack;

pub use conditions::condition;
pub use counts::{address_size, count_down, count_of};
pub use faults::{general_protection, no_such};
pub use flags::{DF, keep};
pub use memory::{load, load_part, open_at, store};
pub use memory_operands::{offset, open, read, read_sized, write};
pub use plain::{is_nothing, is_plain, narrow_value, own_size, set, size_of, value};
pub use registers::{
    ACCUMULATOR, AH, BASE, COUNT, DATA, DESTINATION, FRAME, SOURCE, STACK, reg, set_reg,
};
pub use seg_unit::cut;
pub use stack::{above_top, below_top, pop, push, set_top, stack_size, stack_top};
