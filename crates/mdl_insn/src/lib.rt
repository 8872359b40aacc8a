//! The instruction and its spelling: which bytes spell which instruction of the 80386.
//!
//! The table of opcode rows stands twice: written in `specs/Rows.antt`, beside the manual's opcode
//! map, and as data in `table.rt`, for the decoder; `tables_hold_the_rows` says that they agree.
//! `spelling_is_a_prefix_code` is the law of the spelling, which the decoder above rests on.
//! `specs/Text.antt` says how an instruction is printed, and `specs/Listing.antt` how bytes are
//! listed. Read `specs/Spelling.antt` first.
#![tactic(auto)]

pub mod fetching;
pub mod instruction;
pub mod law;
pub mod lookups;
pub mod mnemonics;
pub mod rows;
pub mod table;

pub use fetching::Fetch;
pub use instruction::{Insn, Mem, Operand, Rep};
pub use mnemonics::Op;

#[cfg(test)]
mod coverage;
