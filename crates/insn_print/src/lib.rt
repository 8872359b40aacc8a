//! The printed instruction.
//!
//! `print` answers the text of an instruction that some bytes spell, as `Text.antt` of `mdl_insn`
//! says it. Read that file first.
#![tactic(auto)]

mod memory;
mod mnemonics;
mod numbers;
mod operands;
mod prefixes;
mod printing;
mod registers;

pub use printing::print;
