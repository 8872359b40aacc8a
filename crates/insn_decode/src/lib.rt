//! The decoder: from bytes to the instruction that they spell.
//!
//! `decode_into` writes the instruction in place, `decode` and `decode_slice` hand it back. Each says
//! in its own clauses when it answers what, by `Spelt` and `Begun` of `mdl_insn`.
//! Read `specs/Decoded.antt` first.
#![tactic(auto)]

pub mod addresses;
pub mod bytes;
pub mod decoding;
mod frequent;
mod given;
pub mod legality;
pub mod operands;
pub mod prefixes;
mod readers;
pub mod refusals;
pub mod rows;
mod shapes;
pub mod slice;
mod told;

pub use decoding::{blank, decode, decode_into};
pub use frequent::decode_frequent;
pub use given::{Plain16, Plain32, Prefixes};
pub use refusals::{SliceError, Undecoded};
pub use slice::decode_slice;
