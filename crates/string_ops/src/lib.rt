//! The string instructions, one iteration a call: MOVS, CMPS, STOS, LODS, SCAS, INS and OUTS.
//!
//! The one contract used above is `run`: over any memory and any ports it does what the written
//! machine says of the instruction, of a repeated one up to where an interrupt may come. The status
//! flags stand apart from EFLAGS, in a keeper. Read `StringEffects.antt` of `mdl_effect` first.
#![tactic(auto)]

mod indexes;
mod instructions;
mod iterations;
mod kinds;
mod port_strings;
mod repeats;
mod strings;

pub use instructions::{run, runs_string};
