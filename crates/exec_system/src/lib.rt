//! The instructions of the system: software interrupts, the flags as a whole, ports, the registers of
//! the descriptor tables, control and debug registers, the coprocessor's bits, and those that only
//! protected mode has. In each mode they ask for the privilege that the manual says.
//!
//! The one contract used above is `run`: over any memory and any board it does what the written
//! machine says of the instruction. `runs_system` tells which instructions these are. Read
//! `SystemEffects.antt` of `mdl_effect` first.
#![tactic(auto)]

mod control;
mod coprocessor;
mod debug;
mod flags;
mod instructions;
mod interrupts;
mod ports;
mod protection;
mod registers;
mod status_word;
mod tables;
mod words;

pub use instructions::{run, runs_system};
