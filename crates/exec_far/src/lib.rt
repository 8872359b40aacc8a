//! Far flow: CALL and JMP to a selector and an offset, RETF and IRET, in every mode.
//!
//! The one contract used above is `run`: over any memory it does what the written machine says of
//! the instruction, with the switch to the task that it leads to. `runs_far` tells which instructions
//! these are. Read `FarEffects.antt` of `mdl_effect` first.
#![tactic(auto)]

mod instructions;
mod pointers;
mod tasks;

pub use instructions::{run, runs_far};
