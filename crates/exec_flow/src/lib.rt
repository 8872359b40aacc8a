//! Near jumps, calls and loops, the stack, and the flags by themselves.
//!
//! The one contract used above is `run`: over any memory it does what the written machine says of
//! the instruction. `runs_flow` tells which instructions these are. Read `FlowEffects.antt` and
//! `StackEffects.antt` of `mdl_step` first.
#![tactic(auto)]

mod calls;
mod flags;
mod frames;
mod instructions;
mod jumps;
mod kinds;
mod loops;
mod pops;
mod pushes;

pub use instructions::{run, run_kind, runs_flow};
pub use kinds::{Calls, Conditions, FlowKind, Jumps, Returns};
