//! The whole machine: the processor over its memory and the board, its events, and runs.
//!
//! The one contract used above: `Pc` is seen as the written machine with its board; `Pc::run` is a
//! run of it. Read `mdl_step/specs/Computer.antt` first, then `specs/Runs.antt`.
#![tactic(auto)]

mod building;
mod laws;
mod looking;
mod pc;
mod running;
#[cfg(test)]
mod tests;

pub use building::BuildError;
pub use laws::{a_run_goes_on_with_the_rest_of_the_events, a_run_may_be_cut_anywhere};
pub use pc::Pc;
