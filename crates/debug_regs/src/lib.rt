//! The debug registers: which breakpoints an instruction or an access meets, and memory beside which
//! the data breakpoints are looked for.
//!
//! The one contract used above: `Watched` is a `Linear`, seen as the memory within beside the
//! breakpoints that are looked for and the bits that were met. Read
//! `crates/mdl_cpu/specs/Breakpoints.antt` first, then `crates/mdl_state/specs/Watches.antt`.
#![tactic(auto)]

mod breakpoints;
mod laws;
mod meeting;
#[cfg(test)]
mod tests;
mod watched;

pub use breakpoints::{Watches, access_hit, data_breakpoints, execute_hit, is_any_enabled};
pub use laws::an_overlap_is_a_byte_in_common;
pub use watched::Watched;
