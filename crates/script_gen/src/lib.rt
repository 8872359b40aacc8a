//! What users write as events, and the guest that a number writes: the script of a run, read from
//! a file, and the demo guest.
//!
//! `read_script` answers with the events of `Script` of `mdl_text`, or with the number of the first
//! bad line; `make_guest` makes the ROM of `Demo`. Read `specs/Script.antt` of `mdl_text` first.
#![tactic(auto)]

mod cuts;
mod draws;
mod events;
mod guest;
mod script;

pub use guest::make_guest;
pub use script::{ScriptError, read_script};

#[cfg(test)]
mod tests;
