//! The machine of a session: it runs with the events of a script, and is stepped and looked at.
//!
//! The one contract used above: `Guest` is a `Target` of the monitor, over the machine `Pc`. Read
//! `specs/Played.antt` first.
#![tactic(auto)]

mod guest;
#[cfg(test)]
mod session_tests;
#[cfg(test)]
mod tests;

pub use guest::Guest;
