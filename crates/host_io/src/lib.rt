//! The host of a run: where its images come from and where its outputs go.
//!
//! A run is written over the trait `Host`, whose clauses are the contract used above. `read_all` and
//! `write_all` pass an input and a piece whole, and `MemHost` is a host in memory, whose calls can be
//! made to fail. Read `specs/Slots.antt` first.
#![tactic(auto)]

mod history;
mod host;
mod input;
mod mem_host;
mod output;
mod transfers;

pub use host::{Failed, Host, InSlot, OutSlot, Slot};
pub use mem_host::MemHost;
pub use transfers::{InError, read_all, write_all};

#[cfg(test)]
mod tests;
