//! The status flags, kept apart from EFLAGS.
//!
//! `Flags` is told the last operation and its numbers, keeps them, and works out a flag where it is
//! asked for, or packs all six into EFLAGS, as that operation's own rules say. Contracts see a
//! `Flags` as a number that has the status flags at their places, and above them which operation
//! left them. Read `specs/Keeper.antt` first.
#![tactic(auto)]

mod keeper;
mod operation;

pub use keeper::Flags;
pub use operation::FlagOp;
