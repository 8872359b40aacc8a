//! The walk of the page tables.
//!
//! The one contract used above: `walk` is `walk` of the written machine, over any physical memory.
//! Read `mdl_state/specs/PageWalk.antt` first.
#![tactic(auto)]

mod entry;
mod walking;

pub use walking::walk;
