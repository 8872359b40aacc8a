//! The chips of the board as they are written down: plain types here, and in `specs/` the state of
//! each chip, and what each port access and each call does with it.
//!
//! The one contract used above is the definitions themselves. Each chip has files of its own, after
//! its name: read `specs/Pic.antt` first for the interrupt controllers, `Counter` for the timer,
//! `Keyboard`, `Screen`, and `Disk`.
#![tactic(auto)]

pub mod disk;
pub mod keyboard;
pub mod pic;
pub mod pit;
pub mod screen;
