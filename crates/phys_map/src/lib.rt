//! Physical memory by the memory map: RAM, the screen's memory, the ROM, and nothing else, behind
//! the line A20.
//!
//! The one contract used above: `PhysMap` is a `Phys`, whose bytes are those of the written map. Read
//! `mdl_state/specs/Memory.antt` first.
#![tactic(auto)]

mod bytes;
mod eights;
mod map;
mod numbers;
#[cfg(test)]
mod tests;

pub use map::PhysMap;
