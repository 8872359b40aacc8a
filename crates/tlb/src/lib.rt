//! Memory by linear addresses, over the memory map: translation by a walk at each access, and writes
//! that are held until they are committed.
//!
//! The one contract used above: `Tlb` is a `Linear`. It keeps no page entry: each page of an access
//! is served by a walk, whose entry is dropped at once. Read `mem_iface`'s `Linear` first.
#![tactic(auto)]

mod held;
mod linear;
mod machine;
#[cfg(test)]
mod tests;
mod translation;
mod writes;

pub use machine::Tlb;
