//! Effective addresses, which accesses a segment allows, numbers in memory, and the stack.
//!
//! The one contract used above: `address` is the written offset of a memory operand, `check`
//! answers the linear address of an access or its fault, and `load`, `store`, `push` and `pop` are
//! the written plans over any memory. Read `mdl_cpu/specs/Access.antt` first, then `Stack.antt`.
#![tactic(auto)]

mod addresses;
mod checks;
mod memory;
mod segments;
mod stack;

pub use addresses::{address, cut};
pub use checks::{check, check_part};
pub use memory::{load, store};
pub use segments::{is_big, is_protected, segment, set_segment, who};
pub use stack::{above_top, pop, push, set_top, stack_size};

#[cfg(test)]
mod tests;
