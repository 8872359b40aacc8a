//! The processor over any memory and any ports: a step in every mode.
//!
//! The one contract used above: `Cpu::step` makes a step of the written machine for some choice. Read
//! `mdl_step/specs/Step.antt` first, then `specs/Plain.antt`.
#![tactic(auto)]

mod between;
mod boundary;
mod causes;
mod code;
mod cpu;
mod decoding;
mod dispatch;
mod execute;
mod reset;
mod seen;
mod steps;
#[cfg(test)]
mod tests;
mod usual;

pub use cpu::Cpu;
