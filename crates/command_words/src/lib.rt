//! The words of the command line, read by one `clap` command for each first word.
//!
//! The one contract used above is that of `read_words`. Read `specs/Jobs.antt` for what the words ask
//! for, and `specs/Commands.antt` for the commands with their arguments, ranges and defaults.
#![tactic(auto)]

mod arguments;
mod commands;
mod jobs;
mod values;
mod words;

pub use jobs::{DisJob, Job, Machine, Refused, RunJob};
pub use words::read_words;

#[cfg(test)]
mod tests;
