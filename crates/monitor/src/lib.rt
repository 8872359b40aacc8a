//! The stepping monitor: its input cut into lines, which command a line asks for, and the answer to each
//! over a machine that can be stepped and looked at.
//!
//! One contract is used above: `converse` answers the lines of an input, each before more of it is read.
//! It stands on `read_line`, by which a line is the command of the grammar, or is refused where no command
//! has that line, and on `answer`, which does what a command asks for and writes its answer. Read
//! `specs/CommandLine.antt` of `mdl_text` first, then `specs/Answers.antt`, `src/target.rt` and
//! `specs/Session.antt`, and `src/line_buffer.rt` for the input in pieces.
#![tactic(auto)]

mod answers;
mod byte_lines;
mod code;
mod code_lines;
mod line_buffer;
mod lines;
mod moves;
mod operands;
mod places;
mod reader;
mod session;
mod stops;
mod target;
#[cfg(test)]
mod tests;
mod texts;

pub use answers::answer;
pub use line_buffer::LineBuffer;
pub use lines::{NotACommand, read_line};
pub use mdl_text::Command;
pub use session::{Broken, MOST_COMMANDS, converse};
pub use stops::Breaks;
pub use target::Target;
