//! The board: the interrupt controllers, the timer, the keyboard controller, the screen registers
//! and the disk behind their ports, and the lines between them.
//!
//! The one contract used above: `Board` is `Ports` over the written board, and its other calls are
//! the written events. Read `mdl_board/specs/Board.antt` first, then `BytePorts`, `WideAccesses`.
#![tactic(auto)]

mod board;
mod byte_ports;
mod ports;
#[cfg(test)]
mod tests;

pub use board::Board;
