//! The keyboard controller with its keyboard, and the screen registers.
//!
//! The one contract used above: each call of `Kbd` and of `Screen` leaves the written state, and
//! answers and tells what is written. `Told` says what a write asks of the board. Read
//! `mdl_dev/specs/Keyboard.antt` first, then `mdl_dev/specs/Screen.antt`.
#![tactic(auto)]

mod commands;
mod keyboard;
mod keyboard_image;
mod screen;

pub use keyboard::Kbd;
pub use mdl_dev::keyboard::Told;
pub use screen::Screen;
