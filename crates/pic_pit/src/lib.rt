//! The interrupt controllers and the timer of the board.
//!
//! The one contract used above: each port access and each call is the definition of the same name.
//! Read `mdl_dev/specs/PicPair.antt` first for the controllers, and `Pit.antt` there for the timer.
#![tactic(auto)]

mod bursts;
mod command_words;
mod control;
mod counter;
mod counts;
mod modes;
mod pic;
mod pic_image;
mod pit;
mod pit_image;
mod priority;

pub use pic::Pic;
pub use pit::Pit;
