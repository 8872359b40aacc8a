//! What the program prints: the report of a machine, and the listing of bytes, each written line by line to
//! the slot `Report` of a host; and texts and numbers in fixed room.
//!
//! A machine is shown by its reading calls alone, the trait `Shown`. `write_report` writes the report of
//! `report_text`, and `write_listing` a listing of `IsListing`. Read `specs/Report.antt` first.
#![tactic(auto)]

mod listing;
mod report;
mod shown;
mod texts;

pub use listing::{Line, line_with, write_listing};
pub use report::{SCREEN_ROOM, register_lines, screen_lines, write_report};
pub use shown::Shown;
pub use texts::{ROOM, push_byte, push_decimal, push_hex, push_text};
