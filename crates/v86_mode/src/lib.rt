//! What a monitor of V86 guards: the sensitive instructions, and ports by the permission bitmap.
//!
//! The one contract used above: `sensitive` is the written row, and `port_allowed` the written plan,
//! tried over any memory. Read `mdl_cpu/specs/Virtual.antt` first.
#![tactic(auto)]

mod instructions;
mod ports;

pub use instructions::sensitive;
pub use ports::port_allowed;
