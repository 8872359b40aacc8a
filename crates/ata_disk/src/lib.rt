//! The disk: an ATA drive at ports 1F0h to 1F7h and 3F6h, which answers at once.
//!
//! The one contract used above: `input` and `output` are `disk_input` and `disk_output` of the
//! written disk, a register file and a list of sectors. Read `mdl_dev/specs/Disk.antt` first, then
//! `DiskAddresses`, `DiskTransfer`, `DiskCommands`, `DiskPorts`.
#![tactic(auto)]

mod addresses;
mod block;
mod commands;
mod disk;
mod identify;
mod image;
mod ports;
mod registers;
mod transfer;
mod verify;

pub use disk::Disk;
