//! The disk's ports, registers and commands, in the words of the ATA standard.

/// The data port, of one, two or four bytes.
pub const DATA_PORT: u16 = 0x1F0;
/// The error register, when read.
pub const ERROR_PORT: u16 = 0x1F1;
/// How many sectors a command is for; 0 means 256.
pub const COUNT_PORT: u16 = 0x1F2;
/// The sector of its track, from 1 on, or bits 7 to 0 of the LBA.
pub const SECTOR_PORT: u16 = 0x1F3;
/// The low byte of the cylinder, or bits 15 to 8 of the LBA.
pub const CYLINDER_LOW_PORT: u16 = 0x1F4;
/// The high byte of the cylinder, or bits 23 to 16 of the LBA.
pub const CYLINDER_HIGH_PORT: u16 = 0x1F5;
/// Drive and head, or bits 27 to 24 of the LBA.
pub const HEAD_PORT: u16 = 0x1F6;
/// Status when read, a command when written.
pub const COMMAND_PORT: u16 = 0x1F7;
/// Status when read, control when written.
pub const CONTROL_PORT: u16 = 0x3F6;

/// Bit of the drive and head register: the address is an LBA.
pub const LBA_MODE: u8 = 6;
/// Bit of the drive and head register: drive 1 is chosen.
pub const DRIVE_ONE: u8 = 4;
/// Bit of the control register: reset.
pub const RESET: u8 = 2;
/// Bit of the control register: no interrupt.
pub const NO_INTERRUPT: u8 = 1;

/// Status: ready.
pub const READY: u8 = 0x50;
/// Status: ready, and data is wanted or offered.
pub const DATA_REQUEST: u8 = 0x58;
/// Status: ready, and the command ended in an error.
pub const FAILED: u8 = 0x51;

/// Error of a command that there is not, or that asks for what can not be.
pub const ABORTED: u8 = 0x04;
/// Error of a sector that there is not.
pub const ID_NOT_FOUND: u8 = 0x10;
/// What the error register has after a diagnosis that found nothing wrong.
pub const NO_FAULT_FOUND: u8 = 0x01;

/// How many bytes a sector has.
pub const SECTOR_BYTES: usize = 512;
/// The largest disk, in bytes.
pub const MOST_BYTES: usize = 0x800_0000;
/// What an open port reads, a byte.
pub const ALL_ONES: u8 = 0xFF;

/// The registers that a guest reads and writes.
#[derive(Clone, Copy, Debug, PartialEq, Eq)]
pub struct Registers {
    pub error: u8,
    pub count: u8,
    pub sector: u8,
    pub cylinder_low: u8,
    pub cylinder_high: u8,
    pub head: u8,
    pub status: u8,
    pub control: u8,
}

/// The shape of the disk that cylinder, head and sector speak of.
#[derive(Clone, Copy, Debug, PartialEq, Eq)]
pub struct Geometry {
    pub heads: u8,
    /// Sectors of a track.
    pub sectors: u8,
}

/// The command in work, if any. The others are done when they are written.
#[derive(Clone, Copy, Debug, PartialEq, Eq)]
pub enum Work {
    Nothing,
    Reading,
    Writing,
    Identifying,
}

/// What is in work: how many sectors are left, with the one in work; where in the block the next
/// byte moves; and the LBA of the sector in work. All are 0 where nothing is in work.
#[derive(Clone, Copy, Debug, PartialEq, Eq)]
pub struct Transfer {
    pub work: Work,
    pub left: u16,
    pub place: u16,
    pub lba: u32,
}

/// The commands that there are.
#[derive(Clone, Copy, Debug, PartialEq, Eq)]
pub enum Command {
    Recalibrate,
    ReadSectors,
    WriteSectors,
    VerifySectors,
    Diagnose,
    InitializeParameters,
    IdentifyDrive,
    FlushCache,
}
