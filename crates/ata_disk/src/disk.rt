//! The disk, what always holds of it, and its bytes.

ghost use Rattle.std.specs.Prelude.{◌≡◌, ◌<◌, not, length, slice_index};
ghost use Rattle.mdl_state.specs.Bytes.{bit};
ghost use Rattle.mdl_dev.specs.Disk.{DiskState, IsDiskLength, disk_at_boot, answers};
ghost use Rattle.mdl_dev.specs.DiskImage.{sectors_of, disk_bytes};
ghost use Rattle.mdl_dev.specs.DiskTransfer.{disk_byte};
ghost use Rattle.ata_disk.specs.Sound.{IsSound};

use crate::registers::{bit, signature};
use mdl_dev::disk::{
    DRIVE_ONE, Geometry, NO_INTERRUPT, READY, Registers, SECTOR_BYTES, Transfer, Work,
};
use std::marker::Model;

/// The disk, seen as a register file and a list of sectors.
#[derive(Drop)]
pub struct Disk {
    pub(crate) registers: Registers,
    pub(crate) geometry: Geometry,
    pub(crate) transfer: Transfer,
    pub(crate) block: [u8; SECTOR_BYTES],
    pub(crate) bytes: Vec<u8>,
}

impl Model for Disk {
    ghost use Rattle.std.specs.Prelude.{◌≡◌, length};
    ghost use Rattle.mdl_dev.specs.Disk.{DiskState, IsDiskLength};
    ghost use Rattle.mdl_dev.specs.DiskImage.{sectors_of};
    ghost use Rattle.ata_disk.specs.Sound.{seen, IsSound};

    ghost Value = { DiskState };

    ghost view = { λ d. seen d.registers d.geometry d.transfer d.block d.bytes.items };

    ghost invariant = { λ d. IsSound d.geometry d.transfer d.bytes.items };
}

/// Nothing in work.
pub(crate) const IDLE: Transfer = Transfer {
    work: Work::Nothing,
    left: 0,
    place: 0,
    lba: 0,
};

/// The geometry that no command has set.
const GEOMETRY: Geometry = Geometry {
    heads: 16,
    sectors: 63,
};

impl Disk {
    /// A disk of these bytes, as it is when the machine is switched on. No bytes are no drive.
    pub fn new(bytes: Vec<u8>) -> Disk
        requires { IsDiskLength (length bytes.items) }
        ensures { result ≡ disk_at_boot (sectors_of bytes.items) }
    {
        Disk {
            registers: signature(READY, 0),
            geometry: GEOMETRY,
            transfer: IDLE,
            block: [0; SECTOR_BYTES],
            bytes,
        }
    }

    /// The disk is switched on again: it is as at first, with the sectors that it has now.
    pub fn reset(&mut self)
        ensures { self.new ≡ disk_at_boot self.old.sectors }
    {
        self.registers = signature(READY, 0);
        self.geometry = GEOMETRY;
        self.transfer = IDLE;
        self.block = [0; SECTOR_BYTES];
    }

    /// How many sectors it has.
    #[tactic(auto, using(crate::proofs::Sectors::sector_laws))]
    pub fn total(&self) -> u32
        ensures { result ≡ length self.now.sectors }
    {
        (self.bytes.len() / SECTOR_BYTES) as u32
    }

    /// How many bytes it has.
    #[tactic(auto, using(crate::proofs::Sectors::sectors_joined))]
    pub fn len(&self) -> u32
        ensures { result ≡ length (disk_bytes self.now) }
    {
        self.bytes.len() as u32
    }

    /// The byte at a place of the disk, counted from its first sector's first byte.
    #[tactic(auto, using(crate::proofs::Sectors::sector_laws, crate::proofs::Sectors::sectors_joined))]
    pub fn byte(&self, at: u32) -> u8
        requires { at < length (disk_bytes self.now) }
        ensures value { result ≡ disk_byte self.now at }
        ensures joined { result ≡ slice_index (disk_bytes self.now) at }
    {
        self.bytes[at as usize]
    }

    /// Whether there is a drive and it is the one chosen.
    pub(crate) fn answers(&self) -> bool
        ensures { result ≡ answers self.now }
    {
        self.total() > 0 && !bit(self.registers.head, DRIVE_ONE)
    }

    /// Whether an interrupt is raised where one is due.
    pub(crate) fn may_raise(&self) -> bool
        ensures { result ≡ not (bit self.now.registers.control NO_INTERRUPT) }
    {
        !bit(self.registers.control, NO_INTERRUPT)
    }
}
