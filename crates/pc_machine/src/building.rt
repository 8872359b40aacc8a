//! The machine at power on, of the images of a ROM and a disk.

ghost use Rattle.std.specs.Prelude.{◌≡◌, ◌≤◌, ◌<◌, ◌^◌, ◌*◌, ◌↔◌, length, IsTrue, IfOk, IfErr, OnOk};
ghost use Rattle.mdl_state.specs.Boot.{empty_ram};
ghost use Rattle.mdl_state.specs.Memory.{IsRomLength};
ghost use Rattle.mdl_dev.specs.Disk.{IsDiskLength};
ghost use Rattle.mdl_step.specs.Computer.{powered};
ghost use Rattle.phys_map.specs.Sound.{IsBlank};
ghost use Rattle.pc_machine.specs.Builds.{IsRefused};

use crate::pc::Pc;
use board::Board;
use cpu_core::Cpu;
use guest_ram::Ram;
use mdl_dev::disk::{MOST_BYTES, SECTOR_BYTES};
use phys_map::PhysMap;
use std::alloc::{AllocError, Global};
use tlb::Tlb;

/// The bytes of a mebibyte.
const MEBIBYTE: u32 = 0x100000;

/// The bytes of a page, of which a ROM has a whole number.
const PAGE: usize = 0x1000;

/// The most bytes of a ROM.
const MOST_ROM: usize = 0x40000;

/// Why no machine is made.
#[derive(Clone, Copy, Debug, PartialEq, Eq)]
pub enum BuildError {
    /// Memory is wanting.
    Memory,
    /// The ROM has so many bytes.
    RomLength(u32),
    /// The disk has so many bytes.
    DiskLength(u32),
}

/// Whether a ROM may have so many bytes.
fn is_rom_length(bytes: usize) -> bool
    ensures { IsTrue result ↔ IsRomLength bytes }
{
    bytes >= PAGE && bytes <= MOST_ROM && bytes % PAGE == 0
}

/// Whether a disk may have so many bytes.
fn is_disk_length(bytes: usize) -> bool
    ensures { IsTrue result ↔ IsDiskLength bytes }
{
    bytes <= MOST_BYTES && bytes % SECTOR_BYTES == 0
}

/// RAM of so many mebibytes, all zero.
#[tactic(auto, using(phys_map::specs::SoundLaws::zeros_blank), unfolding(mdl_state::specs::Boot::empty_ram))]
fn empty_ram(alloc: Global, mebibytes: u8) -> Result<Ram, AllocError>
    requires least { 1 ≤ mebibytes }
    requires most { mebibytes ≤ 64 }
    ensures zero { IfOk result (λ ram. ram ≡ empty_ram mebibytes) }
    ensures length { IfOk result (λ ram. length ram ≡ mebibytes * 0x100000) }
    ensures blank { IfOk result (λ ram. IsBlank ram) }
{
    let ram = Ram::new(alloc, u32::from(mebibytes) * MEBIBYTE)?;
    Ok(ram)
}

impl Pc {
    /// The machine at power on. Both lengths are looked at before any memory is taken, that of the ROM
    /// first; where one is wrong, the images are dropped.
    pub fn new(alloc: Global, ram_mib: u8, rom: Vec<u8>, disk: Vec<u8>) -> Result<Pc, BuildError>
        requires least { 1 ≤ ram_mib }
        requires most { ram_mib ≤ 64 }
        requires rom { length rom.items < 2 ^ 32 }
        requires disk { length disk.items < 2 ^ 32 }
        ensures machine { IfOk result (λ pc. pc ≡ powered ram_mib rom.items disk.items) }
        ensures lengths { OnOk result (IsRomLength (length rom.items) × IsDiskLength (length disk.items)) }
        ensures refused { IfErr result (λ error. IsRefused error (length rom.items) (length disk.items)) }
    {
        if !is_rom_length(rom.len()) {
            return Err(BuildError::RomLength(rom.len() as u32));
        }
        if !is_disk_length(disk.len()) {
            return Err(BuildError::DiskLength(disk.len() as u32));
        }
        let Ok(ram) = empty_ram(alloc, ram_mib) else {
            return Err(BuildError::Memory);
        };
        let memory = Tlb::new(PhysMap::new(ram, rom));
        Ok(Pc {
            cpu: Cpu::new(memory, Board::new(disk)),
        })
    }
}
