//! Which sector the address registers name, and how they show one.

ghost use Rattle.std.specs.Prelude.{◌≡◌, ◌≤◌, ◌<◌, ◌^◌};
ghost use Rattle.mdl_dev.specs.DiskAddresses.{as_lba, as_chs, is_in_geometry, addressed, shown_as_lba, shown_as_chs, shown};

use crate::registers::bit;
use mdl_dev::disk::{Geometry, LBA_MODE, Registers};

/// The registers as an LBA of 28 bits.
fn as_lba(registers: Registers) -> u32
    ensures { result ≡ as_lba registers }
{
    u32::from(registers.sector)
        + 0x100 * u32::from(registers.cylinder_low)
        + 0x10000 * u32::from(registers.cylinder_high)
        + 0x1000000 * u32::from(registers.head % 16)
}

/// The registers as cylinder, head and sector.
fn as_chs(geometry: Geometry, registers: Registers) -> u32
    requires heads { geometry.heads ≤ 16 }
    requires sector { 1 ≤ registers.sector }
    ensures { result ≡ as_chs geometry registers }
{
    let cylinder = u32::from(registers.cylinder_low) + 0x100 * u32::from(registers.cylinder_high);
    let track = cylinder * u32::from(geometry.heads) + u32::from(registers.head % 16);
    track * u32::from(geometry.sectors) + u32::from(registers.sector) - 1
}

/// Whether the geometry has this head and this sector.
fn is_in_geometry(geometry: Geometry, registers: Registers) -> bool
    ensures { result ≡ is_in_geometry geometry registers }
{
    registers.sector >= 1
        && registers.sector <= geometry.sectors
        && registers.head % 16 < geometry.heads
}

/// The sector that the registers name, of so many.
pub(crate) fn addressed(total: u32, geometry: Geometry, registers: Registers) -> Option<u32>
    requires { geometry.heads ≤ 16 }
    ensures { result ≡ addressed total geometry registers }
{
    let lba = if bit(registers.head, LBA_MODE) {
        as_lba(registers)
    } else if is_in_geometry(geometry, registers) {
        as_chs(geometry, registers)
    } else {
        return None;
    };
    if lba < total { Some(lba) } else { None }
}

/// The registers show a sector by its LBA.
fn shown_as_lba(lba: u32, registers: Registers) -> Registers
    ensures { result ≡ shown_as_lba lba registers }
{
    Registers {
        sector: (lba % 0x100) as u8,
        cylinder_low: (lba / 0x100 % 0x100) as u8,
        cylinder_high: (lba / 0x10000 % 0x100) as u8,
        head: registers.head / 16 * 16 + (lba / 0x1000000 % 16) as u8,
        ..registers
    }
}

/// The registers show a sector by its cylinder, its head and its sector.
fn shown_as_chs(geometry: Geometry, lba: u32, registers: Registers) -> Registers
    requires some_heads { 1 ≤ geometry.heads }
    requires heads { geometry.heads ≤ 16 }
    requires sectors { 1 ≤ geometry.sectors }
    ensures { result ≡ shown_as_chs geometry lba registers }
{
    let sectors = u32::from(geometry.sectors);
    let heads = u32::from(geometry.heads);
    let track = lba / sectors;
    let cylinder = track / heads;
    Registers {
        sector: (lba % sectors + 1) as u8,
        cylinder_low: (cylinder % 0x100) as u8,
        cylinder_high: (cylinder / 0x100 % 0x100) as u8,
        head: registers.head / 16 * 16 + (track % heads) as u8,
        ..registers
    }
}

/// The registers show a sector in the form that they ask for.
#[tactic(auto, unfolding(mdl_dev::specs::DiskAddresses::shown))]
pub(crate) fn shown(geometry: Geometry, lba: u32, registers: Registers) -> Registers
    requires some_heads { 1 ≤ geometry.heads }
    requires heads { geometry.heads ≤ 16 }
    requires sectors { 1 ≤ geometry.sectors }
    ensures { result ≡ shown geometry lba registers }
{
    if bit(registers.head, LBA_MODE) {
        shown_as_lba(lba, registers)
    } else {
        shown_as_chs(geometry, lba, registers)
    }
}
