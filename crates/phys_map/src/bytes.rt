//! The byte at a physical address.

ghost use Rattle.std.specs.Prelude.{◌≡◌, ◌≤◌, length};
ghost use Rattle.mdl_state.specs.Memory.{gated, byte_at, placed, is_ram, from_end};
ghost use Rattle.mdl_state.specs.Accesses.{KeepsPhysical};
ghost use Rattle.phys_map.specs.Rom.{rom_back};

use crate::map::PhysMap;
use mdl_state::{SCREEN_BASE, Size};

/// Where conventional memory ends.
pub(crate) const CONVENTIONAL_END: u32 = 0xA0000;

/// Where the screen memory ends.
const SCREEN_END: u32 = 0xC0000;

/// Where the first megabyte ends. It is also bit 20 of an address.
pub(crate) const MEGABYTE: u32 = 0x100000;

/// How much of the ROM's end is seen below the first megabyte's end.
pub(crate) const LOW_ROM: usize = 0x20000;

/// The number of physical addresses.
const ADDRESSES: usize = 1 << 32;

/// What reads where there is nothing.
const OPEN_BUS: u8 = 0xFF;

/// An address behind the line A20.
pub(crate) fn gated(a20: bool, at: u32) -> u32
    ensures { result ≡ gated a20 at }
{
    if a20 {
        at
    } else {
        at - MEGABYTE * (at / MEGABYTE % 2)
    }
}

/// Whether an address is in RAM of this size.
pub(crate) fn is_ram(size: u32, at: u32) -> bool
    ensures { result ≡ is_ram size at }
{
    if at < CONVENTIONAL_END {
        return true;
    }
    at >= SCREEN_BASE && at < SCREEN_END || at >= MEGABYTE && at < size
}

/// The byte that stands so many bytes before the end.
fn from_end(bytes: &[u8], back: usize) -> u8
    requires some { 1 ≤ back }
    requires within { back ≤ length bytes.now }
    ensures { result ≡ from_end bytes.now back }
{
    bytes[bytes.len() - back]
}

/// How many bytes before the ROM's end an address stands, where the ROM is there. No RAM is.
pub(crate) fn rom_back(rom: &[u8], at: u32) -> Option<usize>
    ensures { result ≡ rom_back rom.now at }
{
    let low = rom.len().min(LOW_ROM);
    if at < MEGABYTE && at as usize >= MEGABYTE as usize - low {
        return Some((MEGABYTE - at) as usize);
    }
    let back = ADDRESSES - at as usize;
    if back <= rom.len() {
        return Some(back);
    }
    None
}

impl PhysMap {
    /// The address that leaves the processor.
    pub fn gated(&self, at: u32) -> u32
        ensures { result ≡ gated self.now.a20 at }
    {
        gated(self.a20, at)
    }

    /// The byte at a physical address.
    #[tactic(auto, unfolding(mdl_state::specs::Memory::byte_at))]
    pub fn byte(&self, at: u32) -> u8
        ensures { result ≡ byte_at self.now at }
    {
        let at = gated(self.a20, at);
        if is_ram(self.ram.size(), at) {
            return self.ram.load(at, Size::B1) as u8;
        }
        match rom_back(&self.rom, at) {
            Some(back) => from_end(&self.rom, back),
            None => OPEN_BUS,
        }
    }

    /// Puts a byte at a physical address.
    #[tactic(auto, unfolding(mdl_state::specs::Memory::placed), using(crate::specs::SoundLaws::set_blank))]
    pub(crate) fn place(&mut self, at: u32, byte: u8)
        ensures placed { self.new ≡ placed self.old at byte }
        ensures keeps { KeepsPhysical self.old self.new }
    {
        let at = gated(self.a20, at);
        if is_ram(self.ram.size(), at) {
            self.ram.store(at, Size::B1, u32::from(byte));
        }
    }
}
