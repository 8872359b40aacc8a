//! What a memory map has, and what always holds of it.

ghost use Rattle.std.specs.Prelude.{◌≡◌, ◌<◌, length, slice_index, true};
ghost use Rattle.mdl_state.specs.Memory.{IsRamLength, IsRomLength};
ghost use Rattle.phys_map.specs.Sound.{IsBlank, IsSound};

use guest_ram::Ram;
use mdl_state::Size;
use std::marker::Model;

/// RAM and ROM behind the line A20, seen as physical memory.
#[derive(Drop)]
pub struct PhysMap {
    pub(crate) ram: Ram,
    pub(crate) rom: Vec<u8>,
    pub(crate) a20: bool,
}

impl Model for PhysMap {
    ghost use Rattle.mdl_state.specs.State.{Physical};
    ghost use Rattle.mdl_state.specs.Codes.{physical_code};
    ghost use Rattle.phys_map.specs.Sound.{IsSound};

    ghost Value = { Physical };

    ghost coded = { physical_code };

    ghost view = { λ m. record { ram = m.ram; rom = m.rom.items; a20 = m.a20 } };

    ghost invariant = { λ m. IsSound (record { ram = m.ram; rom = m.rom.items; a20 = m.a20 }) };
}

impl PhysMap {
    /// A map of these, with the line A20 on. RAM is blank where it is new.
    pub fn new(ram: Ram, rom: Vec<u8>) -> PhysMap
        requires ram { IsRamLength (length ram) }
        requires rom { IsRomLength (length rom.items) }
        requires blank { IsBlank ram }
        ensures { result ≡ record { ram = ram; rom = rom.items; a20 = true } }
    {
        PhysMap {
            ram,
            rom,
            a20: true,
        }
    }

    /// What always holds.
    pub fn sound(&self)
        ensures { IsSound self.now }
    {
        let _ = &self.ram;
    }

    /// How many bytes of RAM there are.
    pub fn ram_len(&self) -> u32
        ensures { result ≡ length self.now.ram }
    {
        self.ram.size()
    }

    /// The byte at a place of the list of RAM, whatever the line A20 is.
    pub fn ram_byte(&self, at: u32) -> u8
        requires { at < length self.now.ram }
        ensures { result ≡ slice_index self.now.ram at }
    {
        self.ram.load(at, Size::B1) as u8
    }
}
