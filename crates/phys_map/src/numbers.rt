//! Numbers in physical memory.

ghost use Rattle.std.specs.Prelude.{◌≡◌, ◌+◌, ◌<◌, ◌≤◌};
ghost use Rattle.mdl_state.specs.Bytes.{bytes_of, bound_of};
ghost use Rattle.mdl_state.specs.Accesses.{KeepsPhysical};
ghost use Rattle.mem_iface.specs.Numbers.{loaded, stored, InPage};

use crate::bytes::{CONVENTIONAL_END, gated, is_ram};
use crate::map::PhysMap;
use mdl_state::Size;
use mem_iface::Phys;

impl PhysMap {
    /// A number that lies whole below A0000h. Bit 20 of these addresses is 0, so the line A20 changes
    /// none.
    #[inline(always)]
    #[tactic(auto, using(crate::proofs::InRam::loaded_conventional, crate::proofs::InRam::some_ram))]
    pub fn load_conventional(&self, at: u32, size: Size) -> u32
        requires { at + bytes_of size ≤ 0xA0000 }
        ensures value { result ≡ loaded self.now at size }
        ensures bound { result < bound_of size }
    {
        self.ram.load(at, size)
    }

    /// A number byte by byte.
    #[inline(never)]
    #[tactic(auto, unfolding(mem_iface::specs::Numbers::loaded))]
    fn load_bytes(&self, at: u32, size: Size) -> u32
        requires { InPage at size }
        ensures value { result ≡ loaded self.now at size }
        ensures bound { result < bound_of size }
    {
        let first = u32::from(self.byte(at));
        match size {
            Size::B1 => first,
            Size::B2 => first + 0x100 * u32::from(self.byte(at + 1)),
            Size::B4 => {
                first
                    + 0x100 * u32::from(self.byte(at + 1))
                    + 0x10000 * u32::from(self.byte(at + 2))
                    + 0x1000000 * u32::from(self.byte(at + 3))
            }
        }
    }

    /// A number put byte by byte.
    #[inline(never)]
    #[tactic(auto, unfolding(mem_iface::specs::Numbers::stored))]
    fn store_bytes(&mut self, at: u32, size: Size, value: u32)
        requires page { InPage at size }
        requires bound { value < bound_of size }
        ensures stored { self.new ≡ stored self.old at size value }
        ensures keeps { KeepsPhysical self.old self.new }
    {
        self.place(at, (value % 0x100) as u8);
        match size {
            Size::B1 => {}
            Size::B2 => self.place(at + 1, (value / 0x100 % 0x100) as u8),
            Size::B4 => {
                self.place(at + 1, (value / 0x100 % 0x100) as u8);
                self.place(at + 2, (value / 0x10000 % 0x100) as u8);
                self.place(at + 3, (value / 0x1000000 % 0x100) as u8);
            }
        }
    }
}

impl Phys for PhysMap {
    ghost seen = { λ m. m };

    /// A page that has RAM has nothing else.
    #[inline(always)]
    #[tactic(auto, using(crate::proofs::InRam::loaded_ram, crate::proofs::InRam::ram_fits))]
    fn load(&self, at: u32, size: Size) -> u32 {
        let out = gated(self.a20, at);
        if is_ram(self.ram.size(), out) {
            return self.ram.load(out, size);
        }
        self.load_bytes(at, size)
    }

    /// Most writes are of conventional memory, where the line A20 changes no address.
    #[inline(always)]
    #[tactic(auto, using(crate::proofs::InRam::stored_ram, crate::proofs::InRam::ram_fits, crate::proofs::InRam::stored_sound, crate::proofs::InRam::low_fits, crate::proofs::InRam::low_stored, crate::proofs::InRam::low_sound))]
    fn store(&mut self, at: u32, size: Size, value: u32) {
        if at < CONVENTIONAL_END {
            return self.ram.store(at, size, value);
        }
        let out = gated(self.a20, at);
        if is_ram(self.ram.size(), out) {
            return self.ram.store(out, size, value);
        }
        self.store_bytes(at, size, value);
    }

    fn set_a20(&mut self, on: bool) {
        self.a20 = on;
    }
}
