//! Eight bytes of physical memory at once, as one number, little endian.

ghost use Rattle.std.specs.Prelude.{◌≡◌, ℕ, ◌+◌, ◌/◌, ◌%◌, ◌^◌, ◌<◌, ◌≤◌, length, slice_index, IfSome};
ghost use Rattle.mdl_state.specs.Memory.{byte_at};

use crate::bytes::{LOW_ROM, MEGABYTE, gated, is_ram, rom_back};
use crate::map::PhysMap;

/// The size of a page.
const PAGE: u32 = 0x1000;

/// The last place in a page at which eight bytes lie whole.
const LAST_WHOLE: u32 = PAGE - 8;

/// The last address at which eight bytes lie below 1 MiB.
const LAST_LOW: u32 = MEGABYTE - 8;

/// The eight bytes from a place of a list on.
#[tactic(auto, using(guest_ram::proofs::Eight::byte_of_eight))]
fn eight_at(bytes: &[u8], at: usize) -> u64
    requires { at + 8 ≤ length bytes.now }
    ensures { (i : ℕ) → i < 8 → slice_index bytes.now (at + i) ≡ result / 256 ^ i % 256 }
{
    u64::from_le_bytes([
        bytes[at],
        bytes[at + 1],
        bytes[at + 2],
        bytes[at + 3],
        bytes[at + 4],
        bytes[at + 5],
        bytes[at + 6],
        bytes[at + 7],
    ])
}

impl PhysMap {
    /// The eight bytes from an address below A0000h on. Bit 20 of these addresses is 0, so the line
    /// A20 changes none.
    #[tactic(auto, using(crate::proofs::InRam::conventional, crate::proofs::InRam::some_ram))]
    pub fn load_eight(&self, at: u32) -> u64
        requires { at + 8 ≤ 0xA0000 }
        ensures { (i : ℕ) → i < 8 → byte_at self.now (at + i) ≡ result / 256 ^ i % 256 }
    {
        self.ram.load_eight(at)
    }

    /// The eight bytes from an address on, where they are of the ROM below 1 MiB, or of one page of RAM or
    /// of the ROM. Boot code runs below 1 MiB, so that comes first and in line. Bit 20 of these addresses is
    /// 0, so the line A20 changes none.
    #[inline(always)]
    #[tactic(auto, using(crate::proofs::InRom::low_rom))]
    pub fn eight_in_page(&self, at: u32) -> Option<u64>
        ensures within { IfSome result (λ word. at + 8 ≤ 2 ^ 32) }
        ensures bytes { IfSome result (λ word. (i : ℕ) → i < 8 → byte_at self.now (at + i) ≡ word / 256 ^ i % 256) }
    {
        if at <= LAST_LOW {
            let rom = self.rom.as_slice();
            let back = (MEGABYTE - at) as usize;
            if back <= LOW_ROM && back <= rom.len() {
                return Some(eight_at(rom, rom.len() - back));
            }
        }
        self.eight_far(at)
    }

    /// The same of one page, wherever it lies. A page that has RAM or the ROM has nothing else.
    #[inline(never)]
    #[tactic(auto, using(crate::proofs::InRam::byte_ram, crate::proofs::InRam::fits, crate::proofs::InRom::rom_fits))]
    fn eight_far(&self, at: u32) -> Option<u64>
        ensures within { IfSome result (λ word. at + 8 ≤ 2 ^ 32) }
        ensures bytes { IfSome result (λ word. (i : ℕ) → i < 8 → byte_at self.now (at + i) ≡ word / 256 ^ i % 256) }
    {
        if at % PAGE > LAST_WHOLE {
            return None;
        }
        let out = gated(self.a20, at);
        if is_ram(self.ram.size(), out) {
            return Some(self.ram.load_eight(out));
        }
        let rom = self.rom.as_slice();
        match rom_back(rom, out) {
            Some(back) => Some(eight_at(rom, rom.len() - back)),
            None => None,
        }
    }
}
