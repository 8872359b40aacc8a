//! A write that is held.

ghost use Rattle.std.specs.Prelude.{◌≡◌, ◌<◌, ◌^◌, ◌==◌, if◌then◌else◌};
ghost use Rattle.std.specs.List.{All};
ghost use Rattle.mdl_state.specs.Memory.{gated, placed};
ghost use Rattle.mdl_state.specs.Accesses.{KeepsPhysical, byte_place, newest, held_bytes, all_placed};
ghost use Rattle.tlb.specs.Held.{place_of, write_bytes, bytes_held, IsHeldWrite};

use mdl_state::{Place, Size};
use mem_iface::{Phys, bytes_of};
use phys_map::PhysMap;

/// A write: where, of which size, and what. Its place is spread over it, so that nothing lies between.
#[derive(Clone, Copy)]
pub(crate) struct HeldWrite {
    first: u32,
    second: u32,
    value: u32,
    cut: u8,
    size: Size,
}

impl Default for HeldWrite {
    /// One byte, so that it is not all zeros: one of these is stored faster than a call clears it.
    fn default() -> HeldWrite {
        HeldWrite {
            first: 0,
            second: 0,
            value: 0,
            cut: 1,
            size: Size::B1,
        }
    }
}

/// The address of byte n of a place.
pub(crate) fn byte_place(place: Place, n: u32) -> u32
    requires { byte_place place n < 2 ^ 32 }
    ensures { result ≡ byte_place place n }
{
    let cut = u32::from(place.cut);
    if n < cut {
        place.first + n
    } else {
        place.second + (n - cut)
    }
}

#[tactic(auto, unfolding(mem_iface::specs::Numbers::stored))]
fn put_byte(phys: &mut PhysMap, at: u32, byte: u32)
    requires { byte < 0x100 }
    ensures placed { phys.new ≡ placed phys.old at byte }
    ensures keeps { KeepsPhysical phys.old phys.new }
{
    phys.store(at, Size::B1, byte);
}

/// A byte held for an address, where that is the one asked for, or else what was seen before.
fn newer(phys: &PhysMap, at: u32, byte: u32, out: u32, here: u8) -> u8
    requires { byte < 0x100 }
    ensures { result ≡ (if gated phys.now.a20 at == out then byte else here) }
{
    if phys.gated(at) == out {
        byte as u8
    } else {
        here
    }
}

impl HeldWrite {
    pub(crate) fn new(place: Place, size: Size, value: u32) -> HeldWrite
        ensures { result ≡ record { first = place.first; second = place.second; value = value; cut = place.cut; size = size } }
    {
        HeldWrite {
            first: place.first,
            second: place.second,
            value,
            cut: place.cut,
            size,
        }
    }

    /// Where it goes.
    fn place(&self) -> Place
        ensures { result ≡ place_of self.now }
    {
        Place {
            first: self.first,
            second: self.second,
            cut: self.cut,
        }
    }

    /// What is seen at an address that leaves the processor, where this was seen before the write.
    #[tactic(auto, unfolding(mdl_state::specs::Accesses::held_bytes))]
    pub(crate) fn newest(&self, phys: &PhysMap, out: u32, here: u8) -> u8
        requires { IsHeldWrite self.now }
        ensures { result ≡ newest phys.now.a20 (write_bytes self.now) out here }
    {
        let place = self.place();
        let first = newer(phys, byte_place(place, 0), self.value % 0x100, out, here);
        if self.size == Size::B1 {
            return first;
        }
        let second = newer(
            phys,
            byte_place(place, 1),
            self.value / 0x100 % 0x100,
            out,
            first,
        );
        if self.size == Size::B2 {
            return second;
        }
        let third = newer(
            phys,
            byte_place(place, 2),
            self.value / 0x10000 % 0x100,
            out,
            second,
        );
        newer(
            phys,
            byte_place(place, 3),
            self.value / 0x1000000 % 0x100,
            out,
            third,
        )
    }

    /// The write placed.
    #[tactic(auto, using(crate::proofs::Holding::whole_placed))]
    pub(crate) fn put(&self, phys: &mut PhysMap)
        requires { IsHeldWrite self.now }
        ensures placed { phys.new ≡ all_placed phys.old (write_bytes self.now) }
        ensures keeps { KeepsPhysical phys.old phys.new }
    {
        if u32::from(self.cut) == bytes_of(self.size) {
            return phys.store(self.first, self.size, self.value);
        }
        self.put_bytes(phys);
    }

    /// The write placed byte by byte.
    #[inline(never)]
    #[tactic(auto, unfolding(mdl_state::specs::Accesses::held_bytes))]
    fn put_bytes(&self, phys: &mut PhysMap)
        requires { IsHeldWrite self.now }
        ensures placed { phys.new ≡ all_placed phys.old (write_bytes self.now) }
        ensures keeps { KeepsPhysical phys.old phys.new }
    {
        let place = self.place();
        put_byte(phys, byte_place(place, 0), self.value % 0x100);
        match self.size {
            Size::B1 => {}
            Size::B2 => put_byte(phys, byte_place(place, 1), self.value / 0x100 % 0x100),
            Size::B4 => {
                put_byte(phys, byte_place(place, 1), self.value / 0x100 % 0x100);
                put_byte(phys, byte_place(place, 2), self.value / 0x10000 % 0x100);
                put_byte(phys, byte_place(place, 3), self.value / 0x1000000 % 0x100);
            }
        }
    }
}

/// These writes placed, in order.
pub(crate) fn put_all(writes: &[HeldWrite], phys: &mut PhysMap)
    requires { All IsHeldWrite writes.now }
    ensures placed { phys.new ≡ all_placed phys.old (bytes_held writes.now) }
    ensures keeps { KeepsPhysical phys.old phys.new }
{
    for i in 0..writes.len() {
        writes[i].put(phys);
    }
}

/// What is seen at an address that leaves the processor under these writes, where this was seen before.
pub(crate) fn newest_of(writes: &[HeldWrite], phys: &PhysMap, out: u32, here: u8) -> u8
    requires { All IsHeldWrite writes.now }
    ensures { result ≡ newest phys.now.a20 (bytes_held writes.now) out here }
{
    let mut byte = here;
    for write in writes {
        byte = write.newest(phys, out, byte);
    }
    byte
}
