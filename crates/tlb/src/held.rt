//! The writes that are held.

ghost use Rattle.std.specs.Prelude.{◌≡◌, ◌+◌, ◌-◌, ◌<◌, ◌≤◌, ◌++◌, ◌∷◌, [], length, IfSome};
ghost use Rattle.std.specs.Bool.{OnTrue};
ghost use Rattle.mdl_state.specs.Bytes.{bytes_of, bound_of};
ghost use Rattle.mdl_state.specs.Accesses.{KeepsPhysical, IsPlace, seen_byte, got_from, held_bytes, held_room, all_placed};
ghost use Rattle.tlb.specs.Held.{write_bytes, IsHeldWrite};

use crate::writes::{HeldWrite, byte_place, newest_of, put_all};
use arrayvec::ArrayVec;
use mdl_state::{Place, Size};
use mem_iface::bytes_of;
use phys_map::PhysMap;
use std::marker::Model;

/// How many bytes may be held.
const ROOM: u16 = 256;

/// A write behind the oldest.
#[inline(never)]
fn push(later: &mut ArrayVec<HeldWrite, 256>, write: HeldWrite)
    requires { length later.old.items < 256 }
    ensures { later.new.items ≡ later.old.items ++ write ∷ [] }
{
    later.push(write);
}

/// Held writes, seen as the list of their bytes. Most instructions hold one at most: the oldest stands
/// before the list of those that came later.
#[derive(Drop)]
pub(crate) struct Held {
    oldest: Option<HeldWrite>,
    later: ArrayVec<HeldWrite, 256>,
    bytes: u16,
}

impl Model for Held {
    ghost use Rattle.std.specs.Prelude.{ℕ, List};
    ghost use Rattle.tlb.specs.Held.{bytes_held, writes_of, IsHeld, IsLater};

    ghost Value = { List (ℕ × ℕ) };

    ghost view = { λ h. bytes_held (writes_of h.oldest h.later.items) };

    ghost invariant = { λ h. IsHeld (writes_of h.oldest h.later.items) h.bytes × IsLater h.oldest h.later.items };
}

impl Held {
    pub(crate) fn new() -> Held
        ensures { result ≡ [] }
    {
        Held {
            oldest: None,
            later: ArrayVec::new(),
            bytes: 0,
        }
    }

    #[inline(always)]
    pub(crate) fn is_empty(&self) -> bool
        ensures { OnTrue result (self.now ≡ []) }
    {
        match self.oldest {
            Some(_) => false,
            None => true,
        }
    }

    /// How many bytes more may be held.
    pub(crate) fn room(&self) -> u16
        ensures { result ≡ held_room - length self.now }
    {
        ROOM - self.bytes
    }

    #[inline(always)]
    #[tactic(auto, using(crate::proofs::Holding::writes_fit))]
    pub(crate) fn hold(&mut self, place: Place, size: Size, value: u32)
        requires place { IsPlace place size }
        requires bound { value < bound_of size }
        requires room { length self.old + bytes_of size ≤ held_room }
        ensures held { self.new ≡ self.old ++ held_bytes place size value }
        ensures room { length self.new ≡ length self.old + bytes_of size }
    {
        let write = HeldWrite::new(place, size, value);
        self.bytes += bytes_of(size) as u16;
        match self.oldest {
            Some(_) => push(&mut self.later, write),
            None => self.oldest = Some(write),
        }
    }

    /// The only write that is held, where there is one.
    #[inline(always)]
    #[tactic(auto, using(crate::proofs::Holding::only_bytes, crate::proofs::Holding::only_held))]
    pub(crate) fn only(&self) -> Option<HeldWrite>
        ensures bytes { IfSome result (λ write. self.now ≡ write_bytes write) }
        ensures form { IfSome result (λ write. IsHeldWrite write) }
    {
        match self.oldest {
            Some(write) if self.later.is_empty() => Some(write),
            _ => None,
        }
    }

    /// Places what is held, in order.
    #[inline(always)]
    pub(crate) fn put(&self, phys: &mut PhysMap)
        ensures placed { phys.new ≡ all_placed phys.old self.now }
        ensures keeps { KeepsPhysical phys.old phys.new }
    {
        if let Some(write) = &self.oldest {
            write.put(phys);
            if !self.later.is_empty() {
                put_all(self.later.as_slice(), phys);
            }
        }
    }

    #[inline(always)]
    pub(crate) fn clear(&mut self)
        ensures { self.new ≡ [] }
    {
        self.oldest = None;
        self.bytes = 0;
        if !self.later.is_empty() {
            self.later.clear();
        }
    }

    /// The byte at a physical address, under what is held.
    fn seen_byte(&self, phys: &PhysMap, at: u32) -> u8
        ensures { result ≡ seen_byte phys.now self.now at }
    {
        let out = phys.gated(at);
        let byte = phys.byte(at);
        match &self.oldest {
            Some(write) => {
                let byte = write.newest(phys, out, byte);
                newest_of(self.later.as_slice(), phys, out, byte)
            }
            None => byte,
        }
    }

    /// The number that is seen at a place.
    #[inline(never)]
    #[tactic(auto, unfolding(mdl_state::specs::Accesses::got_from))]
    pub(crate) fn got(&self, phys: &PhysMap, place: Place, size: Size) -> u32
        requires { IsPlace place size }
        ensures value { result ≡ got_from phys.now self.now place size }
        ensures bound { result < bound_of size }
    {
        let first = u32::from(self.seen_byte(phys, byte_place(place, 0)));
        match size {
            Size::B1 => first,
            Size::B2 => first + 0x100 * u32::from(self.seen_byte(phys, byte_place(place, 1))),
            Size::B4 => {
                first
                    + 0x100 * u32::from(self.seen_byte(phys, byte_place(place, 1)))
                    + 0x10000 * u32::from(self.seen_byte(phys, byte_place(place, 2)))
                    + 0x1000000 * u32::from(self.seen_byte(phys, byte_place(place, 3)))
            }
        }
    }
}
