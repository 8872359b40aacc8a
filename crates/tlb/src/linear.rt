//! Accesses.

ghost use Rattle.std.specs.Prelude.{◌≡◌, ℕ, ◌+◌, ◌-◌, ◌/◌, ◌<◌, ◌≤◌, ◌^◌, ◌%◌, [], length, OnOk, OnErr, IfOk, IfSome, true, false};
ghost use Rattle.std.specs.Bool.{OnTrue};
ghost use Rattle.mdl_state.specs.declared.Size.TheVariants.{B1};
ghost use Rattle.mdl_state.specs.declared.Who.{Who};
ghost use Rattle.mdl_state.specs.Bytes.{bytes_of, bound_of};
ghost use Rattle.mdl_state.specs.Serving.{by_pick, outcome, Passed};
ghost use Rattle.mdl_state.specs.Accesses.{translated, got, read_at, written_at, committed, bytes_here, Keeps, IsPlace, HasRoom};
ghost use Rattle.mdl_state.specs.Policy.{plain_item, meets_plain};
ghost use Rattle.mdl_state.specs.PolicyLaws.{plain_item_meets};

use crate::machine::{DIRECT_END, Tlb};
use crate::translation::{PAGE, unpaged};
use mdl_state::{Access, Fault, Place, Size, Who};
use mem_iface::{Linear, Phys, bytes_of};

/// The last place in a page at which every access lies whole.
const LAST_WHOLE: u32 = PAGE - 4;

impl Tlb {
    /// A read by its place, where it is none of conventional memory as it stands.
    #[inline(never)]
    #[tactic(auto, using(crate::proofs::Direct::direct_read), unfolding(mdl_state::specs::Accesses::read_at))]
    fn read_far(&mut self, lin: u32, size: Size, who: Who) -> Result<u32, Fault>
        ensures value { (outcome result, self.new) ≡ read_at (by_pick plain_item) self.old lin size who }
        ensures bound { IfOk result (λ value. value < bound_of size) }
        ensures keeps { Keeps self.old self.new }
        ensures held { self.new.held ≡ self.old.held }
    {
        if self.is_direct(lin) {
            return Ok(self.phys.load(lin, size));
        }
        let place = self.translate(lin, size, Access::Read(who))?;
        Ok(self.get(place, size))
    }

    /// A write by its place.
    #[inline(never)]
    #[tactic(auto, unfolding(mdl_state::specs::Accesses::written_at))]
    fn write_place(&mut self, lin: u32, size: Size, value: u32, who: Who) -> Result<(), Fault>
        requires bound { value < bound_of size }
        requires room { HasRoom self.old (bytes_of size) }
        ensures done { (outcome result, self.new) ≡ written_at (by_pick plain_item) self.old lin size value who }
        ensures keeps { Keeps self.old self.new }
        ensures room { OnOk result (length self.new.held ≡ length self.old.held + bytes_of size) }
        ensures refused { OnErr result (self.new.held ≡ self.old.held) }
    {
        let place = self.translate(lin, size, Access::Write(who))?;
        self.hold(place, size, value);
        Ok(())
    }

    /// Whether accesses are those of physical memory as it stands.
    #[inline(always)]
    fn is_plain(&self) -> bool
        ensures paging { OnTrue result (self.now.paging ≡ false) }
        ensures held { OnTrue result (self.now.held ≡ []) }
    {
        self.held.is_empty() && !self.paging
    }

    /// Whether eight bytes are those of conventional memory as it stands.
    #[inline(always)]
    #[tactic(auto, using(crate::proofs::Direct::direct_off, crate::proofs::Direct::direct_none, crate::proofs::Direct::direct_low))]
    fn is_near(&self, lin: u32) -> bool
        ensures paging { OnTrue result (self.now.paging ≡ false) }
        ensures held { OnTrue result (self.now.held ≡ []) }
        ensures low { OnTrue result (lin + 8 ≤ 0xA0000) }
    {
        lin < self.direct
    }

    /// The number that is seen at a place, where it is none of conventional memory as it stands.
    #[inline(never)]
    #[tactic(auto, using(crate::proofs::Holding::whole_got))]
    fn get_far(&self, place: Place, size: Size) -> u32
        requires { IsPlace place size }
        ensures value { result ≡ got self.now place size }
        ensures bound { result < bound_of size }
    {
        if u32::from(place.cut) == bytes_of(size) && self.held.is_empty() {
            return self.phys.load(place.first, size);
        }
        self.held.got(&self.phys, place, size)
    }

    /// Places what is held, in order.
    #[inline(never)]
    #[tactic(auto, unfolding(mdl_state::specs::Accesses::committed))]
    fn place_all(&mut self)
        ensures placed { self.new ≡ committed self.old }
        ensures keeps { Keeps self.old self.new }
        ensures held { self.new.held ≡ [] }
    {
        self.held.put(&mut self.phys);
        self.held.clear();
        self.direct = if self.paging { 0 } else { DIRECT_END };
    }

    /// Places what is held, which mostly is one write. That is put last, so that nothing is kept over a call.
    #[inline(never)]
    #[tactic(auto, unfolding(mdl_state::specs::Accesses::committed))]
    fn place_held(&mut self)
        ensures placed { self.new ≡ committed self.old }
        ensures keeps { Keeps self.old self.new }
        ensures held { self.new.held ≡ [] }
    {
        match self.held.only() {
            Some(write) => {
                self.held.clear();
                self.direct = if self.paging { 0 } else { DIRECT_END };
                write.put(&mut self.phys);
            }
            None => self.place_all(),
        }
    }

    /// The eight bytes from an address on, of one page of physical memory as it stands: code of the ROM,
    /// and of RAM above 1 MiB. It is cold, so that it lies out of the way of conventional memory.
    #[cold]
    #[inline(never)]
    fn ahead(&self, lin: u32) -> Option<u64>
        ensures { IfSome result (λ word. (who : Who) (i : ℕ) → i < 8 → (Passed (word / 256 ^ i % 256), self.now) ≡ read_at (by_pick plain_item) self.now ((lin + i) % 2 ^ 32) B1 who) }
    {
        if self.direct == 0 {
            return None;
        }
        self.phys.eight_in_page(lin)
    }

    /// Whether an access is one of physical memory as it stands, in one page.
    fn is_direct(&self, lin: u32) -> bool
        ensures paging { OnTrue result (self.now.paging ≡ false) }
        ensures held { OnTrue result (self.now.held ≡ []) }
        ensures page { OnTrue result (lin % 0x1000 + 4 ≤ 0x1000) }
    {
        lin % PAGE <= LAST_WHOLE && self.is_plain()
    }
}

impl Linear for Tlb {
    ghost seen = { λ m. m };

    ghost pick = { plain_item };

    ghost policy = { meets_plain };

    ghost meets = { plain_item_meets };

    #[inline(always)]
    #[tactic(auto, unfolding(mdl_state::specs::Accesses::translated))]
    fn translate(&mut self, lin: u32, size: Size, access: Access) -> Result<Place, Fault> {
        if self.paging {
            return self.translate_paged(lin, size, access);
        }
        Ok(unpaged(lin, size))
    }

    #[inline(always)]
    #[tactic(auto, using(crate::proofs::Holding::whole_got))]
    fn get(&self, place: Place, size: Size) -> u32 {
        if u32::from(place.cut) == bytes_of(size) && self.is_near(place.first) {
            return self.phys.load_conventional(place.first, size);
        }
        self.get_far(place, size)
    }

    #[inline(always)]
    fn hold(&mut self, place: Place, size: Size, value: u32) {
        self.direct = 0;
        self.held.hold(place, size, value);
    }

    #[inline(always)]
    #[tactic(auto, using(crate::proofs::Direct::low_read))]
    fn read(&mut self, lin: u32, size: Size, who: Who) -> Result<u32, Fault> {
        if self.is_near(lin) {
            return Ok(self.phys.load_conventional(lin, size));
        }
        let value = self.read_far(lin, size, who)?;
        Ok(value)
    }

    #[inline(always)]
    fn near(&self, lin: u32, _who: Who) -> Option<u64> {
        if self.is_near(lin) {
            return Some(self.phys.load_eight(lin));
        }
        self.ahead(lin)
    }

    #[inline(always)]
    #[tactic(auto, using(crate::proofs::Direct::direct_write))]
    fn write(&mut self, lin: u32, size: Size, value: u32, who: Who) -> Result<(), Fault> {
        if self.paging {
            return self.write_place(lin, size, value, who);
        }
        self.hold(unpaged(lin, size), size, value);
        Ok(())
    }

    fn room(&self) -> u16 {
        self.held.room()
    }

    #[inline(always)]
    #[tactic(auto, using(crate::proofs::Direct::nothing_held), unfolding(mdl_state::specs::Accesses::committed))]
    fn commit(&mut self) {
        if self.direct != 0 || self.held.is_empty() {
            return;
        }
        self.place_held();
    }

    #[tactic(auto, unfolding(mdl_state::specs::Accesses::discarded))]
    fn discard(&mut self) {
        if !self.held.is_empty() {
            self.held.clear();
            self.direct = if self.paging { 0 } else { DIRECT_END };
        }
    }

    fn load_cr3(&mut self, value: u32) {
        self.cr3 = value;
    }

    fn set_paging(&mut self, on: bool) {
        self.paging = on;
        self.direct = if on || !self.held.is_empty() {
            0
        } else {
            DIRECT_END
        };
    }

    fn set_a20(&mut self, on: bool) {
        self.phys.set_a20(on);
    }

    fn walks(&self) -> u64 {
        self.walks
    }
}
