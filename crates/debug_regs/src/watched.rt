//! A memory with breakpoints beside it.

ghost use Rattle.std.specs.Prelude.{◌≡◌, []};
ghost use Rattle.mdl_state.specs.Watches.{watching, hits_after};

use crate::breakpoints::Watches;
use crate::meeting::hits_after;
use arrayvec::ArrayVec;
use mdl_state::{Access, Fault, Place, Size, Who};
use mem_iface::Linear;

/// A memory, the breakpoints that are looked for, and the bits of DR6 of those that were met.
///
/// Instructions run over it where there are breakpoints to look for, and deliveries with none; fetches
/// and other instructions run over the memory within.
#[derive(Drop)]
pub struct Watched<L> {
    pub inside: L,
    pub watch: Watches,
    pub hits: u16,
}

impl<L: Linear> Watched<L> {
    /// Nothing is looked for.
    pub fn new(inside: L) -> Watched<L>
        ensures inside { result.inside ≡ inside }
        ensures watch { result.watch.items ≡ [] }
        ensures hits { result.hits ≡ 0 }
    {
        Watched {
            inside,
            watch: ArrayVec::new(),
            hits: 0,
        }
    }

    /// These breakpoints are looked for from now on, and none was met yet.
    pub fn look_for(&mut self, watch: Watches)
        ensures { self.new ≡ record self.old { watch = watch; hits = 0 } }
    {
        self.watch = watch;
        self.hits = 0;
    }

    /// Notes an access that passed.
    #[inline(always)]
    fn note(&mut self, lin: u32, size: Size, access: Access)
        ensures { self.new ≡ record self.old { hits = hits_after self.old.watch.items lin size access self.old.hits } }
    {
        if !self.watch.is_empty() {
            self.hits = hits_after(self.watch.as_slice(), lin, size, access, self.hits);
        }
    }
}

impl<L: Linear> Linear for Watched<L> {
    ghost seen = { λ s. watching (L.seen s.inside) s.watch.items s.hits };

    ghost pick = { L.pick };

    ghost policy = { L.policy };

    ghost meets = { L.meets };

    #[tactic(auto, using(mdl_state::specs::WatchLaws::translated_within))]
    #[inline(always)]
    fn translate(&mut self, lin: u32, size: Size, access: Access) -> Result<Place, Fault> {
        let place = self.inside.translate(lin, size, access)?;
        self.note(lin, size, access);
        Ok(place)
    }

    #[inline(always)]
    fn get(&self, place: Place, size: Size) -> u32 {
        self.inside.get(place, size)
    }

    #[inline(always)]
    fn hold(&mut self, place: Place, size: Size, value: u32) {
        self.inside.hold(place, size, value);
    }

    #[tactic(auto, using(mdl_state::specs::WatchLaws::read_within))]
    #[inline(always)]
    fn read(&mut self, lin: u32, size: Size, who: Who) -> Result<u32, Fault> {
        let value = self.inside.read(lin, size, who)?;
        self.note(lin, size, Access::Read(who));
        Ok(value)
    }

    /// None where breakpoints are looked for, since a read may meet one.
    #[inline(always)]
    fn near(&self, lin: u32, who: Who) -> Option<u64> {
        if self.watch.is_empty() {
            return self.inside.near(lin, who);
        }
        None
    }

    #[tactic(auto, using(mdl_state::specs::WatchLaws::written_within))]
    #[inline(always)]
    fn write(&mut self, lin: u32, size: Size, value: u32, who: Who) -> Result<(), Fault> {
        self.inside.write(lin, size, value, who)?;
        self.note(lin, size, Access::Write(who));
        Ok(())
    }

    fn room(&self) -> u16 {
        self.inside.room()
    }

    #[tactic(auto, unfolding(mdl_state::specs::Accesses::committed))]
    fn commit(&mut self) {
        self.inside.commit();
    }

    #[tactic(auto, unfolding(mdl_state::specs::Accesses::discarded))]
    fn discard(&mut self) {
        self.inside.discard();
    }

    fn load_cr3(&mut self, value: u32) {
        self.inside.load_cr3(value);
    }

    fn set_paging(&mut self, on: bool) {
        self.inside.set_paging(on);
    }

    fn set_a20(&mut self, on: bool) {
        self.inside.set_a20(on);
    }

    fn walks(&self) -> u64 {
        self.inside.walks()
    }
}
