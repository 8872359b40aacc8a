//! Where an access lies.

ghost use Rattle.std.specs.Prelude.{◌≡◌, ◌+◌, ◌≤◌, ◌^◌, ◌%◌, IfOk, true, []};
ghost use Rattle.mdl_state.specs.Serving.{by_pick, outcome};
ghost use Rattle.mdl_state.specs.Accesses.{translated, bytes_here, Keeps, IsPlace};
ghost use Rattle.mdl_state.specs.Policy.{plain_item};

use crate::machine::Tlb;
use mdl_state::{Access, Entry, Fault, Place, Size};
use mem_iface::bytes_of;
use page_walk::walk;

/// The size of a page.
pub(crate) const PAGE: u32 = 0x1000;

/// How many bytes of an access lie on its first page.
fn bytes_here(lin: u32, size: Size) -> u32
    ensures { result ≡ bytes_here lin size }
{
    bytes_of(size).min(PAGE - lin % PAGE)
}

/// Where an access lies with paging off.
pub(crate) fn unpaged(lin: u32, size: Size) -> Place
    ensures place { result ≡ record { first = lin; second = (lin + bytes_here lin size) % 2 ^ 32; cut = bytes_here lin size } }
    ensures form { IsPlace result size }
{
    let cut = bytes_here(lin, size);
    Place {
        first: lin,
        second: lin.wrapping_add(cut),
        cut: cut as u8,
    }
}

impl Tlb {
    /// One page served by a walk.
    fn serve(&mut self, lin: u32, access: Access) -> Result<Entry, Fault>
        ensures serve { (outcome result, self.new) ≡ by_pick plain_item self.old lin access }
        ensures frame { IfOk result (λ entry. (entry.frame % 0x1000 ≡ 0) × (entry.frame + 0x1000 ≤ 2 ^ 32)) }
        ensures keeps { Keeps self.old self.new }
        ensures held { self.new.held ≡ self.old.held }
        ensures unwatched { self.new.watch ≡ [] }
    {
        let entry = walk(&mut self.phys, self.cr3, lin, access);
        self.walks = self.walks.saturating_add(1);
        entry
    }

    /// The place of an access with paging on.
    #[inline(never)]
    #[tactic(auto, using(crate::proofs::Direct::noted_none), unfolding(mdl_state::specs::Accesses::translated))]
    pub(crate) fn translate_paged(
        &mut self,
        lin: u32,
        size: Size,
        access: Access,
    ) -> Result<Place, Fault>
        requires { self.old.paging ≡ true }
        ensures place { (outcome result, self.new) ≡ translated (by_pick plain_item) self.old lin size access }
        ensures form { IfOk result (λ place. IsPlace place size) }
        ensures keeps { Keeps self.old self.new }
        ensures held { self.new.held ≡ self.old.held }
    {
        let cut = bytes_here(lin, size);
        let next = lin.wrapping_add(cut);
        let low = self.serve(lin, access)?;
        let first = low.frame + lin % PAGE;
        if cut == bytes_of(size) {
            return Ok(Place {
                first,
                second: 0,
                cut: cut as u8,
            });
        }
        let high = self.serve(next, access)?;
        Ok(Place {
            first,
            second: high.frame + next % PAGE,
            cut: cut as u8,
        })
    }
}
