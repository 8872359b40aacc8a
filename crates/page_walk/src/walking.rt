//! The walk.

ghost use Rattle.std.specs.Prelude.{◌≡◌, ◌+◌, ◌<◌, ◌≤◌, ◌^◌, ◌%◌, IfOk};
ghost use Rattle.mdl_state.specs.Accesses.{KeepsPhysical};
ghost use Rattle.mdl_state.specs.PageWalk.{entry_word, marked, both_marked, walk};
ghost use Rattle.mem_iface.specs.Numbers.{InPage};

use crate::entry::{
    frame_of, is_dirty, is_for_users, is_present, is_writable, is_write, page_fault, permits,
    touched,
};
use mdl_state::{Access, Entry, Fault, Size};
use mem_iface::Phys;

/// The entry at a physical address.
#[tactic(auto, unfolding(mdl_state::specs::PageWalk::entry_word, mem_iface::specs::Numbers::loaded))]
fn entry_word<M: Phys>(phys: &M, at: u32) -> u32
    requires { at % 0x1000 + 4 ≤ 0x1000 }
    ensures { result ≡ entry_word (M.seen phys.now) at }
{
    phys.load(at, Size::B4)
}

/// Marks an entry.
#[tactic(auto, unfolding(mdl_state::specs::PageWalk::marked, mem_iface::specs::Numbers::loaded, mem_iface::specs::Numbers::stored))]
fn mark<M: Phys>(phys: &mut M, at: u32, written: bool)
    ensures marked { M.seen phys.new ≡ marked (M.seen phys.old) at written }
    ensures keeps { KeepsPhysical (M.seen phys.old) (M.seen phys.new) }
{
    let byte = phys.load(at, Size::B1) as u8;
    phys.store(at, Size::B1, u32::from(touched(byte, written)));
}

/// The entry of the page of an access by the tables as they stand, which are then marked, or the
/// fault, which marks nothing.
#[tactic(auto, unfolding(mdl_state::specs::PageWalk::walk, mdl_state::specs::PageWalk::both_marked))]
pub fn walk<M: Phys>(phys: &mut M, cr3: u32, lin: u32, access: Access) -> Result<Entry, Fault>
    ensures walk { (result, M.seen phys.new) ≡ walk (M.seen phys.old) cr3 lin access }
    ensures frame { IfOk result (λ entry. (entry.frame % 0x1000 ≡ 0) × (entry.frame + 0x1000 ≤ 2 ^ 32)) }
    ensures keeps { KeepsPhysical (M.seen phys.old) (M.seen phys.new) }
{
    let first = frame_of(cr3) + 4 * (lin / 0x400000);
    let one = entry_word(phys, first);
    let second = frame_of(one) + 4 * (lin / 0x1000 % 0x400);
    let two = entry_word(phys, second);
    if !(is_present(one) && is_present(two)) {
        return Err(page_fault(lin, false, access));
    }
    let user = is_for_users(one) && is_for_users(two);
    let write = is_writable(one) && is_writable(two);
    if !permits(user, write, access) {
        return Err(page_fault(lin, true, access));
    }
    let dirty = is_dirty(two) || is_write(access);
    mark(phys, first, false);
    mark(phys, second, is_write(access));
    Ok(Entry {
        frame: frame_of(two),
        user,
        write,
        dirty,
    })
}
