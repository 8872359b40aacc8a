//! Which breakpoints an access meets. Manual, chapter 12.

ghost use Rattle.std.specs.Prelude.{◌≡◌, if◌then◌else◌, bit_or};
ghost use Rattle.mdl_state.specs.Watches.{watch_start, overlaps, is_counted, meets, hits_after};

use mdl_state::{Access, Size, Watch, Who};
use mem_iface::bytes_of;

/// The first byte that is watched.
pub(crate) fn watch_start(watch: Watch) -> u32
    ensures { result ≡ watch_start watch }
{
    watch.lin - watch.lin % bytes_of(watch.size)
}

/// Two runs of bytes have one in common.
pub(crate) fn overlaps(a: u32, count: u32, b: u32, more: u32) -> bool
    ensures { result ≡ overlaps a count b more }
{
    b.wrapping_sub(a) < count || a.wrapping_sub(b) < more
}

/// The access is one that counts.
fn is_counted(reads: bool, access: Access) -> bool
    ensures { result ≡ is_counted reads access }
{
    match access {
        Access::Read(Who::Tables) => false,
        Access::Read(_) => reads,
        Access::Write(Who::Tables) => false,
        Access::Write(_) => true,
    }
}

/// An access meets a breakpoint.
#[tactic(auto, unfolding(mdl_state::specs::Watches::meets))]
fn meets(watch: Watch, lin: u32, size: Size, access: Access) -> bool
    ensures { result ≡ meets watch lin size access }
{
    is_counted(watch.reads, access)
        && overlaps(
            lin,
            bytes_of(size),
            watch_start(watch),
            bytes_of(watch.size),
        )
}

/// The bits of DR6 with those of a breakpoint, where an access meets it.
fn hits_with(watch: Watch, lin: u32, size: Size, access: Access, hits: u16) -> u16
    ensures { result ≡ (if meets watch lin size access then bit_or hits watch.bits else hits) }
{
    if meets(watch, lin, size, access) {
        return hits | watch.bits;
    }
    hits
}

/// The bits of DR6 with those of each breakpoint that an access meets.
#[inline(never)]
pub(crate) fn hits_after(watch: &[Watch], lin: u32, size: Size, access: Access, hits: u16) -> u16
    ensures { result ≡ hits_after watch.now lin size access hits }
{
    let mut all = hits;
    for &one in watch {
        all = hits_with(one, lin, size, access, all);
    }
    all
}
