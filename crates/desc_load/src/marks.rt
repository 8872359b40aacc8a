//! The bits of a descriptor that the processor sets in memory.

ghost use Rattle.std.specs.Prelude.{◌≡◌, ◌≤◌, ◌<◌, ◌+◌, ◌^◌, length};
ghost use Rattle.mdl_state.specs.Serving.{by_pick, outcome};
ghost use Rattle.mdl_state.specs.Accesses.{Keeps, HasRoom};
ghost use Rattle.mdl_state.specs.Attempt.{tried};
ghost use Rattle.mdl_cpu.specs.Descriptors.{with_set, mark_plan, accessed_plan, busy_plan};

use mdl_cpu::Desc;
use mdl_state::{Access, Fault, Size, Who};
use mem_iface::Linear;

/// The access byte lies so many bytes behind the first of the descriptor.
const ACCESS_BYTE: u32 = 5;

/// The bit of a segment that was loaded.
const ACCESSED: u32 = 0;

/// The bit of a TSS that is in use.
const BUSY: u32 = 1;

/// A byte with one of these bits set.
#[tactic(auto, using(crate::proofs::MarkedBytes::marked_byte))]
fn with_set(byte: u32, n: u32) -> u32
    requires byte { byte < 2 ^ 8 }
    requires bit { n ≤ 1 }
    ensures value { result ≡ with_set byte n }
    ensures bound { result < 2 ^ 8 }
{
    let mask = 1 << n;
    if byte / mask % 2 == 1 {
        byte
    } else {
        byte + mask
    }
}

/// Sets a bit of the access byte.
#[tactic(auto, unfolding(mdl_cpu::specs::Descriptors::mark_plan))]
fn mark<L: Linear>(lin: &mut L, desc: &Desc, n: u32) -> Result<(), Fault>
    requires bit { n ≤ 1 }
    requires room { HasRoom (L.seen lin.old) 1 }
    ensures run { (outcome result, L.seen lin.new) ≡ tried (by_pick L.pick) 0 (mark_plan desc.now n) (L.seen lin.old) }
    ensures room { length (L.seen lin.new).held ≤ length (L.seen lin.old).held + 1 }
    ensures keeps { Keeps (L.seen lin.old) (L.seen lin.new) }
{
    let at = desc.at.wrapping_add(ACCESS_BYTE);
    let place = lin.translate(at, Size::B1, Access::Write(Who::Tables))?;
    let byte = lin.get(place, Size::B1);
    lin.hold(place, Size::B1, with_set(byte, n));
    Ok(())
}

/// The accessed bit of a segment's descriptor, where it was read as 0.
#[tactic(auto, unfolding(mdl_cpu::specs::Descriptors::accessed_plan))]
pub fn set_accessed<L: Linear>(lin: &mut L, desc: &Desc) -> Result<(), Fault>
    requires room { HasRoom (L.seen lin.old) 1 }
    ensures run { (outcome result, L.seen lin.new) ≡ tried (by_pick L.pick) 0 (accessed_plan desc.now) (L.seen lin.old) }
    ensures room { length (L.seen lin.new).held ≤ length (L.seen lin.old).held + 1 }
    ensures keeps { Keeps (L.seen lin.old) (L.seen lin.new) }
{
    if desc.rights % 2 == 1 {
        return Ok(());
    }
    mark(lin, desc, ACCESSED)
}

/// The busy bit of a TSS.
pub fn set_busy<L: Linear>(lin: &mut L, desc: &Desc) -> Result<(), Fault>
    requires room { HasRoom (L.seen lin.old) 1 }
    ensures run { (outcome result, L.seen lin.new) ≡ tried (by_pick L.pick) 0 (busy_plan desc.now) (L.seen lin.old) }
    ensures room { length (L.seen lin.new).held ≤ length (L.seen lin.old).held + 1 }
    ensures keeps { Keeps (L.seen lin.old) (L.seen lin.new) }
{
    mark(lin, desc, BUSY)
}
