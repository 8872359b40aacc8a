//! Numbers in memory, by segment and offset.

ghost use Rattle.std.specs.Prelude.{◌≡◌, ◌<◌, ◌+◌, ℕ, Bool, true, false, length, Ok, IfSome, IfOk, IfErr, OnOk, OnErr};
ghost use Rattle.mdl_state.specs.Bytes.{bytes_of, bound_of};
ghost use Rattle.mdl_state.specs.Serving.{by_pick, outcome, Failed};
ghost use Rattle.mdl_state.specs.Accesses.{Keeps, IsPlace, HasRoom};
ghost use Rattle.mdl_state.specs.Attempt.{tried};
ghost use Rattle.mdl_cpu.specs.Access.{legal};
ghost use Rattle.mdl_effect.specs.Operands.{Made, change_in};
ghost use Rattle.mdl_cpu.specs.Access.{load_from, store_to};
ghost use Rattle.operands.specs.Whole.{whole};
ghost use Rattle.operands.specs.Memory.{changed};

use mdl_state::{Access, Fault, Place, Regs, Seg, Size};
use mem_iface::{Linear, bytes_of};
use seg_unit::{check, check_part, is_protected, segment, who};

/// The linear address of an access in real mode or V86, where its last byte lies within the limit.
#[tactic(auto, using(crate::proofs::Near::near))]
#[inline(always)]
fn near(regs: &Regs, seg: Seg, offset: u32, size: Size) -> Option<u32>
    ensures { IfSome result (λ at. (flags : ℕ) (write : Bool) → legal (whole regs.now flags) seg offset size write ≡ Ok at) }
{
    if is_protected(regs) {
        return None;
    }
    let hidden = segment(regs, seg);
    let last = offset as u64 + (bytes_of(size) - 1) as u64;
    if last > hidden.limit as u64 {
        return None;
    }
    Some(hidden.base.wrapping_add(offset))
}

/// The linear address of a write, or its fault.
#[tactic(auto, using(crate::proofs::Modes::modes))]
fn checked(regs: &Regs, seg: Seg, offset: u32, size: Size) -> Result<u32, Fault>
    ensures { (flags : ℕ) → result ≡ legal (whole regs.now flags) seg offset size true }
{
    check(regs, seg, offset, size, true)
}

/// The linear address of a read so many bytes behind an offset, or its fault.
#[tactic(auto, using(crate::proofs::Modes::modes))]
fn checked_part(regs: &Regs, seg: Seg, offset: u32, behind: u32, size: Size) -> Result<u32, Fault>
    ensures { (flags : ℕ) → result ≡ legal (whole regs.now flags) seg (offset + behind) size false }
{
    check_part(regs, seg, offset, behind, size, false)
}

/// A number of a segment, by the whole check.
#[inline(never)]
#[tactic(auto, using(crate::proofs::Modes::modes))]
fn load_far<L: Linear>(
    regs: &Regs,
    lin: &mut L,
    seg: Seg,
    offset: u32,
    size: Size,
) -> Result<u32, Fault>
    ensures run { (flags : ℕ) → (outcome result, L.seen lin.new)
        ≡ tried (by_pick L.pick) 0 (load_from (whole regs.now flags) seg offset size) (L.seen lin.old) }
    ensures bound { IfOk result (λ value. value < bound_of size) }
    ensures keeps { Keeps (L.seen lin.old) (L.seen lin.new) }
    ensures held { (L.seen lin.new).held ≡ (L.seen lin.old).held }
{
    seg_unit::load(regs, lin, seg, offset, size)
}

/// A number of a segment.
#[inline(always)]
#[tactic(auto, using(crate::proofs::Modes::modes))]
pub fn load<L: Linear>(
    regs: &Regs,
    lin: &mut L,
    seg: Seg,
    offset: u32,
    size: Size,
) -> Result<u32, Fault>
    ensures run { (flags : ℕ) → (outcome result, L.seen lin.new)
        ≡ tried (by_pick L.pick) 0 (load_from (whole regs.now flags) seg offset size) (L.seen lin.old) }
    ensures bound { IfOk result (λ value. value < bound_of size) }
    ensures keeps { Keeps (L.seen lin.old) (L.seen lin.new) }
    ensures held { (L.seen lin.new).held ≡ (L.seen lin.old).held }
{
    if let Some(at) = near(regs, seg, offset, size) {
        return lin.read(at, size, who(regs));
    }
    load_far(regs, lin, seg, offset, size)
}

/// A number of a segment so many bytes behind an offset.
pub fn load_part<L: Linear>(
    regs: &Regs,
    lin: &mut L,
    seg: Seg,
    offset: u32,
    behind: u32,
    size: Size,
) -> Result<u32, Fault>
    ensures run { (flags : ℕ) → (outcome result, L.seen lin.new)
        ≡ tried (by_pick L.pick) 0 (load_from (whole regs.now flags) seg (offset + behind) size) (L.seen lin.old) }
    ensures bound { IfOk result (λ value. value < bound_of size) }
    ensures keeps { Keeps (L.seen lin.old) (L.seen lin.new) }
    ensures held { (L.seen lin.new).held ≡ (L.seen lin.old).held }
{
    let at = checked_part(regs, seg, offset, behind, size)?;
    lin.read(at, size, who(regs))
}

/// A number put into a segment, by the whole check.
#[inline(never)]
#[tactic(auto, using(crate::proofs::Modes::modes))]
fn store_far<L: Linear>(
    regs: &Regs,
    lin: &mut L,
    seg: Seg,
    offset: u32,
    size: Size,
    value: u32,
) -> Result<(), Fault>
    requires bound { value < bound_of size }
    requires room { HasRoom (L.seen lin.old) (bytes_of size) }
    ensures run { (flags : ℕ) → (outcome result, L.seen lin.new)
        ≡ tried (by_pick L.pick) 0 (store_to (whole regs.now flags) seg offset size value) (L.seen lin.old) }
    ensures keeps { Keeps (L.seen lin.old) (L.seen lin.new) }
    ensures room { OnOk result (length (L.seen lin.new).held ≡ length (L.seen lin.old).held + bytes_of size) }
    ensures refused { OnErr result ((L.seen lin.new).held ≡ (L.seen lin.old).held) }
{
    seg_unit::store(regs, lin, seg, offset, size, value)
}

/// A number put into a segment.
#[inline(always)]
#[tactic(auto, using(crate::proofs::Modes::modes))]
pub fn store<L: Linear>(
    regs: &Regs,
    lin: &mut L,
    seg: Seg,
    offset: u32,
    size: Size,
    value: u32,
) -> Result<(), Fault>
    requires bound { value < bound_of size }
    requires room { HasRoom (L.seen lin.old) (bytes_of size) }
    ensures run { (flags : ℕ) → (outcome result, L.seen lin.new)
        ≡ tried (by_pick L.pick) 0 (store_to (whole regs.now flags) seg offset size value) (L.seen lin.old) }
    ensures keeps { Keeps (L.seen lin.old) (L.seen lin.new) }
    ensures room { OnOk result (length (L.seen lin.new).held ≡ length (L.seen lin.old).held + bytes_of size) }
    ensures refused { OnErr result ((L.seen lin.new).held ≡ (L.seen lin.old).held) }
{
    if let Some(at) = near(regs, seg, offset, size) {
        return lin.write(at, size, value, who(regs));
    }
    store_far(regs, lin, seg, offset, size, value)
}

/// The place of a number of a segment that is read and then written, by the whole check.
#[inline(never)]
fn open_far<L: Linear>(
    regs: &Regs,
    lin: &mut L,
    seg: Seg,
    offset: u32,
    size: Size,
) -> Result<Place, Fault>
    ensures passed { IfOk result (λ place. (flags : ℕ) (make : ℕ → Made) →
        tried (by_pick L.pick) 0 (change_in (whole regs.now flags) seg offset size make) (L.seen lin.old) ≡ changed (L.seen lin.new) place size make) }
    ensures refused { IfErr result (λ fault. (flags : ℕ) (make : ℕ → Made) →
        tried (by_pick L.pick) 0 (change_in (whole regs.now flags) seg offset size make) (L.seen lin.old) ≡ (Failed fault, L.seen lin.new)) }
    ensures form { IfOk result (λ place. IsPlace place size) }
    ensures keeps { Keeps (L.seen lin.old) (L.seen lin.new) }
    ensures held { (L.seen lin.new).held ≡ (L.seen lin.old).held }
{
    let at = checked(regs, seg, offset, size)?;
    let place = lin.translate(at, size, Access::Write(who(regs)))?;
    Ok(place)
}

/// The place of a number of a segment that is read and then written.
#[inline(always)]
pub fn open_at<L: Linear>(
    regs: &Regs,
    lin: &mut L,
    seg: Seg,
    offset: u32,
    size: Size,
) -> Result<Place, Fault>
    ensures passed { IfOk result (λ place. (flags : ℕ) (make : ℕ → Made) →
        tried (by_pick L.pick) 0 (change_in (whole regs.now flags) seg offset size make) (L.seen lin.old) ≡ changed (L.seen lin.new) place size make) }
    ensures refused { IfErr result (λ fault. (flags : ℕ) (make : ℕ → Made) →
        tried (by_pick L.pick) 0 (change_in (whole regs.now flags) seg offset size make) (L.seen lin.old) ≡ (Failed fault, L.seen lin.new)) }
    ensures form { IfOk result (λ place. IsPlace place size) }
    ensures keeps { Keeps (L.seen lin.old) (L.seen lin.new) }
    ensures held { (L.seen lin.new).held ≡ (L.seen lin.old).held }
{
    if let Some(at) = near(regs, seg, offset, size) {
        return lin.translate(at, size, Access::Write(who(regs)));
    }
    open_far(regs, lin, seg, offset, size)
}
