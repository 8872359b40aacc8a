//! LAR, LSL, VERR and VERW. An answer of nothing and of false stands for ZF 0.

ghost use Rattle.std.specs.Prelude.{◌≡◌, ◌≢◌, ◌<◌, IfOk, IfSome};
ghost use Rattle.mdl_state.specs.declared.Size.TheVariants.{B1};
ghost use Rattle.mdl_state.specs.Bytes.{bound_of};
ghost use Rattle.mdl_state.specs.Serving.{by_pick, outcome};
ghost use Rattle.mdl_state.specs.Accesses.{Keeps};
ghost use Rattle.mdl_state.specs.Attempt.{tried};
ghost use Rattle.mdl_cpu.specs.Visibility.{has_rights, has_limit, visible_plan, access_rights, segment_limit, lar, lsl, verr, verw};
ghost use Rattle.privilege_checks.specs.Purposes.{good_for};

use desc_load::{
    is_beyond, is_data, is_null, is_outside, is_readable_code, is_segment, is_writable_data,
    place_of, read_descriptor, system_type,
};
use mdl_cpu::Desc;
use mdl_num::low;
use mdl_state::{Fault, Regs, Size};
use mem_iface::Linear;

/// The bits of the high doubleword that LAR shows: the access byte, and the bits AVL to G.
const SHOWN: u32 = 0x00F0_FF00;

/// Those that it shows in 16 bits.
const SHOWN_IN_A_WORD: u32 = 0xFF00;

/// A TSS of the 80286 that is not busy, as a type of the system.
const AVAILABLE_286: u8 = 1;

/// A local descriptor table.
const LDT: u8 = 2;

/// A TSS of the 80286 that is in use.
const BUSY_286: u8 = 3;

/// A call gate of the 80286.
const CALL_GATE_286: u8 = 4;

/// A task gate.
const TASK_GATE: u8 = 5;

/// A TSS of the 80386 that is not busy.
const AVAILABLE_386: u8 = 9;

/// A TSS of the 80386 that is in use.
const BUSY_386: u8 = 11;

/// A call gate of the 80386.
const CALL_GATE_386: u8 = 12;

/// What a program wants to know of a descriptor.
#[derive(Clone, Copy)]
enum Purpose {
    Rights,
    Limit,
    Reads,
    Writes,
}

/// A segment, a TSS or an LDT.
fn has_limit(desc: &Desc) -> bool
    ensures { result ≡ has_limit desc.now }
{
    match system_type(desc) {
        AVAILABLE_286 | LDT | BUSY_286 | AVAILABLE_386 | BUSY_386 => true,
        _ => is_segment(desc),
    }
}

/// One of these, a call gate or a task gate.
fn has_rights(desc: &Desc) -> bool
    ensures { result ≡ has_rights desc.now }
{
    match system_type(desc) {
        AVAILABLE_286 | LDT | BUSY_286 | AVAILABLE_386 | BUSY_386 => true,
        CALL_GATE_286 | TASK_GATE | CALL_GATE_386 => true,
        _ => is_segment(desc),
    }
}

/// The descriptor is good for the purpose.
fn is_good(desc: &Desc, purpose: Purpose) -> bool
    ensures { result ≡ good_for purpose desc.now }
{
    match purpose {
        Purpose::Rights => has_rights(desc),
        Purpose::Limit => has_limit(desc),
        Purpose::Reads => is_data(desc) || is_readable_code(desc),
        Purpose::Writes => is_writable_data(desc),
    }
}

/// The descriptor of a selector, where it is good for the purpose and the program may see it.
#[tactic(auto, using(mdl_state::specs::Rules::attempts), unfolding(mdl_cpu::specs::Visibility::visible_plan))]
fn visible<L: Linear>(
    regs: &Regs,
    lin: &mut L,
    sel: u16,
    purpose: Purpose,
) -> Result<Option<Desc>, Fault>
    ensures run { (outcome result, L.seen lin.new) ≡ tried (by_pick L.pick) 0 (visible_plan (good_for purpose) regs.now sel) (L.seen lin.old) }
    ensures keeps { Keeps (L.seen lin.old) (L.seen lin.new) }
    ensures held { (L.seen lin.new).held ≡ (L.seen lin.old).held }
{
    if is_null(sel) || is_outside(regs, sel) {
        return Ok(None);
    }
    let desc = read_descriptor(lin, place_of(regs, sel))?;
    if is_good(&desc, purpose) && !is_beyond(&desc, sel, regs.cpl) {
        Ok(Some(desc))
    } else {
        Ok(None)
    }
}

/// What LAR shows of the rights.
fn access_rights(desc: &Desc, size: Size) -> u32
    ensures value { result ≡ access_rights size desc.now }
    ensures bound { size ≢ B1 → result < bound_of size }
{
    match size {
        Size::B4 => desc.high & SHOWN,
        _ => desc.high & SHOWN_IN_A_WORD,
    }
}

/// LAR.
#[tactic(auto, using(mdl_state::specs::Rules::attempts), unfolding(mdl_cpu::specs::Visibility::lar))]
pub fn lar<L: Linear>(regs: &Regs, lin: &mut L, sel: u16, size: Size) -> Result<Option<u32>, Fault>
    ensures run { (outcome result, L.seen lin.new) ≡ tried (by_pick L.pick) 0 (lar regs.now sel size) (L.seen lin.old) }
    ensures bound { size ≢ B1 → IfOk result (λ shown. IfSome shown (λ value. value < bound_of size)) }
    ensures keeps { Keeps (L.seen lin.old) (L.seen lin.new) }
    ensures held { (L.seen lin.new).held ≡ (L.seen lin.old).held }
{
    match visible(regs, lin, sel, Purpose::Rights)? {
        Some(desc) => Ok(Some(access_rights(&desc, size))),
        None => Ok(None),
    }
}

/// LSL.
#[tactic(auto, using(mdl_state::specs::Rules::attempts), unfolding(mdl_cpu::specs::Visibility::lsl))]
pub fn lsl<L: Linear>(regs: &Regs, lin: &mut L, sel: u16, size: Size) -> Result<Option<u32>, Fault>
    ensures run { (outcome result, L.seen lin.new) ≡ tried (by_pick L.pick) 0 (lsl regs.now sel size) (L.seen lin.old) }
    ensures bound { IfOk result (λ shown. IfSome shown (λ value. value < bound_of size)) }
    ensures keeps { Keeps (L.seen lin.old) (L.seen lin.new) }
    ensures held { (L.seen lin.new).held ≡ (L.seen lin.old).held }
{
    match visible(regs, lin, sel, Purpose::Limit)? {
        Some(desc) => Ok(Some(low(desc.limit as u64, size))),
        None => Ok(None),
    }
}

/// VERR.
#[tactic(auto, using(mdl_state::specs::Rules::attempts), unfolding(mdl_cpu::specs::Visibility::verr))]
pub fn verr<L: Linear>(regs: &Regs, lin: &mut L, sel: u16) -> Result<bool, Fault>
    ensures run { (outcome result, L.seen lin.new) ≡ tried (by_pick L.pick) 0 (verr regs.now sel) (L.seen lin.old) }
    ensures keeps { Keeps (L.seen lin.old) (L.seen lin.new) }
    ensures held { (L.seen lin.new).held ≡ (L.seen lin.old).held }
{
    match visible(regs, lin, sel, Purpose::Reads)? {
        Some(_) => Ok(true),
        None => Ok(false),
    }
}

/// VERW.
#[tactic(auto, using(mdl_state::specs::Rules::attempts), unfolding(mdl_cpu::specs::Visibility::verw))]
pub fn verw<L: Linear>(regs: &Regs, lin: &mut L, sel: u16) -> Result<bool, Fault>
    ensures run { (outcome result, L.seen lin.new) ≡ tried (by_pick L.pick) 0 (verw regs.now sel) (L.seen lin.old) }
    ensures keeps { Keeps (L.seen lin.old) (L.seen lin.new) }
    ensures held { (L.seen lin.new).held ≡ (L.seen lin.old).held }
{
    match visible(regs, lin, sel, Purpose::Writes)? {
        Some(_) => Ok(true),
        None => Ok(false),
    }
}
