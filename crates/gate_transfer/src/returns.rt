//! RETF, and what it shares with IRET.

ghost use Rattle.std.specs.Prelude.{◌≡◌, ◌≤◌, ◌<◌, ◌+◌, length, OnErr};
ghost use Rattle.mdl_state.specs.Serving.{by_pick};
ghost use Rattle.mdl_state.specs.Accesses.{Keeps, HasRoom};
ghost use Rattle.mdl_state.specs.Attempt.{tried};
ghost use Rattle.mdl_cpu.specs.Steady.{StaysSound};
ghost use Rattle.mdl_cpu.specs.Faults.{first_of};
ghost use Rattle.mdl_cpu.specs.Loads.{answered};
ghost use Rattle.mdl_cpu.specs.Returns.{plain_return_plan, return_selector_rows, return_code_rows, dropped, same_return_plan, is_too_inner, for_level, with_level, lowered, at_level, outer_return_plan, return_to_plan, protected_return_plan, return_far_plan};
ghost use Rattle.gate_transfer.specs.Ways.{plain_code_plan};

use crate::code::{GENERAL_PROTECTION, PlainMode, Pointer, enter, general_protection, set_code};
use crate::gate_descriptors::NOT_PRESENT;
use desc_load::{
    Desc, dpl, fault_at, fetch_descriptor, has_protection, is_code, is_conforming, is_null,
    is_present, is_virtual, load_known, null_segment, rpl, stack_descriptor,
};
use mdl_state::{Fault, Hidden, Regs, Seg, Size};
use mem_iface::Linear;
use seg_unit::{above_top, pop, segment, set_segment, set_top};

/// Bit 3 of an access byte: code, and not data.
const CODE: u16 = 0x8;

/// Bit 2 of the access byte of code.
const CONFORMING: u16 = 0x4;

/// The lower bit of the DPL in an access byte.
const DPL: u16 = 0x20;

/// The number of ESP among the general registers.
const ESP: usize = 4;

/// So many bytes more taken off the stack.
fn pass_over(regs: &mut Regs, bytes: u16)
    ensures { regs.new ≡ dropped regs.old bytes }
{
    let top = above_top(regs, bytes as u32);
    set_top(regs, top);
}

/// RETF without a descriptor.
#[tactic(auto, using(mdl_state::specs::Rules::attempts))]
fn return_plain<L: Linear>(
    regs: &mut Regs,
    lin: &mut L,
    mode: PlainMode,
    size: Size,
    drop: u16,
) -> Result<(), Fault>
    ensures run { (answered result regs.new, L.seen lin.new)
        ≡ tried (by_pick L.pick) 0 (plain_return_plan (plain_code_plan mode) regs.old size drop) (L.seen lin.old) }
    ensures held { (L.seen lin.new).held ≡ (L.seen lin.old).held }
    ensures keeps { Keeps (L.seen lin.old) (L.seen lin.new) }
{
    let eip = pop(regs, lin, size)?;
    let sel = (pop(regs, lin, size)? % 0x1_0000) as u16;
    set_code(regs, mode, sel, eip)?;
    pass_over(regs, drop);
    Ok(())
}

/// The rows of the selector that comes off the stack into CS.
fn return_selector_rows(sel: u16, cpl: u8) -> Result<(), Fault>
    ensures { result ≡ first_of (return_selector_rows cpl sel) }
{
    if is_null(sel) {
        return Err(general_protection(0));
    }
    if rpl(sel) < cpl {
        return Err(fault_at(GENERAL_PROTECTION, sel));
    }
    Ok(())
}

/// The rows of its descriptor.
fn return_code_rows(desc: &Desc, sel: u16) -> Result<(), Fault>
    ensures { result ≡ first_of (return_code_rows sel desc.now) }
{
    let conforming = is_conforming(desc);
    if !is_code(desc) {
        return Err(fault_at(GENERAL_PROTECTION, sel));
    }
    if conforming && rpl(sel) < dpl(desc) {
        return Err(fault_at(GENERAL_PROTECTION, sel));
    }
    if !conforming && dpl(desc) != rpl(sel) {
        return Err(fault_at(GENERAL_PROTECTION, sel));
    }
    if !is_present(desc) {
        return Err(fault_at(NOT_PRESENT, sel));
    }
    Ok(())
}

/// To the same level.
#[tactic(auto, using(mdl_state::specs::Rules::attempts), unfolding(mdl_cpu::specs::Returns::same_return_plan))]
fn return_to_same<L: Linear>(
    regs: &mut Regs,
    lin: &mut L,
    drop: u16,
    to: Pointer,
    desc: &Desc,
) -> Result<(), Fault>
    requires room { HasRoom (L.seen lin.old) 1 }
    ensures run { (answered result regs.new, L.seen lin.new)
        ≡ tried (by_pick L.pick) 0 (same_return_plan regs.old drop to.eip to.selector desc.now) (L.seen lin.old) }
    ensures room { length (L.seen lin.new).held ≤ length (L.seen lin.old).held + 1 }
    ensures keeps { Keeps (L.seen lin.old) (L.seen lin.new) }
{
    pass_over(regs, drop);
    enter(regs, lin, to.selector, desc, to.eip)
}

/// A data segment register that is too privileged for a level: data, or code that does not conform.
fn is_too_inner(level: u8, hidden: &Hidden) -> bool
    ensures { result ≡ is_too_inner level hidden.now }
{
    let rights = hidden.rights;
    let conforming = rights / CODE % 2 == 1 && rights / CONFORMING % 2 == 1;
    rights != 0 && !conforming && rights / DPL % 4 < level as u16
}

/// A data segment register behind a return to an outer level.
fn for_level(level: u8, hidden: Hidden) -> Hidden
    ensures { result ≡ for_level level hidden }
{
    if is_too_inner(level, &hidden) {
        null_segment(0)
    } else {
        hidden
    }
}

/// One register brought to an outer level.
fn lower_one(regs: &mut Regs, seg: Seg, level: u8)
    ensures { regs.new ≡ with_level regs.old seg level }
{
    let hidden = for_level(level, segment(regs, seg));
    set_segment(regs, seg, hidden);
}

/// The data segment registers brought to an outer level.
#[tactic(auto, unfolding(mdl_cpu::specs::Returns::lowered))]
fn lower(regs: &mut Regs, level: u8)
    ensures { regs.new ≡ lowered regs.old level }
{
    lower_one(regs, Seg::Es, level);
    lower_one(regs, Seg::Ds, level);
    lower_one(regs, Seg::Fs, level);
    lower_one(regs, Seg::Gs, level);
}

/// The registers turned to an outer level and its ESP.
fn turn_outward(regs: &mut Regs, level: u8, esp: u32)
    ensures { regs.new ≡ at_level regs.old level esp }
{
    regs.cpl = level;
    regs.gpr[ESP] = esp;
}

/// To an outer level.
#[tactic(auto, using(mdl_state::specs::Rules::attempts), unfolding(mdl_cpu::specs::Returns::outer_return_plan))]
fn return_outward<L: Linear>(
    regs: &mut Regs,
    lin: &mut L,
    size: Size,
    drop: u16,
    to: Pointer,
    desc: &Desc,
) -> Result<(), Fault>
    requires room { HasRoom (L.seen lin.old) 2 }
    ensures run { (answered result regs.new, L.seen lin.new)
        ≡ tried (by_pick L.pick) 0 (outer_return_plan regs.old size drop to.eip to.selector desc.now) (L.seen lin.old) }
    ensures room { length (L.seen lin.new).held ≤ length (L.seen lin.old).held + 2 }
    ensures keeps { Keeps (L.seen lin.old) (L.seen lin.new) }
{
    let level = rpl(to.selector);
    pass_over(regs, drop);
    let esp = pop(regs, lin, size)?;
    let ss = (pop(regs, lin, size)? % 0x1_0000) as u16;
    let stack = stack_descriptor(regs, lin, ss, level, GENERAL_PROTECTION)?;
    turn_outward(regs, level, esp);
    enter(regs, lin, to.selector, desc, to.eip)?;
    load_known(regs, lin, Seg::Ss, ss, stack)?;
    pass_over(regs, drop);
    lower(regs, level);
    Ok(())
}

/// Behind the words that were popped: the code is tested, and its level decides.
#[tactic(auto, using(mdl_state::specs::Rules::attempts), unfolding(mdl_cpu::specs::Returns::return_to_plan))]
pub(crate) fn return_to<L: Linear>(
    regs: &mut Regs,
    lin: &mut L,
    size: Size,
    drop: u16,
    to: Pointer,
) -> Result<(), Fault>
    requires room { HasRoom (L.seen lin.old) 2 }
    ensures run { (answered result regs.new, L.seen lin.new)
        ≡ tried (by_pick L.pick) 0 (return_to_plan regs.old size drop to.eip to.selector) (L.seen lin.old) }
    ensures room { length (L.seen lin.new).held ≤ length (L.seen lin.old).held + 2 }
    ensures keeps { Keeps (L.seen lin.old) (L.seen lin.new) }
{
    let sel = to.selector;
    return_selector_rows(sel, regs.cpl)?;
    let desc = fetch_descriptor(regs, lin, sel, GENERAL_PROTECTION)?;
    return_code_rows(&desc, sel)?;
    if rpl(sel) == regs.cpl {
        return_to_same(regs, lin, drop, to, &desc)
    } else {
        return_outward(regs, lin, size, drop, to, &desc)
    }
}

/// RETF in protected mode.
#[tactic(auto, using(mdl_state::specs::Rules::attempts), unfolding(mdl_cpu::specs::Returns::protected_return_plan))]
fn return_protected<L: Linear>(
    regs: &mut Regs,
    lin: &mut L,
    size: Size,
    drop: u16,
) -> Result<(), Fault>
    requires room { HasRoom (L.seen lin.old) 2 }
    ensures run { (answered result regs.new, L.seen lin.new)
        ≡ tried (by_pick L.pick) 0 (protected_return_plan regs.old size drop) (L.seen lin.old) }
    ensures room { length (L.seen lin.new).held ≤ length (L.seen lin.old).held + 2 }
    ensures keeps { Keeps (L.seen lin.old) (L.seen lin.new) }
{
    let eip = pop(regs, lin, size)?;
    let selector = (pop(regs, lin, size)? % 0x1_0000) as u16;
    return_to(regs, lin, size, drop, Pointer { selector, eip })
}

/// RETF in each mode. At a fault the registers may be on the way.
#[tactic(auto, unfolding(mdl_cpu::specs::Returns::return_far_plan))]
fn return_by_mode<L: Linear>(
    regs: &mut Regs,
    lin: &mut L,
    size: Size,
    drop: u16,
) -> Result<(), Fault>
    requires room { HasRoom (L.seen lin.old) 2 }
    ensures run { (answered result regs.new, L.seen lin.new)
        ≡ tried (by_pick L.pick) 0 (return_far_plan regs.old size drop) (L.seen lin.old) }
    ensures room { length (L.seen lin.new).held ≤ length (L.seen lin.old).held + 2 }
    ensures keeps { Keeps (L.seen lin.old) (L.seen lin.new) }
{
    if !has_protection(regs) {
        return return_plain(regs, lin, PlainMode::Real, size, drop);
    }
    if is_virtual(regs) {
        return return_plain(regs, lin, PlainMode::Virtual, size, drop);
    }
    return_protected(regs, lin, size, drop)
}

/// RETF. So many bytes more are taken off the stack behind EIP and CS, of an outer level off both stacks.
///
/// Up to two accessed bits are held, also where the RETF is refused.
pub fn return_far<L: Linear>(
    regs: &mut Regs,
    lin: &mut L,
    size: Size,
    drop: u16,
) -> Result<(), Fault>
    requires room { HasRoom (L.seen lin.old) 2 }
    ensures run { (answered result regs.new, L.seen lin.new)
        ≡ tried (by_pick L.pick) 0 (return_far_plan regs.old size drop) (L.seen lin.old) }
    ensures unchanged { OnErr result (regs.new ≡ regs.old) }
    ensures sound { StaysSound regs.old regs.new }
    ensures room { length (L.seen lin.new).held ≤ length (L.seen lin.old).held + 2 }
    ensures keeps { Keeps (L.seen lin.old) (L.seen lin.new) }
{
    let mut next = *regs;
    return_by_mode(&mut next, lin, size, drop)?;
    *regs = next;
    Ok(())
}
