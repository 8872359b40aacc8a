//! JMP to a selector and an offset.

ghost use Rattle.std.specs.Prelude.{◌≡◌, ◌≤◌, ◌+◌, length, IfOk, OnErr, true, false};
ghost use Rattle.mdl_state.specs.State.{Mem};
ghost use Rattle.mdl_state.specs.Serving.{Serve, by_pick};
ghost use Rattle.mdl_state.specs.Accesses.{Keeps, HasRoom};
ghost use Rattle.mdl_state.specs.Attempt.{tried};
ghost use Rattle.mdl_cpu.specs.Steady.{StaysSound};
ghost use Rattle.mdl_cpu.specs.Faults.{first_of};
ghost use Rattle.mdl_cpu.specs.Segments.{has_protection};
ghost use Rattle.mdl_cpu.specs.declared.Outcome.TheVariants.{Done};
ghost use Rattle.mdl_cpu.specs.Transfers.{IfSwitch, transferred, plain_jump_plan, code_rows, jump_code_plan, jump_gate_plan, task_gate_plan, by_kind, protected_jump_plan, jump_far_plan};
ghost use Rattle.gate_transfer.specs.Ways.{plain_code_plan};

use crate::code::{GENERAL_PROTECTION, PlainMode, enter, general_protection, set_code, with_rpl};
use crate::gate_descriptors::{
    NOT_PRESENT, Purpose, gate_offset, gate_rows, gate_selector, is_call_gate, is_task_gate,
    is_tss, target,
};
use desc_load::{
    Desc, dpl, fault_at, fetch_descriptor, has_protection, is_code, is_conforming, is_null,
    is_present, is_virtual, rpl,
};
use mdl_cpu::Outcome;
use mdl_num::low;
use mdl_state::{Fault, Regs, Size};
use mem_iface::Linear;

/// JMP without a descriptor.
#[tactic(auto, using(mdl_state::specs::Rules::attempts))]
fn jump_plain(regs: &mut Regs, mode: PlainMode, sel: u16, eip: u32) -> Result<Outcome, Fault>
    ensures run { (serve : Serve) (m : Mem) → (transferred result regs.new, m)
        ≡ tried serve 0 (plain_jump_plan (plain_code_plan mode) regs.old sel eip) m }
    ensures made { IfOk result (λ way. way ≡ Done) }
    ensures switched { IfOk result (λ way. IfSwitch way (regs.new ≡ regs.old)) }
{
    set_code(regs, mode, sel, eip)?;
    Ok(Outcome::Done)
}

/// The rows of the code that JMP or CALL names.
pub(crate) fn code_rows(desc: &Desc, sel: u16, cpl: u8) -> Result<(), Fault>
    ensures { result ≡ first_of (code_rows cpl sel desc.now) }
{
    let conforming = is_conforming(desc);
    if !is_code(desc) {
        return Err(fault_at(GENERAL_PROTECTION, sel));
    }
    if conforming && cpl < dpl(desc) {
        return Err(fault_at(GENERAL_PROTECTION, sel));
    }
    if !conforming && cpl < rpl(sel) {
        return Err(fault_at(GENERAL_PROTECTION, sel));
    }
    if !conforming && dpl(desc) != cpl {
        return Err(fault_at(GENERAL_PROTECTION, sel));
    }
    if !is_present(desc) {
        return Err(fault_at(NOT_PRESENT, sel));
    }
    Ok(())
}

/// JMP to code.
#[tactic(auto, using(mdl_state::specs::Rules::attempts), unfolding(mdl_cpu::specs::Transfers::jump_code_plan))]
fn jump_to_code<L: Linear>(
    regs: &mut Regs,
    lin: &mut L,
    sel: u16,
    desc: &Desc,
    eip: u32,
) -> Result<Outcome, Fault>
    requires level { regs.old.cpl ≤ 3 }
    requires room { HasRoom (L.seen lin.old) 1 }
    ensures run { (transferred result regs.new, L.seen lin.new)
        ≡ tried (by_pick L.pick) 0 (jump_code_plan regs.old sel desc.now eip) (L.seen lin.old) }
    ensures switched { IfOk result (λ way. IfSwitch way (regs.new ≡ regs.old)) }
    ensures room { length (L.seen lin.new).held ≤ length (L.seen lin.old).held + 1 }
    ensures keeps { Keeps (L.seen lin.old) (L.seen lin.new) }
{
    code_rows(desc, sel, regs.cpl)?;
    enter(regs, lin, with_rpl(sel, regs.cpl), desc, eip)?;
    Ok(Outcome::Done)
}

/// JMP by a call gate.
#[tactic(auto, using(mdl_state::specs::Rules::attempts), unfolding(mdl_cpu::specs::Transfers::jump_gate_plan))]
fn jump_by_gate<L: Linear>(
    regs: &mut Regs,
    lin: &mut L,
    sel: u16,
    gate: &Desc,
) -> Result<Outcome, Fault>
    requires level { regs.old.cpl ≤ 3 }
    requires room { HasRoom (L.seen lin.old) 1 }
    ensures run { (transferred result regs.new, L.seen lin.new)
        ≡ tried (by_pick L.pick) 0 (jump_gate_plan regs.old sel gate.now) (L.seen lin.old) }
    ensures switched { IfOk result (λ way. IfSwitch way (regs.new ≡ regs.old)) }
    ensures room { length (L.seen lin.new).held ≤ length (L.seen lin.old).held + 1 }
    ensures keeps { Keeps (L.seen lin.old) (L.seen lin.new) }
{
    gate_rows(gate, sel, regs.cpl)?;
    let desc = target(regs, lin, gate, Purpose::Jumps)?;
    let selector = with_rpl(gate_selector(gate), regs.cpl);
    enter(regs, lin, selector, &desc, gate_offset(gate))?;
    Ok(Outcome::Done)
}

/// JMP or CALL by a task gate.
#[tactic(auto, unfolding(mdl_cpu::specs::Transfers::task_gate_plan))]
pub(crate) fn by_task_gate(regs: &Regs, sel: u16, gate: &Desc) -> Result<Outcome, Fault>
    ensures { (serve : Serve) (m : Mem) → (transferred result regs.now, m)
        ≡ tried serve 0 (task_gate_plan regs.now sel gate.now) m }
{
    gate_rows(gate, sel, regs.cpl)?;
    Ok(Outcome::Switch(gate_selector(gate)))
}

/// JMP to what a descriptor is: a gate, a TSS, or else what must be code.
fn jump_by_kind<L: Linear>(
    regs: &mut Regs,
    lin: &mut L,
    sel: u16,
    desc: &Desc,
    eip: u32,
) -> Result<Outcome, Fault>
    requires level { regs.old.cpl ≤ 3 }
    requires room { HasRoom (L.seen lin.old) 1 }
    ensures run { (transferred result regs.new, L.seen lin.new)
        ≡ tried (by_pick L.pick) 0 (by_kind regs.old sel desc.now (jump_gate_plan regs.old sel desc.now) (jump_code_plan regs.old sel desc.now eip)) (L.seen lin.old) }
    ensures switched { IfOk result (λ way. IfSwitch way (regs.new ≡ regs.old)) }
    ensures room { length (L.seen lin.new).held ≤ length (L.seen lin.old).held + 1 }
    ensures keeps { Keeps (L.seen lin.old) (L.seen lin.new) }
{
    if is_call_gate(desc) {
        return jump_by_gate(regs, lin, sel, desc);
    }
    if is_task_gate(desc) {
        return by_task_gate(regs, sel, desc);
    }
    if is_tss(desc) {
        return Ok(Outcome::Switch(sel));
    }
    jump_to_code(regs, lin, sel, desc, eip)
}

/// JMP in protected mode.
#[tactic(auto, using(mdl_state::specs::Rules::attempts), unfolding(mdl_cpu::specs::Transfers::protected_jump_plan))]
fn jump_protected<L: Linear>(
    regs: &mut Regs,
    lin: &mut L,
    sel: u16,
    eip: u32,
) -> Result<Outcome, Fault>
    requires level { regs.old.cpl ≤ 3 }
    requires room { HasRoom (L.seen lin.old) 1 }
    ensures run { (transferred result regs.new, L.seen lin.new)
        ≡ tried (by_pick L.pick) 0 (protected_jump_plan regs.old sel eip) (L.seen lin.old) }
    ensures switched { IfOk result (λ way. IfSwitch way (regs.new ≡ regs.old)) }
    ensures room { length (L.seen lin.new).held ≤ length (L.seen lin.old).held + 1 }
    ensures keeps { Keeps (L.seen lin.old) (L.seen lin.new) }
{
    if is_null(sel) {
        return Err(general_protection(0));
    }
    let desc = fetch_descriptor(regs, lin, sel, GENERAL_PROTECTION)?;
    jump_by_kind(regs, lin, sel, &desc, eip)
}

/// JMP in each mode. At a fault the registers may be on the way.
#[tactic(auto, unfolding(mdl_cpu::specs::Transfers::jump_far_plan))]
fn jump<L: Linear>(
    regs: &mut Regs,
    lin: &mut L,
    sel: u16,
    off: u32,
    size: Size,
) -> Result<Outcome, Fault>
    requires level { has_protection regs.old ≡ true → regs.old.cpl ≤ 3 }
    requires room { HasRoom (L.seen lin.old) 1 }
    ensures run { (transferred result regs.new, L.seen lin.new)
        ≡ tried (by_pick L.pick) 0 (jump_far_plan regs.old sel off size) (L.seen lin.old) }
    ensures switched { IfOk result (λ way. IfSwitch way (regs.new ≡ regs.old)) }
    ensures real { has_protection regs.old ≡ false → IfOk result (λ way. way ≡ Done) }
    ensures room { length (L.seen lin.new).held ≤ length (L.seen lin.old).held + 1 }
    ensures keeps { Keeps (L.seen lin.old) (L.seen lin.new) }
{
    let eip = low(off as u64, size);
    if !has_protection(regs) {
        return jump_plain(regs, PlainMode::Real, sel, eip);
    }
    if is_virtual(regs) {
        return jump_plain(regs, PlainMode::Virtual, sel, eip);
    }
    jump_protected(regs, lin, sel, eip)
}

/// A JMP to a selector and an offset, which is cut to the operand size.
///
/// Where a switch to another task is to follow, the registers are as they were. Up to one byte is held,
/// also where the JMP is refused.
pub fn jump_far<L: Linear>(
    regs: &mut Regs,
    lin: &mut L,
    sel: u16,
    off: u32,
    size: Size,
) -> Result<Outcome, Fault>
    requires level { has_protection regs.old ≡ true → regs.old.cpl ≤ 3 }
    requires room { HasRoom (L.seen lin.old) 1 }
    ensures run { (transferred result regs.new, L.seen lin.new)
        ≡ tried (by_pick L.pick) 0 (jump_far_plan regs.old sel off size) (L.seen lin.old) }
    ensures switched { IfOk result (λ way. IfSwitch way (regs.new ≡ regs.old)) }
    ensures real { has_protection regs.old ≡ false → IfOk result (λ way. way ≡ Done) }
    ensures unchanged { OnErr result (regs.new ≡ regs.old) }
    ensures sound { StaysSound regs.old regs.new }
    ensures room { length (L.seen lin.new).held ≤ length (L.seen lin.old).held + 1 }
    ensures keeps { Keeps (L.seen lin.old) (L.seen lin.new) }
{
    let mut next = *regs;
    let outcome = jump(&mut next, lin, sel, off, size)?;
    *regs = next;
    Ok(outcome)
}
