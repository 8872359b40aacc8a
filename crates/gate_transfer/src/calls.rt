//! CALL to a selector and an offset.

ghost use Rattle.std.specs.Prelude.{◌≡◌, ◌≢◌, ◌≤◌, ◌<◌, ◌+◌, length, IfOk, OnErr, nat_lt, if◌then◌else◌, true, false};
ghost use Rattle.mdl_state.specs.declared.Size.TheVariants.{B1};
ghost use Rattle.mdl_state.specs.Serving.{by_pick};
ghost use Rattle.mdl_state.specs.Accesses.{Keeps, HasRoom};
ghost use Rattle.mdl_state.specs.Attempt.{tried};
ghost use Rattle.mdl_cpu.specs.Steady.{StaysSound};
ghost use Rattle.mdl_cpu.specs.Loads.{answered};
ghost use Rattle.mdl_cpu.specs.GateDescriptors.{level_of};
ghost use Rattle.mdl_cpu.specs.Segments.{has_protection};
ghost use Rattle.mdl_cpu.specs.declared.Outcome.TheVariants.{Done};
ghost use Rattle.mdl_cpu.specs.Transfers.{IfSwitch, transferred, push_place_plan, plain_call_plan, call_code_plan, same_call_plan, inner_call_plan, call_gate_plan, by_kind, protected_call_plan, call_far_plan};
ghost use Rattle.gate_transfer.specs.Ways.{plain_code_plan};

use crate::code::{
    GENERAL_PROTECTION, PlainMode, Pointer, enter, general_protection, set_code, with_rpl,
};
use crate::gate_descriptors::{
    Purpose, gate_count, gate_offset, gate_rows, gate_selector, gate_size, is_call_gate,
    is_task_gate, is_tss, level_of, target,
};
use crate::jumps::{by_task_gate, code_rows};
use crate::stacks::{copy_parameters, push_stack, turn_inward};
use desc_load::{Desc, dpl, fetch_descriptor, has_protection, is_null, is_virtual, load_known};
use mdl_cpu::Outcome;
use mdl_num::low;
use mdl_state::{Fault, Regs, Seg, Size};
use mem_iface::Linear;
use seg_unit::{push, segment};

/// CS and the EIP behind a CALL, put on the stack.
#[tactic(auto, using(mdl_state::specs::Rules::attempts), unfolding(mdl_cpu::specs::Transfers::push_place_plan))]
fn push_place<L: Linear>(regs: &mut Regs, lin: &mut L, size: Size, back: u32) -> Result<(), Fault>
    requires size { size ≢ B1 }
    requires room { HasRoom (L.seen lin.old) 8 }
    ensures run { (answered result regs.new, L.seen lin.new)
        ≡ tried (by_pick L.pick) 0 (push_place_plan regs.old size back) (L.seen lin.old) }
    ensures keeps { Keeps (L.seen lin.old) (L.seen lin.new) }
    ensures room { length (L.seen lin.new).held ≤ length (L.seen lin.old).held + 8 }
{
    let selector = segment(regs, Seg::Cs).sel as u32;
    push(regs, lin, size, selector)?;
    push(regs, lin, size, low(back as u64, size))
}

/// CALL without a descriptor.
#[tactic(auto, using(mdl_state::specs::Rules::attempts))]
fn call_plain<L: Linear>(
    regs: &mut Regs,
    lin: &mut L,
    mode: PlainMode,
    to: Pointer,
    size: Size,
    back: u32,
) -> Result<Outcome, Fault>
    requires size { size ≢ B1 }
    requires room { HasRoom (L.seen lin.old) 8 }
    ensures run { (transferred result regs.new, L.seen lin.new)
        ≡ tried (by_pick L.pick) 0 (plain_call_plan (plain_code_plan mode) regs.old to.selector to.eip size back) (L.seen lin.old) }
    ensures made { IfOk result (λ way. way ≡ Done) }
    ensures switched { IfOk result (λ way. IfSwitch way (regs.new ≡ regs.old)) }
    ensures room { length (L.seen lin.new).held ≤ length (L.seen lin.old).held + 8 }
    ensures keeps { Keeps (L.seen lin.old) (L.seen lin.new) }
{
    push_place(regs, lin, size, back)?;
    set_code(regs, mode, to.selector, to.eip)?;
    Ok(Outcome::Done)
}

/// CALL to code.
#[tactic(auto, using(mdl_state::specs::Rules::attempts), unfolding(mdl_cpu::specs::Transfers::call_code_plan))]
fn call_code<L: Linear>(
    regs: &mut Regs,
    lin: &mut L,
    to: Pointer,
    desc: &Desc,
    size: Size,
    back: u32,
) -> Result<Outcome, Fault>
    requires level { regs.old.cpl ≤ 3 }
    requires size { size ≢ B1 }
    requires room { HasRoom (L.seen lin.old) 9 }
    ensures run { (transferred result regs.new, L.seen lin.new)
        ≡ tried (by_pick L.pick) 0 (call_code_plan regs.old to.selector desc.now to.eip size back) (L.seen lin.old) }
    ensures switched { IfOk result (λ way. IfSwitch way (regs.new ≡ regs.old)) }
    ensures room { length (L.seen lin.new).held ≤ length (L.seen lin.old).held + 9 }
    ensures keeps { Keeps (L.seen lin.old) (L.seen lin.new) }
{
    let cpl = regs.cpl;
    code_rows(desc, to.selector, cpl)?;
    push_place(regs, lin, size, back)?;
    enter(regs, lin, with_rpl(to.selector, cpl), desc, to.eip)?;
    Ok(Outcome::Done)
}

/// CALL by a call gate to the same level.
#[tactic(auto, using(mdl_state::specs::Rules::attempts), unfolding(mdl_cpu::specs::Transfers::same_call_plan))]
fn call_same<L: Linear>(
    regs: &mut Regs,
    lin: &mut L,
    gate: &Desc,
    desc: &Desc,
    back: u32,
) -> Result<(), Fault>
    requires level { regs.old.cpl ≤ 3 }
    requires room { HasRoom (L.seen lin.old) 9 }
    ensures run { (answered result regs.new, L.seen lin.new)
        ≡ tried (by_pick L.pick) 0 (same_call_plan regs.old gate.now desc.now back) (L.seen lin.old) }
    ensures room { length (L.seen lin.new).held ≤ length (L.seen lin.old).held + 9 }
    ensures keeps { Keeps (L.seen lin.old) (L.seen lin.new) }
{
    let selector = with_rpl(gate_selector(gate), regs.cpl);
    push_place(regs, lin, gate_size(gate), back)?;
    enter(regs, lin, selector, desc, gate_offset(gate))
}

/// CALL by a call gate to an inner level.
#[tactic(auto, using(mdl_state::specs::Rules::attempts), unfolding(mdl_cpu::specs::Transfers::inner_call_plan))]
fn call_inner<L: Linear>(
    regs: &mut Regs,
    lin: &mut L,
    gate: &Desc,
    desc: &Desc,
    back: u32,
) -> Result<(), Fault>
    requires room { HasRoom (L.seen lin.old) 142 }
    ensures run { (answered result regs.new, L.seen lin.new)
        ≡ tried (by_pick L.pick) 0 (inner_call_plan regs.old gate.now desc.now back) (L.seen lin.old) }
    ensures room { length (L.seen lin.new).held ≤ length (L.seen lin.old).held + 142 }
    ensures keeps { Keeps (L.seen lin.old) (L.seen lin.new) }
{
    let old = *regs;
    let size = gate_size(gate);
    let level = dpl(desc);
    let stack = turn_inward(regs, lin, level)?;
    push_stack(regs, lin, &old, size)?;
    copy_parameters(regs, lin, gate_count(gate), &old, size)?;
    push_place(regs, lin, size, back)?;
    let selector = with_rpl(gate_selector(gate), level);
    enter(regs, lin, selector, desc, gate_offset(gate))?;
    load_known(regs, lin, Seg::Ss, stack.selector, stack.desc)
}

/// CALL by a call gate whose code is tested, to the level of that code.
fn call_to_level<L: Linear>(
    regs: &mut Regs,
    lin: &mut L,
    gate: &Desc,
    desc: &Desc,
    back: u32,
) -> Result<(), Fault>
    requires level { regs.old.cpl ≤ 3 }
    requires room { HasRoom (L.seen lin.old) 142 }
    ensures run { (answered result regs.new, L.seen lin.new)
        ≡ tried (by_pick L.pick) 0 (if nat_lt (level_of regs.old.cpl desc.now) regs.old.cpl then inner_call_plan regs.old gate.now desc.now back else same_call_plan regs.old gate.now desc.now back) (L.seen lin.old) }
    ensures room { length (L.seen lin.new).held ≤ length (L.seen lin.old).held + 142 }
    ensures keeps { Keeps (L.seen lin.old) (L.seen lin.new) }
{
    if level_of(desc, regs.cpl) < regs.cpl {
        call_inner(regs, lin, gate, desc, back)
    } else {
        call_same(regs, lin, gate, desc, back)
    }
}

/// CALL by a call gate.
#[tactic(auto, using(mdl_state::specs::Rules::attempts), unfolding(mdl_cpu::specs::Transfers::call_gate_plan))]
fn call_by_gate<L: Linear>(
    regs: &mut Regs,
    lin: &mut L,
    sel: u16,
    gate: &Desc,
    back: u32,
) -> Result<Outcome, Fault>
    requires level { regs.old.cpl ≤ 3 }
    requires room { HasRoom (L.seen lin.old) 142 }
    ensures run { (transferred result regs.new, L.seen lin.new)
        ≡ tried (by_pick L.pick) 0 (call_gate_plan regs.old sel gate.now back) (L.seen lin.old) }
    ensures switched { IfOk result (λ way. IfSwitch way (regs.new ≡ regs.old)) }
    ensures room { length (L.seen lin.new).held ≤ length (L.seen lin.old).held + 142 }
    ensures keeps { Keeps (L.seen lin.old) (L.seen lin.new) }
{
    gate_rows(gate, sel, regs.cpl)?;
    let desc = target(regs, lin, gate, Purpose::Enters)?;
    call_to_level(regs, lin, gate, &desc, back)?;
    Ok(Outcome::Done)
}

/// CALL to what a descriptor is: a gate, a TSS, or else what must be code.
fn call_by_kind<L: Linear>(
    regs: &mut Regs,
    lin: &mut L,
    to: Pointer,
    desc: &Desc,
    size: Size,
    back: u32,
) -> Result<Outcome, Fault>
    requires level { regs.old.cpl ≤ 3 }
    requires size { size ≢ B1 }
    requires room { HasRoom (L.seen lin.old) 142 }
    ensures run { (transferred result regs.new, L.seen lin.new)
        ≡ tried (by_pick L.pick) 0 (by_kind regs.old to.selector desc.now (call_gate_plan regs.old to.selector desc.now back) (call_code_plan regs.old to.selector desc.now to.eip size back)) (L.seen lin.old) }
    ensures switched { IfOk result (λ way. IfSwitch way (regs.new ≡ regs.old)) }
    ensures room { length (L.seen lin.new).held ≤ length (L.seen lin.old).held + 142 }
    ensures keeps { Keeps (L.seen lin.old) (L.seen lin.new) }
{
    if is_call_gate(desc) {
        return call_by_gate(regs, lin, to.selector, desc, back);
    }
    if is_task_gate(desc) {
        return by_task_gate(regs, to.selector, desc);
    }
    if is_tss(desc) {
        return Ok(Outcome::Switch(to.selector));
    }
    call_code(regs, lin, to, desc, size, back)
}

/// CALL in protected mode.
#[tactic(auto, using(mdl_state::specs::Rules::attempts), unfolding(mdl_cpu::specs::Transfers::protected_call_plan))]
fn call_protected<L: Linear>(
    regs: &mut Regs,
    lin: &mut L,
    to: Pointer,
    size: Size,
    back: u32,
) -> Result<Outcome, Fault>
    requires level { regs.old.cpl ≤ 3 }
    requires size { size ≢ B1 }
    requires room { HasRoom (L.seen lin.old) 142 }
    ensures run { (transferred result regs.new, L.seen lin.new)
        ≡ tried (by_pick L.pick) 0 (protected_call_plan regs.old to.selector to.eip size back) (L.seen lin.old) }
    ensures switched { IfOk result (λ way. IfSwitch way (regs.new ≡ regs.old)) }
    ensures room { length (L.seen lin.new).held ≤ length (L.seen lin.old).held + 142 }
    ensures keeps { Keeps (L.seen lin.old) (L.seen lin.new) }
{
    if is_null(to.selector) {
        return Err(general_protection(0));
    }
    let desc = fetch_descriptor(regs, lin, to.selector, GENERAL_PROTECTION)?;
    call_by_kind(regs, lin, to, &desc, size, back)
}

/// CALL in each mode. At a fault the registers may be on the way.
#[tactic(auto, unfolding(mdl_cpu::specs::Transfers::call_far_plan))]
fn call<L: Linear>(
    regs: &mut Regs,
    lin: &mut L,
    sel: u16,
    off: u32,
    size: Size,
    back: u32,
) -> Result<Outcome, Fault>
    requires level { has_protection regs.old ≡ true → regs.old.cpl ≤ 3 }
    requires size { size ≢ B1 }
    requires room { HasRoom (L.seen lin.old) 142 }
    ensures run { (transferred result regs.new, L.seen lin.new)
        ≡ tried (by_pick L.pick) 0 (call_far_plan regs.old sel off size back) (L.seen lin.old) }
    ensures switched { IfOk result (λ way. IfSwitch way (regs.new ≡ regs.old)) }
    ensures real { has_protection regs.old ≡ false → IfOk result (λ way. way ≡ Done) }
    ensures room { length (L.seen lin.new).held ≤ length (L.seen lin.old).held + 142 }
    ensures keeps { Keeps (L.seen lin.old) (L.seen lin.new) }
{
    let to = Pointer {
        selector: sel,
        eip: low(off as u64, size),
    };
    if !has_protection(regs) {
        return call_plain(regs, lin, PlainMode::Real, to, size, back);
    }
    if is_virtual(regs) {
        return call_plain(regs, lin, PlainMode::Virtual, to, size, back);
    }
    call_protected(regs, lin, to, size, back)
}

/// A CALL to a selector and an offset, which is cut to the operand size. `back` is the EIP behind it.
///
/// Where a switch to another task is to follow, the registers are as they were. Up to 142 bytes are
/// held, also where the CALL is refused: an inner level's SS, ESP, 31 parameters, CS and EIP, and two
/// accessed bits.
pub fn call_far<L: Linear>(
    regs: &mut Regs,
    lin: &mut L,
    sel: u16,
    off: u32,
    size: Size,
    back: u32,
) -> Result<Outcome, Fault>
    requires level { has_protection regs.old ≡ true → regs.old.cpl ≤ 3 }
    requires size { size ≢ B1 }
    requires room { HasRoom (L.seen lin.old) 142 }
    ensures run { (transferred result regs.new, L.seen lin.new)
        ≡ tried (by_pick L.pick) 0 (call_far_plan regs.old sel off size back) (L.seen lin.old) }
    ensures switched { IfOk result (λ way. IfSwitch way (regs.new ≡ regs.old)) }
    ensures real { has_protection regs.old ≡ false → IfOk result (λ way. way ≡ Done) }
    ensures unchanged { OnErr result (regs.new ≡ regs.old) }
    ensures sound { StaysSound regs.old regs.new }
    ensures room { length (L.seen lin.new).held ≤ length (L.seen lin.old).held + 142 }
    ensures keeps { Keeps (L.seen lin.old) (L.seen lin.new) }
{
    let mut next = *regs;
    let outcome = call(&mut next, lin, sel, off, size, back)?;
    *regs = next;
    Ok(outcome)
}
