//! The way of an interrupt or exception to its handler through a gate, in protected mode and in V86.

ghost use Rattle.std.specs.Prelude.{◌≡◌, ◌≢◌, ◌≤◌, ◌<◌, ◌+◌, ◌%◌, length, IfOk, if◌then◌else◌};
ghost use Rattle.mdl_state.specs.declared.Size.TheVariants.{B1};
ghost use Rattle.mdl_state.specs.Bytes.{bound_of};
ghost use Rattle.mdl_state.specs.Serving.{by_pick, outcome};
ghost use Rattle.mdl_state.specs.Accesses.{Keeps, HasRoom};
ghost use Rattle.mdl_state.specs.Attempt.{Done, tried};
ghost use Rattle.mdl_cpu.specs.Faults.{first_of};
ghost use Rattle.mdl_cpu.specs.Segments.{is_virtual};
ghost use Rattle.mdl_cpu.specs.Loads.{answered};
ghost use Rattle.mdl_cpu.specs.GateDescriptors.{gate_selector, target_rows};
ghost use Rattle.mdl_cpu.specs.Transfers.{IfSwitch, transferred};
ghost use Rattle.mdl_cpu.specs.InterruptGates.{gate_fault, table_rows, is_handler_gate, vector_rows, vector_plan, handler_rows, without_virtual, push_segments_plan, inner_frame_plan, begin_frame_plan, saved_flags, push_code_plan, end_frame_plan, keep_stack_plan, gate_flags, with_null, without_segments, at_gate, handler_plan, through_code_plan, protected_gate_plan};
ghost use Rattle.gate_transfer.specs.Ways.{framed};

use crate::code::{GENERAL_PROTECTION, enter, with_rpl};
use crate::gate_descriptors::{
    NOT_PRESENT, Purpose, gate_offset, gate_selector, gate_size, is_interrupt_gate, is_task_gate,
    is_trap_gate, is_wide_gate, level_of, target,
};
use crate::gates::saved_eip;
use crate::stacks::{push_stack, turn_inward};
use desc_load::{
    Desc, dpl, fault_at, is_present, is_virtual, load_known, null_segment, read_descriptor,
};
use mdl_cpu::{Cause, Outcome, StackSegment};
use mdl_num::{low, with_bit};
use mdl_state::{Fault, Regs, Seg, Size};
use mem_iface::Linear;
use seg_unit::{push, segment, set_segment};

/// The places of TF, IF, NT, RF and VM in EFLAGS.
const TF: u8 = 8;

const IF: u8 = 9;

const NT: u8 = 14;

const RF: u8 = 16;

const VM: u8 = 17;

/// A fault whose code names the vector's entry of the interrupt descriptor table.
fn gate_fault(wrong: u8, vector: u8) -> Fault
    ensures { result ≡ gate_fault wrong vector }
{
    Fault {
        vector: wrong,
        code: 8 * vector as u16 + 2,
        addr: 0,
    }
}

/// The table has an entry for the vector.
fn table_rows(regs: &Regs, vector: u8) -> Result<(), Fault>
    ensures { result ≡ first_of (table_rows regs.now vector) }
{
    if (regs.idt_limit as u32) < 8 * vector as u32 + 7 {
        return Err(gate_fault(GENERAL_PROTECTION, vector));
    }
    Ok(())
}

/// A task gate, an interrupt gate or a trap gate.
fn is_handler_gate(gate: &Desc) -> bool
    ensures { result ≡ is_handler_gate gate.now }
{
    is_task_gate(gate) || is_interrupt_gate(gate) || is_trap_gate(gate)
}

/// The rows of the gate of a vector.
fn vector_rows(regs: &Regs, cause: Cause, gate: &Desc) -> Result<(), Fault>
    ensures { result ≡ first_of (vector_rows regs.now cause gate.now) }
{
    if !is_handler_gate(gate) {
        return Err(gate_fault(GENERAL_PROTECTION, cause.vector));
    }
    if cause.soft && dpl(gate) < regs.cpl {
        return Err(gate_fault(GENERAL_PROTECTION, cause.vector));
    }
    if !is_present(gate) {
        return Err(gate_fault(NOT_PRESENT, cause.vector));
    }
    Ok(())
}

/// The gate of a vector, tested.
#[tactic(auto, using(mdl_state::specs::Rules::attempts), unfolding(mdl_cpu::specs::InterruptGates::vector_plan))]
fn vector_gate<L: Linear>(regs: &Regs, lin: &mut L, cause: Cause) -> Result<Desc, Fault>
    ensures run { (outcome result, L.seen lin.new)
        ≡ tried (by_pick L.pick) 0 (vector_plan regs.now cause) (L.seen lin.old) }
    ensures held { (L.seen lin.new).held ≡ (L.seen lin.old).held }
    ensures keeps { Keeps (L.seen lin.old) (L.seen lin.new) }
{
    table_rows(regs, cause.vector)?;
    let at = regs.idt_base.wrapping_add(8 * cause.vector as u32);
    let gate = read_descriptor(lin, at)?;
    vector_rows(regs, cause, &gate)?;
    Ok(gate)
}

/// The rows of the handler's code behind those of a gate's code.
fn handler_rows(regs: &Regs, gate: &Desc, desc: &Desc) -> Result<(), Fault>
    requires level { regs.now.cpl ≤ 3 }
    ensures { result ≡ first_of (handler_rows regs.now gate.now desc.now) }
{
    if is_virtual(regs) && !is_wide_gate(gate) {
        return Err(fault_at(GENERAL_PROTECTION, gate_selector(gate)));
    }
    if is_virtual(regs) && level_of(desc, regs.cpl) != 0 {
        return Err(fault_at(GENERAL_PROTECTION, gate_selector(gate)));
    }
    Ok(())
}

/// Protected mode, and not V86.
fn leave_virtual(regs: &mut Regs)
    ensures { regs.new ≡ without_virtual regs.old }
{
    regs.eflags = with_bit(regs.eflags, VM, false);
}

/// The data segment registers of V86 pushed.
#[tactic(auto, using(mdl_state::specs::Rules::attempts), unfolding(mdl_cpu::specs::InterruptGates::push_segments_plan))]
fn push_segments<L: Linear>(regs: &mut Regs, lin: &mut L, old: &Regs) -> Result<(), Fault>
    requires room { HasRoom (L.seen lin.old) 16 }
    ensures run { (answered result regs.new, L.seen lin.new)
        ≡ tried (by_pick L.pick) 0 (push_segments_plan old.now regs.old) (L.seen lin.old) }
    ensures room { length (L.seen lin.new).held ≤ length (L.seen lin.old).held + 16 }
    ensures keeps { Keeps (L.seen lin.old) (L.seen lin.new) }
{
    push(regs, lin, Size::B4, segment(old, Seg::Gs).sel as u32)?;
    push(regs, lin, Size::B4, segment(old, Seg::Fs).sel as u32)?;
    push(regs, lin, Size::B4, segment(old, Seg::Ds).sel as u32)?;
    push(regs, lin, Size::B4, segment(old, Seg::Es).sel as u32)
}

/// From V86 its data segment registers pushed, and from elsewhere nothing.
fn push_virtual<L: Linear>(regs: &mut Regs, lin: &mut L, old: &Regs) -> Result<(), Fault>
    requires room { HasRoom (L.seen lin.old) 16 }
    ensures run { (answered result regs.new, L.seen lin.new)
        ≡ tried (by_pick L.pick) 0 (if is_virtual old.now then push_segments_plan old.now regs.old else Done regs.old) (L.seen lin.old) }
    ensures room { length (L.seen lin.new).held ≤ length (L.seen lin.old).held + 16 }
    ensures keeps { Keeps (L.seen lin.old) (L.seen lin.new) }
{
    if is_virtual(old) {
        push_segments(regs, lin, old)
    } else {
        Ok(())
    }
}

/// The first part of the frame, on the stack of an inner level.
#[tactic(auto, using(mdl_state::specs::Rules::attempts), unfolding(mdl_cpu::specs::InterruptGates::inner_frame_plan))]
fn begin_inner_frame<L: Linear>(
    regs: &mut Regs,
    lin: &mut L,
    level: u8,
    size: Size,
) -> Result<Option<StackSegment>, Fault>
    requires size { size ≢ B1 }
    requires room { HasRoom (L.seen lin.old) 24 }
    ensures run { (framed result regs.new, L.seen lin.new)
        ≡ tried (by_pick L.pick) 0 (inner_frame_plan regs.old level size) (L.seen lin.old) }
    ensures room { length (L.seen lin.new).held ≤ length (L.seen lin.old).held + 24 }
    ensures keeps { Keeps (L.seen lin.old) (L.seen lin.new) }
{
    let old = *regs;
    leave_virtual(regs);
    let stack = turn_inward(regs, lin, level)?;
    push_virtual(regs, lin, &old)?;
    push_stack(regs, lin, &old, size)?;
    Ok(Some(stack))
}

/// The first part of the frame, on the stack of the level at which the handler runs.
#[tactic(auto, unfolding(mdl_cpu::specs::InterruptGates::begin_frame_plan))]
fn begin_frame<L: Linear>(
    regs: &mut Regs,
    lin: &mut L,
    level: u8,
    size: Size,
) -> Result<Option<StackSegment>, Fault>
    requires size { size ≢ B1 }
    requires room { HasRoom (L.seen lin.old) 24 }
    ensures run { (framed result regs.new, L.seen lin.new)
        ≡ tried (by_pick L.pick) 0 (begin_frame_plan regs.old level size) (L.seen lin.old) }
    ensures room { length (L.seen lin.new).held ≤ length (L.seen lin.old).held + 24 }
    ensures keeps { Keeps (L.seen lin.old) (L.seen lin.new) }
{
    if level < regs.cpl {
        begin_inner_frame(regs, lin, level, size)
    } else {
        Ok(None)
    }
}

/// The flags that are saved.
fn saved_flags(regs: &Regs, cause: Cause) -> u32
    ensures { result ≡ saved_flags regs.now cause }
{
    if cause.fault {
        with_bit(regs.eflags, RF, true)
    } else {
        regs.eflags
    }
}

/// The error code pushed, where there is one.
#[tactic(auto, unfolding(mdl_cpu::specs::InterruptGates::push_code_plan))]
fn push_code<L: Linear>(
    regs: &mut Regs,
    lin: &mut L,
    size: Size,
    code: Option<u16>,
) -> Result<(), Fault>
    requires size { size ≢ B1 }
    requires room { HasRoom (L.seen lin.old) 4 }
    ensures run { (answered result regs.new, L.seen lin.new)
        ≡ tried (by_pick L.pick) 0 (push_code_plan regs.old size code) (L.seen lin.old) }
    ensures room { length (L.seen lin.new).held ≤ length (L.seen lin.old).held + 4 }
    ensures keeps { Keeps (L.seen lin.old) (L.seen lin.new) }
{
    match code {
        Some(code) => push(regs, lin, size, code as u32),
        None => Ok(()),
    }
}

/// The last part of the frame: EFLAGS, CS and EIP, and the error code.
#[tactic(auto, using(mdl_state::specs::Rules::attempts), unfolding(mdl_cpu::specs::InterruptGates::end_frame_plan))]
fn end_frame<L: Linear>(
    regs: &mut Regs,
    lin: &mut L,
    old: &Regs,
    cause: Cause,
    size: Size,
) -> Result<(), Fault>
    requires size { size ≢ B1 }
    requires room { HasRoom (L.seen lin.old) 16 }
    ensures run { (answered result regs.new, L.seen lin.new)
        ≡ tried (by_pick L.pick) 0 (end_frame_plan old.now regs.old cause size) (L.seen lin.old) }
    ensures room { length (L.seen lin.new).held ≤ length (L.seen lin.old).held + 16 }
    ensures keeps { Keeps (L.seen lin.old) (L.seen lin.new) }
{
    push(regs, lin, size, low(saved_flags(old, cause) as u64, size))?;
    push(regs, lin, size, segment(old, Seg::Cs).sel as u32)?;
    push(regs, lin, size, low(saved_eip(old, cause) as u64, size))?;
    push_code(regs, lin, size, cause.code)
}

/// A new stack is accessed.
#[tactic(auto, unfolding(mdl_cpu::specs::InterruptGates::keep_stack_plan))]
fn keep_stack<L: Linear>(
    regs: &mut Regs,
    lin: &mut L,
    stack: Option<StackSegment>,
) -> Result<(), Fault>
    requires room { HasRoom (L.seen lin.old) 1 }
    ensures run { (answered result regs.new, L.seen lin.new)
        ≡ tried (by_pick L.pick) 0 (keep_stack_plan regs.old stack) (L.seen lin.old) }
    ensures room { length (L.seen lin.new).held ≤ length (L.seen lin.old).held + 1 }
    ensures keeps { Keeps (L.seen lin.old) (L.seen lin.new) }
{
    match stack {
        Some(stack) => load_known(regs, lin, Seg::Ss, stack.selector, stack.desc),
        None => Ok(()),
    }
}

/// The flags of a handler behind a gate.
fn gate_flags(gate: &Desc, flags: u32) -> u32
    ensures { result ≡ gate_flags gate.now flags }
{
    let masked = if is_interrupt_gate(gate) {
        with_bit(flags, IF, false)
    } else {
        flags
    };
    let traced = with_bit(masked, TF, false);
    with_bit(with_bit(with_bit(traced, NT, false), RF, false), VM, false)
}

/// A data segment register that can't be used.
fn clear_segment(regs: &mut Regs, seg: Seg)
    ensures { regs.new ≡ with_null regs.old seg }
{
    set_segment(regs, seg, null_segment(0));
}

/// All four of them.
#[tactic(auto, unfolding(mdl_cpu::specs::InterruptGates::without_segments))]
fn clear_segments(regs: &mut Regs)
    ensures { regs.new ≡ without_segments regs.old }
{
    clear_segment(regs, Seg::Es);
    clear_segment(regs, Seg::Ds);
    clear_segment(regs, Seg::Fs);
    clear_segment(regs, Seg::Gs);
}

/// The registers turned to a handler.
#[tactic(auto, unfolding(mdl_cpu::specs::InterruptGates::at_gate))]
fn turn_to(regs: &mut Regs, old: &Regs, gate: &Desc)
    ensures { regs.new ≡ at_gate old.now regs.old gate.now }
{
    if is_virtual(old) {
        clear_segments(regs);
    }
    regs.eflags = gate_flags(gate, old.eflags);
}

/// The frame, the code and the handler.
#[tactic(auto, using(mdl_state::specs::Rules::attempts), unfolding(mdl_cpu::specs::InterruptGates::handler_plan))]
fn enter_handler<L: Linear>(
    regs: &mut Regs,
    lin: &mut L,
    cause: Cause,
    gate: &Desc,
    desc: &Desc,
) -> Result<(), Fault>
    requires level { regs.old.cpl ≤ 3 }
    requires room { HasRoom (L.seen lin.old) 42 }
    ensures run { (answered result regs.new, L.seen lin.new)
        ≡ tried (by_pick L.pick) 0 (handler_plan regs.old cause gate.now desc.now) (L.seen lin.old) }
    ensures keeps { Keeps (L.seen lin.old) (L.seen lin.new) }
{
    let old = *regs;
    let size = gate_size(gate);
    let level = level_of(desc, old.cpl);
    let stack = begin_frame(regs, lin, level, size)?;
    end_frame(regs, lin, &old, cause, size)?;
    let selector = with_rpl(gate_selector(gate), level);
    enter(regs, lin, selector, desc, gate_offset(gate))?;
    keep_stack(regs, lin, stack)?;
    turn_to(regs, &old, gate);
    Ok(())
}

/// The code of the gate, tested, and the handler.
#[tactic(auto, using(mdl_state::specs::Rules::attempts), unfolding(mdl_cpu::specs::InterruptGates::through_code_plan))]
fn enter_code<L: Linear>(
    regs: &mut Regs,
    lin: &mut L,
    cause: Cause,
    gate: &Desc,
) -> Result<(), Fault>
    requires level { regs.old.cpl ≤ 3 }
    requires room { HasRoom (L.seen lin.old) 42 }
    ensures run { (answered result regs.new, L.seen lin.new)
        ≡ tried (by_pick L.pick) 0 (through_code_plan regs.old cause gate.now) (L.seen lin.old) }
    ensures keeps { Keeps (L.seen lin.old) (L.seen lin.new) }
{
    let desc = target(regs, lin, gate, Purpose::Enters)?;
    handler_rows(regs, gate, &desc)?;
    enter_handler(regs, lin, cause, gate, &desc)
}

/// The way through the gate of a vector: to its handler, or to another task, to which a switch is to follow.
/// At a fault the registers may be on the way.
#[tactic(auto, using(mdl_state::specs::Rules::attempts), unfolding(mdl_cpu::specs::InterruptGates::protected_gate_plan))]
pub(crate) fn through_protected_gate<L: Linear>(
    regs: &mut Regs,
    lin: &mut L,
    cause: Cause,
) -> Result<Outcome, Fault>
    requires level { regs.old.cpl ≤ 3 }
    requires room { HasRoom (L.seen lin.old) 42 }
    ensures run { (transferred result regs.new, L.seen lin.new)
        ≡ tried (by_pick L.pick) 0 (protected_gate_plan cause regs.old) (L.seen lin.old) }
    ensures switched { IfOk result (λ way. IfSwitch way (regs.new ≡ regs.old)) }
    ensures keeps { Keeps (L.seen lin.old) (L.seen lin.new) }
{
    let gate = vector_gate(regs, lin, cause)?;
    if is_task_gate(&gate) {
        return Ok(Outcome::Switch(gate_selector(&gate)));
    }
    enter_code(regs, lin, cause, &gate)?;
    Ok(Outcome::Done)
}
