//! What a descriptor names for a transfer, the fields of gates, and the checks of a gate and of its code.

ghost use Rattle.std.specs.Prelude.{◌≡◌, ◌≢◌, ◌≤◌, ◌<◌, ◌^◌};
ghost use Rattle.mdl_state.specs.declared.Size.TheVariants.{B1};
ghost use Rattle.mdl_state.specs.Serving.{by_pick, outcome};
ghost use Rattle.mdl_state.specs.Accesses.{Keeps};
ghost use Rattle.mdl_state.specs.Attempt.{tried};
ghost use Rattle.mdl_cpu.specs.Faults.{first_of};
ghost use Rattle.mdl_cpu.specs.TaskSegments.{is_tss};
ghost use Rattle.mdl_cpu.specs.GateDescriptors.{is_call_gate, is_task_gate, is_interrupt_gate, is_trap_gate, gate_selector, is_wide_gate, gate_size, gate_offset, gate_count, gate_rows, target_rows, jump_target_rows, target_plan, level_of};
ghost use Rattle.gate_transfer.specs.Ways.{rows_for};

use crate::code::{GENERAL_PROTECTION, general_protection};
use desc_load::{
    Desc, dpl, fault_at, fetch_descriptor, is_beyond, is_code, is_conforming, is_null, is_present,
    system_type,
};
use mdl_state::{Fault, Regs, Size};
use mem_iface::Linear;

/// The vector of a segment that is not present.
pub(crate) const NOT_PRESENT: u8 = 11;

/// A TSS of the 80286 that is not busy, as a type of the system.
const AVAILABLE_286: u8 = 1;

/// A TSS of the 80286 that is busy.
const BUSY_286: u8 = 3;

/// A call gate of the 80286.
const CALL_GATE_286: u8 = 4;

/// A task gate.
const TASK_GATE: u8 = 5;

/// An interrupt gate of the 80286.
const INTERRUPT_GATE_286: u8 = 6;

/// A trap gate of the 80286.
const TRAP_GATE_286: u8 = 7;

/// A TSS of the 80386 that is not busy.
const AVAILABLE_386: u8 = 9;

/// A TSS of the 80386 that is busy.
const BUSY_386: u8 = 11;

/// A call gate of the 80386.
const CALL_GATE_386: u8 = 12;

/// An interrupt gate of the 80386.
const INTERRUPT_GATE_386: u8 = 14;

/// A trap gate of the 80386.
const TRAP_GATE_386: u8 = 15;

/// Bit 3 of the type of a gate: the 80386, and not the 80286.
const WIDE: u16 = 0x8;

/// For what the code of a gate is named.
#[derive(Clone, Copy)]
pub(crate) enum Purpose {
    /// JMP.
    Jumps,
    /// CALL, or an interrupt.
    Enters,
}

/// A call gate.
pub(crate) fn is_call_gate(desc: &Desc) -> bool
    ensures { result ≡ is_call_gate desc.now }
{
    let kind = system_type(desc);
    kind == CALL_GATE_286 || kind == CALL_GATE_386
}

/// A task gate.
pub(crate) fn is_task_gate(desc: &Desc) -> bool
    ensures { result ≡ is_task_gate desc.now }
{
    system_type(desc) == TASK_GATE
}

/// An interrupt gate, which clears IF.
pub(crate) fn is_interrupt_gate(desc: &Desc) -> bool
    ensures { result ≡ is_interrupt_gate desc.now }
{
    let kind = system_type(desc);
    kind == INTERRUPT_GATE_286 || kind == INTERRUPT_GATE_386
}

/// A trap gate.
pub(crate) fn is_trap_gate(desc: &Desc) -> bool
    ensures { result ≡ is_trap_gate desc.now }
{
    let kind = system_type(desc);
    kind == TRAP_GATE_286 || kind == TRAP_GATE_386
}

/// A TSS, busy or not.
pub(crate) fn is_tss(desc: &Desc) -> bool
    ensures { result ≡ is_tss desc.now }
{
    let kind = system_type(desc);
    kind == AVAILABLE_286 || kind == AVAILABLE_386 || kind == BUSY_286 || kind == BUSY_386
}

/// The selector of a gate.
pub(crate) fn gate_selector(gate: &Desc) -> u16
    ensures { result ≡ gate_selector gate.now }
{
    (gate.low / 0x1_0000) as u16
}

/// A gate of the 80386.
pub(crate) fn is_wide_gate(gate: &Desc) -> bool
    ensures { result ≡ is_wide_gate gate.now }
{
    gate.rights / WIDE % 2 == 1
}

/// The size of each number that goes through the gate.
pub(crate) fn gate_size(gate: &Desc) -> Size
    ensures size { result ≡ gate_size gate.now }
    ensures words { result ≢ B1 }
{
    if is_wide_gate(gate) {
        Size::B4
    } else {
        Size::B2
    }
}

/// The offset of a gate.
pub(crate) fn gate_offset(gate: &Desc) -> u32
    ensures { result ≡ gate_offset gate.now }
{
    if is_wide_gate(gate) {
        gate.low % 0x1_0000 + 0x1_0000 * (gate.high / 0x1_0000)
    } else {
        gate.low % 0x1_0000
    }
}

/// How many parameters a call gate copies.
pub(crate) fn gate_count(gate: &Desc) -> u32
    ensures count { result ≡ gate_count gate.now }
    ensures bound { result < 2 ^ 5 }
{
    gate.high % 0x20
}

/// The rows of a call gate or a task gate that JMP or CALL names.
pub(crate) fn gate_rows(gate: &Desc, sel: u16, cpl: u8) -> Result<(), Fault>
    ensures { result ≡ first_of (gate_rows cpl sel gate.now) }
{
    if is_beyond(gate, sel, cpl) {
        return Err(fault_at(GENERAL_PROTECTION, sel));
    }
    if !is_present(gate) {
        return Err(fault_at(NOT_PRESENT, sel));
    }
    Ok(())
}

/// The rows of the code that a gate names, for CALL and interrupts.
fn target_rows(desc: &Desc, sel: u16, cpl: u8) -> Result<(), Fault>
    ensures { result ≡ first_of (target_rows cpl sel desc.now) }
{
    if !is_code(desc) {
        return Err(fault_at(GENERAL_PROTECTION, sel));
    }
    if cpl < dpl(desc) {
        return Err(fault_at(GENERAL_PROTECTION, sel));
    }
    if !is_present(desc) {
        return Err(fault_at(NOT_PRESENT, sel));
    }
    Ok(())
}

/// The rows of the code that a gate names, for JMP.
fn jump_target_rows(desc: &Desc, sel: u16, cpl: u8) -> Result<(), Fault>
    ensures { result ≡ first_of (jump_target_rows cpl sel desc.now) }
{
    if !is_code(desc) {
        return Err(fault_at(GENERAL_PROTECTION, sel));
    }
    if cpl < dpl(desc) {
        return Err(fault_at(GENERAL_PROTECTION, sel));
    }
    if !is_conforming(desc) && dpl(desc) != cpl {
        return Err(fault_at(GENERAL_PROTECTION, sel));
    }
    if !is_present(desc) {
        return Err(fault_at(NOT_PRESENT, sel));
    }
    Ok(())
}

/// The rows of the code that a gate names.
fn rows_for(purpose: Purpose, desc: &Desc, sel: u16, cpl: u8) -> Result<(), Fault>
    ensures { result ≡ first_of (rows_for purpose cpl sel desc.now) }
{
    match purpose {
        Purpose::Jumps => jump_target_rows(desc, sel, cpl),
        Purpose::Enters => target_rows(desc, sel, cpl),
    }
}

/// The descriptor of the code that a gate names, tested.
#[tactic(auto, using(mdl_state::specs::Rules::attempts), unfolding(mdl_cpu::specs::GateDescriptors::target_plan))]
pub(crate) fn target<L: Linear>(
    regs: &Regs,
    lin: &mut L,
    gate: &Desc,
    purpose: Purpose,
) -> Result<Desc, Fault>
    ensures run { (outcome result, L.seen lin.new)
        ≡ tried (by_pick L.pick) 0 (target_plan regs.now gate.now (rows_for purpose regs.now.cpl (gate_selector gate.now))) (L.seen lin.old) }
    ensures held { (L.seen lin.new).held ≡ (L.seen lin.old).held }
    ensures keeps { Keeps (L.seen lin.old) (L.seen lin.new) }
{
    let sel = gate_selector(gate);
    if is_null(sel) {
        return Err(general_protection(0));
    }
    let desc = fetch_descriptor(regs, lin, sel, GENERAL_PROTECTION)?;
    rows_for(purpose, &desc, sel, regs.cpl)?;
    Ok(desc)
}

/// The privilege level at which the code runs.
pub(crate) fn level_of(desc: &Desc, cpl: u8) -> u8
    requires { cpl ≤ 3 }
    ensures level { result ≡ level_of cpl desc.now }
    ensures bound { result ≤ 3 }
{
    if is_conforming(desc) { cpl } else { dpl(desc) }
}
