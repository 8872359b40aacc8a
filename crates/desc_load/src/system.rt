//! Loads of LDTR and of TR.

ghost use Rattle.std.specs.Prelude.{◌≡◌, ◌≤◌, ◌+◌, length, [], ◌∷◌, OnErr};
ghost use Rattle.mdl_state.specs.Serving.{by_pick};
ghost use Rattle.mdl_state.specs.Accesses.{Keeps, HasRoom};
ghost use Rattle.mdl_state.specs.Attempt.{tried};
ghost use Rattle.mdl_cpu.specs.Faults.{row, first_of, fault_at};
ghost use Rattle.mdl_cpu.specs.Descriptors.{in_ldt};
ghost use Rattle.mdl_cpu.specs.Steady.{Steady};
ghost use Rattle.mdl_cpu.specs.TaskSegments.{has_wide_tss};
ghost use Rattle.mdl_cpu.specs.Loads.{ldt_rows, load_ldt_plan, task_rows, load_task_plan, answered};

use crate::descriptors::{fetch_descriptor, is_present, system_type};
use crate::marks::set_busy;
use crate::segments::{hidden_of, null_segment};
use crate::selectors::{fault_at, in_ldt, is_null};
use mdl_cpu::Desc;
use mdl_state::{Fault, Regs};
use mem_iface::Linear;

/// The vector of a segment that is not present.
const NOT_PRESENT: u8 = 11;

/// The vector of a general protection fault.
const GENERAL_PROTECTION: u8 = 13;

/// The type of the LDT.
const LDT: u8 = 2;

/// The type of a TSS of the 80286 that is not busy.
const AVAILABLE_286: u8 = 1;

/// The type of a TSS of the 80386 that is not busy.
const AVAILABLE_386: u8 = 9;

/// That of one that is in use.
const BUSY_386: u8 = 11;

/// TR has a TSS of the 80386, whose rights are as they were read: it may have been in use or not.
pub fn has_wide_tss(regs: &Regs) -> bool
    ensures { result ≡ has_wide_tss regs.now }
{
    let kind = (regs.tr.rights % 0x10) as u8;
    kind == AVAILABLE_386 || kind == BUSY_386
}

/// LDTR and TR are loaded by selectors of the global table alone.
fn table_row(sel: u16) -> Result<(), Fault>
    ensures { result ≡ first_of (row (in_ldt sel) (fault_at 13 sel) ∷ []) }
{
    if in_ldt(sel) {
        return Err(fault_at(GENERAL_PROTECTION, sel));
    }
    Ok(())
}

/// The rows of the descriptor of an LDT.
fn ldt_rows(desc: &Desc, sel: u16) -> Result<(), Fault>
    ensures { result ≡ first_of (ldt_rows sel desc.now) }
{
    if system_type(desc) != LDT {
        return Err(fault_at(GENERAL_PROTECTION, sel));
    }
    if !is_present(desc) {
        return Err(fault_at(NOT_PRESENT, sel));
    }
    Ok(())
}

/// LLDT.
#[tactic(auto, using(mdl_state::specs::Rules::attempts), unfolding(mdl_cpu::specs::Loads::load_ldt_plan))]
pub fn load_ldt<L: Linear>(regs: &mut Regs, lin: &mut L, sel: u16) -> Result<(), Fault>
    ensures run { (answered result regs.new, L.seen lin.new) ≡ tried (by_pick L.pick) 0 (load_ldt_plan regs.old sel) (L.seen lin.old) }
    ensures unchanged { OnErr result (regs.new ≡ regs.old) }
    ensures held { (L.seen lin.new).held ≡ (L.seen lin.old).held }
    ensures keeps { Keeps (L.seen lin.old) (L.seen lin.new) }
    ensures steady { Steady regs.old regs.new }
{
    if is_null(sel) {
        regs.ldtr = null_segment(sel);
        return Ok(());
    }
    table_row(sel)?;
    let desc = fetch_descriptor(regs, lin, sel, GENERAL_PROTECTION)?;
    ldt_rows(&desc, sel)?;
    regs.ldtr = hidden_of(sel, &desc);
    Ok(())
}

/// The rows of the descriptor of a TSS that is to be in use.
fn task_rows(desc: &Desc, sel: u16) -> Result<(), Fault>
    ensures { result ≡ first_of (task_rows sel desc.now) }
{
    let kind = system_type(desc);
    if !(kind == AVAILABLE_286 || kind == AVAILABLE_386) {
        return Err(fault_at(GENERAL_PROTECTION, sel));
    }
    if !is_present(desc) {
        return Err(fault_at(NOT_PRESENT, sel));
    }
    Ok(())
}

/// LTR.
#[tactic(auto, using(mdl_state::specs::Rules::attempts), unfolding(mdl_cpu::specs::Loads::load_task_plan))]
pub fn load_task<L: Linear>(regs: &mut Regs, lin: &mut L, sel: u16) -> Result<(), Fault>
    requires room { HasRoom (L.seen lin.old) 1 }
    ensures run { (answered result regs.new, L.seen lin.new) ≡ tried (by_pick L.pick) 0 (load_task_plan regs.old sel) (L.seen lin.old) }
    ensures unchanged { OnErr result (regs.new ≡ regs.old) }
    ensures room { length (L.seen lin.new).held ≤ length (L.seen lin.old).held + 1 }
    ensures keeps { Keeps (L.seen lin.old) (L.seen lin.new) }
    ensures steady { Steady regs.old regs.new }
{
    if is_null(sel) {
        return Err(fault_at(GENERAL_PROTECTION, 0));
    }
    table_row(sel)?;
    let desc = fetch_descriptor(regs, lin, sel, GENERAL_PROTECTION)?;
    task_rows(&desc, sel)?;
    set_busy(lin, &desc)?;
    regs.tr = hidden_of(sel, &desc);
    Ok(())
}
