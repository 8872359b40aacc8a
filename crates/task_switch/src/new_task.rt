//! The new part of a switch: the loads of the new task's segments.

ghost use Rattle.std.specs.Prelude.{◌≡◌, ◌≤◌, ◌+◌, ◌^◌, [], ◌∷◌, length, if◌then◌else◌, OnErr};
ghost use Rattle.mdl_state.specs.declared.Size.TheVariants.{B2, B4};
ghost use Rattle.mdl_state.specs.State.{Mem};
ghost use Rattle.mdl_state.specs.Bytes.{bytes_of, bound_of};
ghost use Rattle.mdl_state.specs.Serving.{Serve, Passed, by_pick, outcome};
ghost use Rattle.mdl_state.specs.Accesses.{Keeps, HasRoom};
ghost use Rattle.mdl_state.specs.Attempt.{tried};
ghost use Rattle.mdl_cpu.specs.Faults.{row, first_of, fault_at};
ghost use Rattle.mdl_cpu.specs.Descriptors.{is_null, in_ldt};
ghost use Rattle.mdl_cpu.specs.Steady.{Steady};
ghost use Rattle.mdl_cpu.specs.Loads.{answered};
ghost use Rattle.mdl_cpu.specs.NewTask.{new_ldt_rows, ldt_stage, virtual_stage, new_code_rows, code_stage, stack_stage, limit_stage, code_word_stage, new_stages};
ghost use Rattle.mdl_cpu.specs.Switch.{left, staged};

use crate::first_registers::{is_virtual_image, ldt_selector, selector};
use crate::kinds::is_wide_tss;
use desc_load::{
    dpl, fault_at, fetch_descriptor, hidden_of, in_ldt, is_code, is_conforming, is_null,
    is_present, load_data_or, load_known, null_segment, rpl, stack_descriptor, system_type,
    virtual_segment,
};
use mdl_cpu::{Desc, Request, Task};
use mdl_state::{Fault, Regs, Seg, Size};
use mem_iface::Linear;
use seg_unit::{push, segment};

/// The vector of a wrong TSS, as a wrong selector in its image is.
const WRONG_TSS: u8 = 10;

/// The vector of a segment that is not present.
const NOT_PRESENT: u8 = 11;

/// The vector of a general protection fault.
const GENERAL_PROTECTION: u8 = 13;

/// The type of an LDT.
const LDT: u8 = 2;

/// The local table is named by a selector of the global one.
fn table_row(sel: u16) -> Result<(), Fault>
    ensures { result ≡ first_of (row (in_ldt sel) (fault_at 10 sel) ∷ []) }
{
    if in_ldt(sel) {
        return Err(fault_at(WRONG_TSS, sel));
    }
    Ok(())
}

/// The rows of the descriptor of the local table.
fn new_ldt_rows(sel: u16, desc: &Desc) -> Result<(), Fault>
    ensures { result ≡ first_of (new_ldt_rows sel desc.now) }
{
    if system_type(desc) != LDT {
        return Err(fault_at(WRONG_TSS, sel));
    }
    if !is_present(desc) {
        return Err(fault_at(WRONG_TSS, sel));
    }
    Ok(())
}

/// LDTR.
#[tactic(auto, using(mdl_state::specs::Rules::attempts), unfolding(mdl_cpu::specs::NewTask::ldt_stage))]
fn load_ldt<L: Linear>(regs: &mut Regs, lin: &mut L, sel: u16) -> Result<(), Fault>
    ensures run { (answered result regs.new, L.seen lin.new) ≡ tried (by_pick L.pick) 0 (ldt_stage sel regs.old) (L.seen lin.old) }
    ensures unchanged { OnErr result (regs.new ≡ regs.old) }
    ensures held { (L.seen lin.new).held ≡ (L.seen lin.old).held }
    ensures keeps { Keeps (L.seen lin.old) (L.seen lin.new) }
    ensures steady { Steady regs.old regs.new }
{
    if is_null(sel) {
        regs.ldtr = null_segment(sel);
        return Ok(());
    }
    table_row(sel)?;
    let desc = fetch_descriptor(regs, lin, sel, WRONG_TSS)?;
    new_ldt_rows(sel, &desc)?;
    regs.ldtr = hidden_of(sel, &desc);
    Ok(())
}

/// The six segment registers of V86.
#[tactic(auto, unfolding(mdl_cpu::specs::NewTask::virtual_stage, mdl_cpu::specs::Returns::virtual_segments))]
fn load_virtual(regs: &mut Regs, image: &[u32; 19])
    ensures run { (serve : Serve) (m : Mem) → (Passed regs.new, m) ≡ tried serve 0 (virtual_stage image.now regs.old) m }
    ensures steady { Steady regs.old regs.new }
{
    regs.seg = [
        virtual_segment(selector(image, Seg::Es)),
        virtual_segment(selector(image, Seg::Cs)),
        virtual_segment(selector(image, Seg::Ss)),
        virtual_segment(selector(image, Seg::Ds)),
        virtual_segment(selector(image, Seg::Fs)),
        virtual_segment(selector(image, Seg::Gs)),
    ];
}

/// The rows of the descriptor of the code.
fn new_code_rows(sel: u16, desc: &Desc) -> Result<(), Fault>
    ensures { result ≡ first_of (new_code_rows sel desc.now) }
{
    if !is_code(desc) {
        return Err(fault_at(WRONG_TSS, sel));
    }
    if !is_conforming(desc) && dpl(desc) != rpl(sel) {
        return Err(fault_at(WRONG_TSS, sel));
    }
    if is_conforming(desc) && rpl(sel) < dpl(desc) {
        return Err(fault_at(WRONG_TSS, sel));
    }
    if !is_present(desc) {
        return Err(fault_at(NOT_PRESENT, sel));
    }
    Ok(())
}

/// CS.
#[tactic(auto, using(mdl_state::specs::Rules::attempts), unfolding(mdl_cpu::specs::NewTask::code_stage))]
fn load_code<L: Linear>(regs: &mut Regs, lin: &mut L, sel: u16) -> Result<(), Fault>
    requires room { HasRoom (L.seen lin.old) 1 }
    ensures run { (answered result regs.new, L.seen lin.new) ≡ tried (by_pick L.pick) 0 (code_stage sel regs.old) (L.seen lin.old) }
    ensures unchanged { OnErr result (regs.new ≡ regs.old) }
    ensures room { length (L.seen lin.new).held ≤ length (L.seen lin.old).held + 1 }
    ensures keeps { Keeps (L.seen lin.old) (L.seen lin.new) }
    ensures steady { Steady regs.old regs.new }
{
    if is_null(sel) {
        return Err(fault_at(WRONG_TSS, sel));
    }
    let desc = fetch_descriptor(regs, lin, sel, WRONG_TSS)?;
    new_code_rows(sel, &desc)?;
    load_known(regs, lin, Seg::Cs, sel, desc)
}

/// SS.
#[tactic(auto, using(mdl_state::specs::Rules::attempts), unfolding(mdl_cpu::specs::NewTask::stack_stage))]
fn load_stack<L: Linear>(regs: &mut Regs, lin: &mut L, sel: u16) -> Result<(), Fault>
    requires room { HasRoom (L.seen lin.old) 1 }
    ensures run { (answered result regs.new, L.seen lin.new) ≡ tried (by_pick L.pick) 0 (stack_stage sel regs.old) (L.seen lin.old) }
    ensures unchanged { OnErr result (regs.new ≡ regs.old) }
    ensures room { length (L.seen lin.new).held ≤ length (L.seen lin.old).held + 1 }
    ensures keeps { Keeps (L.seen lin.old) (L.seen lin.new) }
    ensures steady { Steady regs.old regs.new }
{
    let desc = stack_descriptor(regs, lin, sel, regs.cpl, WRONG_TSS)?;
    load_known(regs, lin, Seg::Ss, sel, desc)
}

/// EIP lies within the limit of CS.
#[tactic(auto, unfolding(mdl_cpu::specs::NewTask::limit_stage))]
fn check_limit(regs: &Regs) -> Result<(), Fault>
    ensures { (serve : Serve) (m : Mem) → (answered result regs.now, m) ≡ tried serve 0 (limit_stage regs.now) m }
{
    if segment(regs, Seg::Cs).limit < regs.eip {
        return Err(fault_at(GENERAL_PROTECTION, 0));
    }
    Ok(())
}

/// The size of an error code on the stack of a task, by its TSS.
fn code_size(wide: bool) -> Size
    ensures size { result ≡ (if wide then B4 else B2) }
    ensures least { 2 ^ 16 ≤ bound_of result }
    ensures most { bytes_of result ≤ 4 }
{
    if wide { Size::B4 } else { Size::B2 }
}

/// The error code of a delivery.
#[tactic(auto, unfolding(mdl_cpu::specs::NewTask::code_word_stage, mdl_cpu::specs::InterruptGates::push_code_plan))]
fn push_code<L: Linear>(
    regs: &mut Regs,
    lin: &mut L,
    wide: bool,
    code: Option<u16>,
) -> Result<(), Fault>
    requires room { HasRoom (L.seen lin.old) 4 }
    ensures run { (answered result regs.new, L.seen lin.new) ≡ tried (by_pick L.pick) 0 (code_word_stage wide code regs.old) (L.seen lin.old) }
    ensures unchanged { OnErr result (regs.new ≡ regs.old) }
    ensures keeps { Keeps (L.seen lin.old) (L.seen lin.new) }
    ensures steady { Steady regs.old regs.new }
{
    match code {
        None => Ok(()),
        Some(code) => push(regs, lin, code_size(wide), code as u32),
    }
}

/// The loads, the test of EIP and the error code. At a fault the registers have what was loaded before.
pub(crate) fn load_task<L: Linear>(
    regs: &mut Regs,
    lin: &mut L,
    request: Request,
    task: &Task,
) -> Result<(), Fault>
    requires room { HasRoom (L.seen lin.old) 10 }
    ensures run { left (outcome result) regs.new (L.seen lin.new) ≡ staged (by_pick L.pick) (new_stages request task.now) regs.old (L.seen lin.old) }
    ensures keeps { Keeps (L.seen lin.old) (L.seen lin.new) }
    ensures steady { Steady regs.old regs.new }
{
    let image = &task.image;
    load_ldt(regs, lin, ldt_selector(image))?;
    if is_virtual_image(image) {
        load_virtual(regs, image);
    } else {
        load_code(regs, lin, selector(image, Seg::Cs))?;
        load_stack(regs, lin, selector(image, Seg::Ss))?;
        load_data_or(regs, lin, Seg::Es, selector(image, Seg::Es), WRONG_TSS)?;
        load_data_or(regs, lin, Seg::Ds, selector(image, Seg::Ds), WRONG_TSS)?;
        load_data_or(regs, lin, Seg::Fs, selector(image, Seg::Fs), WRONG_TSS)?;
        load_data_or(regs, lin, Seg::Gs, selector(image, Seg::Gs), WRONG_TSS)?;
    }
    check_limit(regs)?;
    push_code(regs, lin, is_wide_tss(&task.desc), request.code)
}
