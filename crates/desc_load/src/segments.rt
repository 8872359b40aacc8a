//! Loads of segment registers.

ghost use Rattle.std.specs.Prelude.{◌≡◌, ◌≤◌, ◌+◌, ◌*◌, length, OnErr};
ghost use Rattle.mdl_state.specs.declared.Seg.TheVariants.{Ss};
ghost use Rattle.mdl_state.specs.Registers.{with_seg};
ghost use Rattle.mdl_state.specs.Serving.{by_pick, outcome};
ghost use Rattle.mdl_state.specs.Accesses.{Keeps, HasRoom};
ghost use Rattle.mdl_state.specs.Attempt.{tried, then_plan};
ghost use Rattle.mdl_cpu.specs.Faults.{first_of};
ghost use Rattle.mdl_cpu.specs.Steady.{Steady};
ghost use Rattle.mdl_cpu.specs.Segments.{has_protection, is_virtual};
ghost use Rattle.mdl_cpu.specs.Loads.{with_selector, virtual_segment, null_segment, hidden_of, known_plan, data_rows, data_plan, stack_rows, stack_plan, load_data_plan, load_stack_plan, load_plan, answered};

use crate::descriptors::{
    dpl, fetch_descriptor, is_beyond, is_data, is_present, is_readable_code, is_writable_data,
};
use crate::marks::set_accessed;
use crate::selectors::{fault_at, is_null, rpl};
use mdl_cpu::Desc;
use mdl_state::{Fault, Hidden, Regs, Seg};
use mem_iface::Linear;
use seg_unit::{segment, set_segment};

/// The vector of a segment that is not present.
const NOT_PRESENT: u8 = 11;

/// The vector of a fault of the stack segment.
const STACK_FAULT: u8 = 12;

/// The vector of a general protection fault.
const GENERAL_PROTECTION: u8 = 13;

/// PE of CR0.
const PROTECTION: u32 = 0x1;

/// VM of EFLAGS.
const VIRTUAL_8086: u32 = 0x2_0000;

/// The limit of each segment in V86.
const VIRTUAL_LIMIT: u32 = 0xFFFF;

/// The rights of each: data of level 3 that was accessed and may be written.
const VIRTUAL_RIGHTS: u16 = 0xF3;

/// Protected mode, with V86 in it.
pub fn has_protection(regs: &Regs) -> bool
    ensures { result ≡ has_protection regs.now }
{
    regs.cr0 / PROTECTION % 2 == 1
}

/// V86.
pub fn is_virtual(regs: &Regs) -> bool
    ensures { result ≡ is_virtual regs.now }
{
    regs.eflags / VIRTUAL_8086 % 2 == 1
}

/// A segment register with this hidden part.
#[tactic(auto, unfolding(mdl_state::specs::Registers::with_seg))]
fn put(regs: &mut Regs, seg: Seg, hidden: Hidden)
    ensures set { regs.new ≡ with_seg regs.old seg hidden }
    ensures steady { Steady regs.old regs.new }
{
    set_segment(regs, seg, hidden);
}

/// The base of the segment that a selector says by itself.
fn paragraph(sel: u16) -> u32
    ensures { result ≡ 16 * sel }
{
    16 * sel as u32
}

/// The load of real mode, of any segment register: the base alone.
#[tactic(auto, unfolding(mdl_cpu::specs::Loads::with_selector))]
pub fn load_real(regs: &mut Regs, seg: Seg, sel: u16)
    ensures load { regs.new ≡ with_selector regs.old seg sel }
    ensures steady { Steady regs.old regs.new }
{
    let hidden = Hidden {
        sel,
        base: paragraph(sel),
        ..segment(regs, seg)
    };
    put(regs, seg, hidden);
}

/// What a register has by a selector in V86.
pub fn virtual_segment(sel: u16) -> Hidden
    ensures { result ≡ virtual_segment sel }
{
    Hidden {
        sel,
        base: paragraph(sel),
        limit: VIRTUAL_LIMIT,
        rights: VIRTUAL_RIGHTS,
    }
}

/// The load of V86, of any segment register.
pub fn load_v86(regs: &mut Regs, seg: Seg, sel: u16)
    ensures load { regs.new ≡ with_seg regs.old seg (virtual_segment sel) }
    ensures steady { Steady regs.old regs.new }
{
    put(regs, seg, virtual_segment(sel));
}

/// What a register has by a null selector.
pub fn null_segment(sel: u16) -> Hidden
    ensures { result ≡ null_segment sel }
{
    Hidden {
        sel,
        base: 0,
        limit: 0,
        rights: 0,
    }
}

/// What a register has by a descriptor.
pub fn hidden_of(sel: u16, desc: &Desc) -> Hidden
    ensures { result ≡ hidden_of sel desc.now }
{
    Hidden {
        sel,
        base: desc.base,
        limit: desc.limit,
        rights: desc.rights,
    }
}

/// A segment whose descriptor was read and tested: its accessed bit is set, and it is put in place.
#[tactic(auto, using(mdl_state::specs::Rules::attempts), unfolding(mdl_cpu::specs::Loads::known_plan))]
pub fn load_known<L: Linear>(
    regs: &mut Regs,
    lin: &mut L,
    seg: Seg,
    sel: u16,
    desc: Desc,
) -> Result<(), Fault>
    requires room { HasRoom (L.seen lin.old) 1 }
    ensures run { (answered result regs.new, L.seen lin.new) ≡ tried (by_pick L.pick) 0 (known_plan regs.old seg sel desc) (L.seen lin.old) }
    ensures unchanged { OnErr result (regs.new ≡ regs.old) }
    ensures room { length (L.seen lin.new).held ≤ length (L.seen lin.old).held + 1 }
    ensures keeps { Keeps (L.seen lin.old) (L.seen lin.new) }
    ensures steady { Steady regs.old regs.new }
{
    set_accessed(lin, &desc)?;
    put(regs, seg, hidden_of(sel, &desc));
    Ok(())
}

/// The rows of the descriptor of DS, ES, FS or GS.
fn data_rows(desc: &Desc, sel: u16, cpl: u8, wrong: u8) -> Result<(), Fault>
    ensures { result ≡ first_of (data_rows wrong cpl sel desc.now) }
{
    if !(is_data(desc) || is_readable_code(desc)) {
        return Err(fault_at(wrong, sel));
    }
    if is_beyond(desc, sel, cpl) {
        return Err(fault_at(wrong, sel));
    }
    if !is_present(desc) {
        return Err(fault_at(NOT_PRESENT, sel));
    }
    Ok(())
}

/// DS, ES, FS or GS in protected mode, with the vector of a wrong selector.
#[tactic(auto, using(mdl_state::specs::Rules::attempts), unfolding(mdl_cpu::specs::Loads::data_plan))]
pub fn load_data_or<L: Linear>(
    regs: &mut Regs,
    lin: &mut L,
    seg: Seg,
    sel: u16,
    wrong: u8,
) -> Result<(), Fault>
    requires room { HasRoom (L.seen lin.old) 1 }
    ensures run { (answered result regs.new, L.seen lin.new) ≡ tried (by_pick L.pick) 0 (data_plan wrong regs.old seg sel) (L.seen lin.old) }
    ensures unchanged { OnErr result (regs.new ≡ regs.old) }
    ensures room { length (L.seen lin.new).held ≤ length (L.seen lin.old).held + 1 }
    ensures keeps { Keeps (L.seen lin.old) (L.seen lin.new) }
    ensures steady { Steady regs.old regs.new }
{
    if is_null(sel) {
        put(regs, seg, null_segment(sel));
        return Ok(());
    }
    let desc = fetch_descriptor(regs, lin, sel, wrong)?;
    data_rows(&desc, sel, regs.cpl, wrong)?;
    load_known(regs, lin, seg, sel, desc)
}

/// The rows of the descriptor of a stack segment of this level.
fn stack_rows(desc: &Desc, sel: u16, level: u8, wrong: u8) -> Result<(), Fault>
    ensures { result ≡ first_of (stack_rows wrong level sel desc.now) }
{
    if rpl(sel) != level {
        return Err(fault_at(wrong, sel));
    }
    if !is_writable_data(desc) {
        return Err(fault_at(wrong, sel));
    }
    if dpl(desc) != level {
        return Err(fault_at(wrong, sel));
    }
    if !is_present(desc) {
        return Err(fault_at(STACK_FAULT, sel));
    }
    Ok(())
}

/// The descriptor of a stack segment of this level, tested, with the vector of a wrong selector.
#[tactic(auto, using(mdl_state::specs::Rules::attempts), unfolding(mdl_cpu::specs::Loads::stack_plan))]
pub fn stack_descriptor<L: Linear>(
    regs: &Regs,
    lin: &mut L,
    sel: u16,
    level: u8,
    wrong: u8,
) -> Result<Desc, Fault>
    ensures run { (outcome result, L.seen lin.new) ≡ tried (by_pick L.pick) 0 (stack_plan wrong level regs.now sel) (L.seen lin.old) }
    ensures keeps { Keeps (L.seen lin.old) (L.seen lin.new) }
    ensures held { (L.seen lin.new).held ≡ (L.seen lin.old).held }
{
    if is_null(sel) {
        return Err(fault_at(wrong, 0));
    }
    let desc = fetch_descriptor(regs, lin, sel, wrong)?;
    stack_rows(&desc, sel, level, wrong)?;
    Ok(desc)
}

/// SS in protected mode.
#[tactic(auto, using(mdl_state::specs::Rules::attempts))]
fn load_protected_stack<L: Linear>(regs: &mut Regs, lin: &mut L, sel: u16) -> Result<(), Fault>
    requires room { HasRoom (L.seen lin.old) 1 }
    ensures run { (answered result regs.new, L.seen lin.new) ≡ tried (by_pick L.pick) 0 (then_plan (stack_plan 13 regs.old.cpl regs.old sel) (λ d. known_plan regs.old Ss sel d)) (L.seen lin.old) }
    ensures unchanged { OnErr result (regs.new ≡ regs.old) }
    ensures room { length (L.seen lin.new).held ≤ length (L.seen lin.old).held + 1 }
    ensures keeps { Keeps (L.seen lin.old) (L.seen lin.new) }
    ensures steady { Steady regs.old regs.new }
{
    let desc = stack_descriptor(regs, lin, sel, regs.cpl, GENERAL_PROTECTION)?;
    load_known(regs, lin, Seg::Ss, sel, desc)
}

/// DS, ES, FS or GS.
#[tactic(auto, unfolding(mdl_cpu::specs::Loads::load_data_plan))]
pub fn load_data<L: Linear>(regs: &mut Regs, lin: &mut L, seg: Seg, sel: u16) -> Result<(), Fault>
    requires room { HasRoom (L.seen lin.old) 1 }
    ensures run { (answered result regs.new, L.seen lin.new) ≡ tried (by_pick L.pick) 0 (load_data_plan regs.old seg sel) (L.seen lin.old) }
    ensures unchanged { OnErr result (regs.new ≡ regs.old) }
    ensures room { length (L.seen lin.new).held ≤ length (L.seen lin.old).held + 1 }
    ensures keeps { Keeps (L.seen lin.old) (L.seen lin.new) }
    ensures steady { Steady regs.old regs.new }
{
    if !has_protection(regs) {
        load_real(regs, seg, sel);
        return Ok(());
    }
    if is_virtual(regs) {
        load_v86(regs, seg, sel);
        return Ok(());
    }
    load_data_or(regs, lin, seg, sel, GENERAL_PROTECTION)
}

/// SS.
#[tactic(auto, unfolding(mdl_cpu::specs::Loads::load_stack_plan))]
pub fn load_stack<L: Linear>(regs: &mut Regs, lin: &mut L, sel: u16) -> Result<(), Fault>
    requires room { HasRoom (L.seen lin.old) 1 }
    ensures run { (answered result regs.new, L.seen lin.new) ≡ tried (by_pick L.pick) 0 (load_stack_plan regs.old sel) (L.seen lin.old) }
    ensures unchanged { OnErr result (regs.new ≡ regs.old) }
    ensures room { length (L.seen lin.new).held ≤ length (L.seen lin.old).held + 1 }
    ensures keeps { Keeps (L.seen lin.old) (L.seen lin.new) }
    ensures steady { Steady regs.old regs.new }
{
    if !has_protection(regs) {
        load_real(regs, Seg::Ss, sel);
        return Ok(());
    }
    if is_virtual(regs) {
        load_v86(regs, Seg::Ss, sel);
        return Ok(());
    }
    load_protected_stack(regs, lin, sel)
}

/// A segment register by an instruction: any but CS.
#[tactic(auto, unfolding(mdl_cpu::specs::Loads::load_plan))]
pub fn load_segment<L: Linear>(
    regs: &mut Regs,
    lin: &mut L,
    seg: Seg,
    sel: u16,
) -> Result<(), Fault>
    requires room { HasRoom (L.seen lin.old) 1 }
    ensures run { (answered result regs.new, L.seen lin.new) ≡ tried (by_pick L.pick) 0 (load_plan regs.old seg sel) (L.seen lin.old) }
    ensures unchanged { OnErr result (regs.new ≡ regs.old) }
    ensures room { length (L.seen lin.new).held ≤ length (L.seen lin.old).held + 1 }
    ensures keeps { Keeps (L.seen lin.old) (L.seen lin.new) }
    ensures steady { Steady regs.old regs.new }
{
    match seg {
        Seg::Ss => load_stack(regs, lin, sel),
        _ => load_data(regs, lin, seg, sel),
    }
}
