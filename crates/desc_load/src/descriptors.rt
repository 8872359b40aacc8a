//! Descriptors: where they lie, what they say, and how they are read.

ghost use Rattle.std.specs.Prelude.{◌≡◌, ◌≤◌};
ghost use Rattle.mdl_state.specs.Bytes.{bit};
ghost use Rattle.mdl_state.specs.Serving.{by_pick, outcome};
ghost use Rattle.mdl_state.specs.Accesses.{Keeps};
ghost use Rattle.mdl_state.specs.Attempt.{tried};
ghost use Rattle.mdl_cpu.specs.Descriptors.{is_outside, place_of, limit_of, base_of, rights_of, unpack, is_present, dpl, is_segment, is_code, is_conforming, is_readable_code, is_data, is_writable_data, system_type, is_beyond, descriptor_at, descriptor_plan};

use crate::selectors::{fault_at, in_ldt, rpl, table_offset};
use mdl_cpu::Desc;
use mdl_state::{Fault, Regs, Size, Who};
use mem_iface::Linear;

/// The last byte of a descriptor lies so many bytes behind its first.
const LAST: u32 = 7;

/// The high doubleword lies so many bytes behind the low one.
const HIGH: u32 = 4;

/// G, in the high doubleword.
const GRANULARITY: u32 = 0x80_0000;

/// P of the access byte.
const PRESENT: u16 = 0x80;

/// S: a segment of code or data.
const SEGMENT: u16 = 0x10;

/// Bit 3 of the type of a segment: code, and not data.
const CODE: u16 = 0x8;

/// Bit 2 of the type of code.
const CONFORMING: u16 = 0x4;

/// Bit 1 of the type of a segment: code can be read, data can be written.
const READABLE_OR_WRITABLE: u16 = 0x2;

/// The descriptor of the selector lies past its table.
#[tactic(auto, unfolding(mdl_cpu::specs::Descriptors::is_outside))]
pub fn is_outside(regs: &Regs, sel: u16) -> bool
    ensures { result ≡ is_outside regs.now sel }
{
    let last = table_offset(sel) + LAST;
    if in_ldt(sel) {
        regs.ldtr.rights == 0 || regs.ldtr.limit < last
    } else {
        (regs.gdt_limit as u32) < last
    }
}

/// The linear address of the descriptor of the selector.
#[tactic(auto, unfolding(mdl_cpu::specs::Descriptors::place_of))]
pub fn place_of(regs: &Regs, sel: u16) -> u32
    ensures { result ≡ place_of regs.now sel }
{
    let base = if in_ldt(sel) {
        regs.ldtr.base
    } else {
        regs.gdt_base
    };
    base.wrapping_add(table_offset(sel))
}

/// The limit in bytes.
fn limit_of(low: u32, high: u32) -> u32
    ensures { result ≡ limit_of low high }
{
    let raw = low % 0x1_0000 + 0x1_0000 * (high / 0x1_0000 % 0x10);
    if high / GRANULARITY % 2 == 1 {
        raw * 0x1000 + 0xFFF
    } else {
        raw
    }
}

fn base_of(low: u32, high: u32) -> u32
    ensures { result ≡ base_of low high }
{
    low / 0x1_0000 + 0x1_0000 * (high % 0x100) + 0x100_0000 * (high / 0x100_0000)
}

/// The access byte, with D or B and G at bits 14 and 15.
fn rights_of(high: u32) -> u16
    ensures { result ≡ rights_of high }
{
    (high / 0x100 % 0x100 + 0x4000 * (high / 0x40_0000 % 4)) as u16
}

/// The parts of the descriptor that two doublewords are.
#[tactic(auto, unfolding(mdl_cpu::specs::Descriptors::unpack))]
fn unpack(at: u32, low: u32, high: u32) -> Desc
    ensures { result ≡ unpack at low high }
{
    Desc {
        low,
        high,
        at,
        base: base_of(low, high),
        limit: limit_of(low, high),
        rights: rights_of(high),
    }
}

/// The descriptor at a linear address, as a gate of the IDT is read too.
#[tactic(auto, unfolding(mdl_cpu::specs::Descriptors::descriptor_at))]
pub fn read_descriptor<L: Linear>(lin: &mut L, at: u32) -> Result<Desc, Fault>
    ensures run { (outcome result, L.seen lin.new) ≡ tried (by_pick L.pick) 0 (descriptor_at at) (L.seen lin.old) }
    ensures keeps { Keeps (L.seen lin.old) (L.seen lin.new) }
    ensures held { (L.seen lin.new).held ≡ (L.seen lin.old).held }
{
    let low = lin.read(at, Size::B4, Who::Tables)?;
    let high = lin.read(at.wrapping_add(HIGH), Size::B4, Who::Tables)?;
    Ok(unpack(at, low, high))
}

/// The descriptor of a selector that is not null, with the vector of a selector past its table.
#[tactic(auto, unfolding(mdl_cpu::specs::Descriptors::descriptor_plan))]
pub fn fetch_descriptor<L: Linear>(
    regs: &Regs,
    lin: &mut L,
    sel: u16,
    wrong: u8,
) -> Result<Desc, Fault>
    ensures run { (outcome result, L.seen lin.new) ≡ tried (by_pick L.pick) 0 (descriptor_plan regs.now sel wrong) (L.seen lin.old) }
    ensures keeps { Keeps (L.seen lin.old) (L.seen lin.new) }
    ensures held { (L.seen lin.new).held ≡ (L.seen lin.old).held }
{
    if is_outside(regs, sel) {
        return Err(fault_at(wrong, sel));
    }
    read_descriptor(lin, place_of(regs, sel))
}

/// P.
pub fn is_present(desc: &Desc) -> bool
    ensures { result ≡ is_present desc.now }
{
    desc.rights / PRESENT % 2 == 1
}

/// The descriptor's privilege level.
pub fn dpl(desc: &Desc) -> u8
    ensures level { result ≡ dpl desc.now }
    ensures bound { result ≤ 3 }
{
    (desc.rights / 0x20 % 4) as u8
}

/// A segment of code or data.
pub fn is_segment(desc: &Desc) -> bool
    ensures { result ≡ is_segment desc.now }
{
    desc.rights / SEGMENT % 2 == 1
}

/// Bit 3 of the type.
fn has_code_bit(desc: &Desc) -> bool
    ensures { result ≡ bit desc.now.rights 3 }
{
    desc.rights / CODE % 2 == 1
}

/// Bit 1 of the type.
fn is_readable_or_writable(desc: &Desc) -> bool
    ensures { result ≡ bit desc.now.rights 1 }
{
    desc.rights / READABLE_OR_WRITABLE % 2 == 1
}

/// Code.
pub fn is_code(desc: &Desc) -> bool
    ensures { result ≡ is_code desc.now }
{
    is_segment(desc) && has_code_bit(desc)
}

/// Code that runs at the level of who comes to it.
pub fn is_conforming(desc: &Desc) -> bool
    ensures { result ≡ is_conforming desc.now }
{
    is_code(desc) && desc.rights / CONFORMING % 2 == 1
}

/// Code that may be read as data.
pub fn is_readable_code(desc: &Desc) -> bool
    ensures { result ≡ is_readable_code desc.now }
{
    is_code(desc) && is_readable_or_writable(desc)
}

/// Data.
pub fn is_data(desc: &Desc) -> bool
    ensures { result ≡ is_data desc.now }
{
    is_segment(desc) && !has_code_bit(desc)
}

/// Data that may be written.
pub fn is_writable_data(desc: &Desc) -> bool
    ensures { result ≡ is_writable_data desc.now }
{
    is_data(desc) && is_readable_or_writable(desc)
}

/// The type of a descriptor of the system, or 0.
pub fn system_type(desc: &Desc) -> u8
    ensures { result ≡ system_type desc.now }
{
    if is_segment(desc) {
        0
    } else {
        (desc.rights % 0x10) as u8
    }
}

/// DPL is below the greater of CPL and RPL, and it is no conforming code.
pub fn is_beyond(desc: &Desc, sel: u16, cpl: u8) -> bool
    ensures { result ≡ is_beyond cpl sel desc.now }
{
    !is_conforming(desc) && dpl(desc) < cpl.max(rpl(sel))
}
