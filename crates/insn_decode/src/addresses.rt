//! The ModRM byte, the SIB byte and the displacement.

ghost use Rattle.std.specs.Prelude.{◌≡◌, ◌≤◌, ◌<◌, ◌==◌, ◌&&◌, ◌^◌, ◌*◌, IfOk, true, false};
ghost use Rattle.mdl_insn.specs.Tree.{number_tree};
ghost use Rattle.mdl_insn.specs.Addresses as spec;
ghost use Rattle.insn_decode.specs.Reading.{Runs, left, mem_tree, mem_at_tree};

use crate::bytes::{number_1, number_2, number_4};
use crate::refusals::Undecoded;
use mdl_insn::rows::Setting;
use mdl_insn::{Fetch, Mem, Operand};
use mdl_state::{Seg, Size};

#[inline(always)]
pub fn mod_of(m: u8) -> u8
    ensures { result ≡ spec.mod_of m }
{
    m / 64
}

#[inline(always)]
pub fn reg_of(m: u8) -> u8
    ensures { result ≡ spec.reg_of m }
{
    m / 8 % 8
}

#[inline(always)]
pub fn rm_of(m: u8) -> u8
    ensures { result ≡ spec.rm_of m }
{
    m % 8
}

/// A number below twice `half`, with its sign carried on to numbers below `top`.
#[inline(always)]
pub fn extend(half: u64, top: u64, x: u64) -> u64
    requires half { 2 * half ≤ top }
    requires top { top < 2 ^ 48 }
    requires x { x < 2 ^ 48 }
    ensures { result ≡ spec.extend half top x }
{
    if x < half { x } else { x + (top - 2 * half) }
}

/// The bytes that tell a memory operand, and the address size that they are read with.
#[derive(Clone, Copy)]
struct Fields {
    wide: bool,
    modrm: u8,
    sib: u8,
}

/// The rm field, or the base field of the SIB byte in its place.
#[inline(always)]
fn base_field(fields: Fields) -> u8
    ensures { result ≡ spec.base_field fields.wide fields.modrm fields.sib }
{
    if fields.wide && rm_of(fields.modrm) == 4 {
        fields.sib % 8
    } else {
        rm_of(fields.modrm)
    }
}

/// The base that gives way to a displacement where mod is 0.
#[inline(always)]
fn no_base(wide: bool) -> u8
    ensures { result ≡ spec.no_base wide }
{
    if wide { 5 } else { 6 }
}

#[inline(always)]
fn base_16(rm: u8) -> Option<u8>
    requires { rm < 8 }
    ensures { result ≡ spec.base_16 rm }
{
    match rm {
        0 | 1 => Some(3),
        2 | 3 => Some(5),
        4 => Some(6),
        5 => Some(7),
        6 => Some(5),
        _ => Some(3),
    }
}

#[inline(always)]
fn index_16(rm: u8) -> Option<u8>
    requires { rm < 8 }
    ensures { result ≡ spec.index_16 rm }
{
    if rm < 4 { Some(6 + rm % 2) } else { None }
}

#[inline(always)]
fn base(fields: Fields) -> Option<u8>
    ensures { result ≡ spec.base_of fields.wide fields.modrm fields.sib }
{
    if mod_of(fields.modrm) == 0 && base_field(fields) == no_base(fields.wide) {
        None
    } else if fields.wide {
        Some(base_field(fields))
    } else {
        base_16(rm_of(fields.modrm))
    }
}

#[inline(always)]
fn has_index(fields: Fields) -> bool
    ensures { result ≡ spec.has_index fields.modrm fields.sib }
{
    rm_of(fields.modrm) == 4 && fields.sib / 8 % 8 != 4
}

#[inline(always)]
fn index(fields: Fields) -> Option<u8>
    ensures { result ≡ spec.index_of fields.wide fields.modrm fields.sib }
{
    if fields.wide {
        if has_index(fields) {
            Some(fields.sib / 8 % 8)
        } else {
            None
        }
    } else {
        index_16(rm_of(fields.modrm))
    }
}

#[inline(always)]
fn power(n: u8) -> u8
    ensures { result ≡ spec.power n }
{
    match n {
        0 => 1,
        1 => 2,
        2 => 4,
        _ => 8,
    }
}

#[inline(always)]
fn scale(fields: Fields) -> u8
    ensures { result ≡ spec.scale_of fields.wide fields.modrm fields.sib }
{
    if fields.wide && has_index(fields) {
        power(fields.sib / 64)
    } else {
        1
    }
}

#[inline(always)]
fn default_seg(wide: bool, base: Option<u8>) -> Seg
    ensures { result ≡ spec.default_seg wide base }
{
    match base {
        None => Seg::Ds,
        Some(r) => {
            if r == 5 || (wide && r == 4) {
                Seg::Ss
            } else {
                Seg::Ds
            }
        }
    }
}

/// A displacement of one byte is signed.
#[inline(always)]
fn signed_disp(fields: Fields, disp: u32) -> u32
    requires { spec.mod_of fields.modrm ≡ 1 → disp < 256 }
    ensures { result ≡ spec.disp_of fields.wide fields.modrm disp }
{
    if mod_of(fields.modrm) == 1 {
        let top = if fields.wide { 0x1_0000_0000 } else { 0x1_0000 };
        extend(0x80, top, disp as u64) as u32
    } else {
        disp
    }
}

#[inline(always)]
fn mem_of(s: &Setting, fields: Fields, disp: u32) -> Mem
    requires wide { fields.wide ≡ s.now.wide }
    requires disp { spec.mod_of fields.modrm ≡ 1 → disp < 256 }
    ensures { result ≡ spec.mem_of s.now fields.modrm fields.sib disp }
{
    let base = base(fields);
    Mem {
        seg: s.over.unwrap_or(default_seg(fields.wide, base)),
        base,
        index: index(fields),
        scale: scale(fields),
        disp: signed_disp(fields, disp),
        wide: fields.wide,
    }
}

/// The number in the displacement, which is 0 where there is none.
#[tactic(auto, using(crate::proofs::Running::number_none))]
#[inline(always)]
fn displacement<F: Fetch>(fetch: &mut F, count: &mut u8, fields: Fields) -> Result<u64, Undecoded>
    requires { count.old ≤ 15 }
    ensures runs { Runs F.gives (number_tree (spec.plain_disp fields.wide fields.modrm (spec.base_field fields.wide fields.modrm fields.sib))) count.old fetch.old result count.new fetch.new }
    ensures fits { IfOk result (λ v. v < 2 ^ 32) }
    ensures byte { spec.mod_of fields.modrm ≡ 1 → IfOk result (λ v. v < 256) }
    ensures count { count.new ≤ 15 }
{
    if mod_of(fields.modrm) == 1 {
        number_1(fetch, count)
    } else if mod_of(fields.modrm) == 2 || base_field(fields) == no_base(fields.wide) {
        if fields.wide {
            number_4(fetch, count)
        } else {
            number_2(fetch, count)
        }
    } else {
        Ok(0)
    }
}

/// The displacement, and the memory operand.
#[tactic(auto, using(crate::proofs::Running::runs_err, crate::proofs::Running::runs_ok), unfolding(crate::specs::Reading::Runs, crate::specs::Reading::mem_at_tree))]
#[inline(always)]
fn mem_at<F: Fetch>(
    fetch: &mut F,
    count: &mut u8,
    s: &Setting,
    fields: Fields,
    size: Size,
    to: &mut Operand,
) -> Result<(), Undecoded>
    requires room { count.old ≤ 15 }
    requires wide { fields.wide ≡ s.now.wide }
    ensures runs { Runs F.gives (mem_at_tree s.now fields.modrm fields.sib size) count.old fetch.old (left result to.new) count.new fetch.new }
    ensures count { count.new ≤ 15 }
{
    let disp = displacement(fetch, count, fields)? as u32;
    *to = Operand::At(mem_of(s, fields, disp), size);
    Ok(())
}

/// The bytes and the memory operand that a ModRM byte below C0 asks for.
///
/// Each of the three ways has the address size as a constant, so that most of it folds.
#[tactic(auto, using(crate::proofs::Placing::mem_sib, crate::proofs::Placing::mem_sib_err, crate::proofs::Placing::mem_none))]
#[inline(never)]
pub fn mem<F: Fetch>(
    fetch: &mut F,
    count: &mut u8,
    s: &Setting,
    modrm: u8,
    size: Size,
    to: &mut Operand,
) -> Result<(), Undecoded>
    requires room { count.old ≤ 15 }
    ensures runs { Runs F.gives (mem_tree s.now modrm size) count.old fetch.old (left result to.new) count.new fetch.new }
    ensures count { count.new ≤ 15 }
{
    if !s.wide {
        let fields = Fields {
            wide: false,
            modrm,
            sib: 0,
        };
        mem_at(fetch, count, s, fields, size, to)
    } else if rm_of(modrm) != 4 {
        let fields = Fields {
            wide: true,
            modrm,
            sib: 0,
        };
        mem_at(fetch, count, s, fields, size, to)
    } else {
        let sib = number_1(fetch, count)? as u8;
        let fields = Fields {
            wide: true,
            modrm,
            sib,
        };
        mem_at(fetch, count, s, fields, size, to)
    }
}
