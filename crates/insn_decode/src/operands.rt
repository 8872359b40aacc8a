//! The operands of a row, written in place.

ghost use Rattle.std.specs.Prelude.{◌≡◌, ◌≤◌, ◌<◌, ◌/◌, ◌%◌, ◌*◌, ◌||◌, true, false};
ghost use Rattle.mdl_insn.specs.declared.instruction.Operand.TheVariants as operand;
ghost use Rattle.mdl_state.specs.Bytes.{bound_of};
ghost use Rattle.mdl_insn.specs.Addresses.{may_address as may_address_of, extend as extend_of, address_size};
ghost use Rattle.mdl_insn.specs.Operands as spec;
ghost use Rattle.mdl_insn.specs.Fits.{has_own};
ghost use Rattle.insn_decode.specs.Reading.{Runs, left, e_size, is_immediate};
ghost use Rattle.mdl_insn.specs.RowTree.{place_of};
ghost use Rattle.insn_decode.specs.Selection.{chosen_by, operand_tree};
ghost use Rattle.insn_decode.specs.Shapes.{is_number, is_distance};

use crate::addresses::{extend, mem, mod_of, reg_of, rm_of};
use crate::bytes::{far_number, number_1, number_2, number_of};
use crate::legality::may_address;
use crate::refusals::Undecoded;
use mdl_insn::rows::{Form, Row, Setting};
use mdl_insn::{Fetch, Mem, Operand};
use mdl_state::{Seg, Size};

/// A row, the setting that it is read with, and the bytes that chose it.
#[derive(Clone, Copy)]
pub struct Selected<'a> {
    pub setting: &'a Setting,
    pub row: &'a Row,
    pub opcode: u8,
    pub modrm: u8,
}

/// The size of a register or memory by the ModRM byte.
#[inline(always)]
fn size_e(s: &Setting, form: Form) -> Size
    ensures { result ≡ e_size s.now form }
{
    match form {
        Form::Eb => Size::B1,
        Form::Ew => Size::B2,
        _ => s.size,
    }
}

/// A register or memory by the ModRM byte.
#[tactic(auto, using(crate::proofs::Running::runs_err, crate::proofs::Running::runs_ok, crate::proofs::Placing::e_register, crate::proofs::Placing::e_memory), unfolding(crate::specs::Reading::Runs))]
#[inline(always)]
pub fn modrm<F: Fetch>(
    fetch: &mut F,
    count: &mut u8,
    k: &Selected,
    form: Form,
    to: &mut Operand,
) -> Result<(), Undecoded>
    requires room { count.old ≤ 15 }
    requires form { may_address_of form ≡ true }
    requires row { (may_address_of k.now.row.now.a || may_address_of k.now.row.now.b) ≡ true }
    ensures runs { Runs F.gives (operand_tree k.now form) count.old fetch.old (left result to.new) count.new fetch.new }
    ensures count { count.new ≤ 15 }
{
    let size = size_e(k.setting, form);
    if mod_of(k.modrm) == 3 {
        *to = Operand::Gpr(rm_of(k.modrm), size);
        Ok(())
    } else {
        mem(fetch, count, k.setting, k.modrm, size, to)
    }
}

#[inline(always)]
fn far(size: Size, x: u64) -> Operand
    requires { x < 0x10000 * bound_of size }
    ensures { result ≡ operand.Far (x / bound_of size) (x % bound_of size) }
{
    match size {
        Size::B1 => Operand::Far((x / 0x100) as u16, (x % 0x100) as u32),
        Size::B2 => Operand::Far((x / 0x1_0000) as u16, (x % 0x1_0000) as u32),
        Size::B4 => Operand::Far((x / 0x1_0000_0000) as u16, (x % 0x1_0000_0000) as u32),
    }
}

#[inline(always)]
fn immediate(size: Size, x: u64) -> Operand
    requires { x < bound_of size }
    ensures { result ≡ operand.Imm x size }
{
    match size {
        Size::B1 => Operand::Imm(x as u32, size),
        Size::B2 => Operand::Imm(x as u32, size),
        Size::B4 => Operand::Imm(x as u32, size),
    }
}

#[inline(always)]
fn relative(size: Size, x: u64) -> Operand
    requires { x < bound_of size }
    ensures { result ≡ operand.Rel (extend_of (bound_of size / 2) 0x100000000 x) }
{
    match size {
        Size::B1 => Operand::Rel(extend(0x80, 0x1_0000_0000, x) as u32),
        Size::B2 => Operand::Rel(extend(0x8000, 0x1_0000_0000, x) as u32),
        Size::B4 => Operand::Rel(extend(0x8000_0000, 0x1_0000_0000, x) as u32),
    }
}

/// A byte with its sign carried on.
#[inline(always)]
fn signed(size: Size, x: u64) -> Operand
    requires { x < 256 }
    ensures { result ≡ operand.Imm (extend_of 0x80 (bound_of size) x) size }
{
    match size {
        Size::B1 => Operand::Imm(extend(0x80, 0x100, x) as u32, size),
        Size::B2 => Operand::Imm(extend(0x80, 0x1_0000, x) as u32, size),
        Size::B4 => Operand::Imm(extend(0x80, 0x1_0000_0000, x) as u32, size),
    }
}

#[inline(always)]
fn size_of_address(wide: bool) -> Size
    ensures { result ≡ address_size wide }
{
    if wide { Size::B4 } else { Size::B2 }
}

/// Memory at an offset alone.
#[inline(always)]
fn offset(s: &Setting, x: u64, size: Size) -> Operand
    requires { x < bound_of (address_size s.now.wide) }
    ensures { result ≡ operand.At (spec.offset_mem s.now x) size }
{
    let disp = if s.wide { x as u32 } else { x as u32 };
    let mem = Mem {
        seg: s.over.unwrap_or(Seg::Ds),
        base: None,
        index: None,
        scale: 1,
        disp,
        wide: s.wide,
    };
    Operand::At(mem, size)
}

/// The segment register with this number.
#[inline(always)]
fn seg_at(n: u8) -> Seg
    ensures { result ≡ spec.seg_at n }
{
    match n {
        0 => Seg::Es,
        1 => Seg::Cs,
        2 => Seg::Ss,
        3 => Seg::Ds,
        4 => Seg::Fs,
        _ => Seg::Gs,
    }
}

/// An operand that is told by the bytes that chose the row.
#[inline(always)]
fn fixed(k: &Selected, form: Form, to: &mut Operand)
    requires form { may_address_of form ≡ false }
    requires own { has_own form ≡ false }
    ensures { to.new ≡ spec.operand k.now.setting.now (place_of k.now.setting.now (chosen_by k.now) 0 0) form 0 }
{
    match form {
        Form::Eb | Form::Ev | Form::Ew | Form::M => (),
        Form::Ib
        | Form::Iv
        | Form::Iw
        | Form::Is
        | Form::Jb
        | Form::Jv
        | Form::Ob
        | Form::Ov
        | Form::P => (),
        Form::No => *to = Operand::Nothing,
        Form::Gb => *to = Operand::Gpr(reg_of(k.modrm), Size::B1),
        Form::Gv => *to = Operand::Gpr(reg_of(k.modrm), k.setting.size),
        Form::Gw => *to = Operand::Gpr(reg_of(k.modrm), Size::B2),
        Form::S | Form::Sd => *to = Operand::Sreg(seg_at(reg_of(k.modrm))),
        Form::Rb => *to = Operand::Gpr(k.opcode % 8, Size::B1),
        Form::Rv => *to = Operand::Gpr(k.opcode % 8, k.setting.size),
        Form::Al => *to = Operand::Gpr(0, Size::B1),
        Form::Ax => *to = Operand::Gpr(0, k.setting.size),
        Form::Cl => *to = Operand::Gpr(1, Size::B1),
        Form::Dx => *to = Operand::Gpr(2, Size::B2),
        Form::Once => *to = Operand::Imm(1, Size::B1),
        Form::Cd => *to = Operand::Creg(reg_of(k.modrm)),
        Form::Dd => *to = Operand::Dreg(reg_of(k.modrm)),
        Form::Rd => *to = Operand::Gpr(rm_of(k.modrm), Size::B4),
        Form::Escape => *to = Operand::Imm(
            u32::from(8 * (k.opcode % 8) + reg_of(k.modrm)),
            Size::B1,
        ),
        Form::Es => *to = Operand::Sreg(Seg::Es),
        Form::Cs => *to = Operand::Sreg(Seg::Cs),
        Form::Ss => *to = Operand::Sreg(Seg::Ss),
        Form::Ds => *to = Operand::Sreg(Seg::Ds),
        Form::Fs => *to = Operand::Sreg(Seg::Fs),
        Form::Gs => *to = Operand::Sreg(Seg::Gs),
    }
}

/// A number behind the opcode or the address.
#[tactic(auto, using(crate::proofs::Running::runs_err, crate::proofs::Running::runs_ok, crate::proofs::Placing::own_ok, crate::proofs::Placing::own_err, crate::proofs::Placing::own_fixed), unfolding(crate::specs::Reading::Runs))]
#[inline(always)]
pub(crate) fn number<F: Fetch>(
    fetch: &mut F,
    count: &mut u8,
    k: &Selected,
    form: Form,
    to: &mut Operand,
) -> Result<(), Undecoded>
    requires room { count.old ≤ 15 }
    requires form { is_number form ≡ true }
    ensures runs { Runs F.gives (operand_tree k.now form) count.old fetch.old (left result to.new) count.new fetch.new }
    ensures count { count.new ≤ 15 }
{
    match form {
        Form::Ib => {
            let x = number_1(fetch, count)?;
            *to = immediate(Size::B1, x);
            Ok(())
        }
        Form::Is => {
            let x = number_1(fetch, count)?;
            *to = signed(k.setting.size, x);
            Ok(())
        }
        Form::Iv => {
            let x = number_of(fetch, count, k.setting.size)?;
            *to = immediate(k.setting.size, x);
            Ok(())
        }
        _ => Err(Undecoded::Undefined),
    }
}

/// The distance of a branch.
#[tactic(auto, using(crate::proofs::Running::runs_err, crate::proofs::Running::runs_ok, crate::proofs::Placing::own_ok, crate::proofs::Placing::own_err, crate::proofs::Placing::own_fixed), unfolding(crate::specs::Reading::Runs))]
#[inline(always)]
pub(crate) fn distance<F: Fetch>(
    fetch: &mut F,
    count: &mut u8,
    k: &Selected,
    form: Form,
    to: &mut Operand,
) -> Result<(), Undecoded>
    requires room { count.old ≤ 15 }
    requires form { is_distance form ≡ true }
    ensures runs { Runs F.gives (operand_tree k.now form) count.old fetch.old (left result to.new) count.new fetch.new }
    ensures count { count.new ≤ 15 }
{
    match form {
        Form::Jb => {
            let x = number_1(fetch, count)?;
            *to = Operand::Rel(extend(0x80, 0x1_0000_0000, x) as u32);
            Ok(())
        }
        Form::Jv => {
            let x = number_of(fetch, count, k.setting.size)?;
            *to = relative(k.setting.size, x);
            Ok(())
        }
        _ => Err(Undecoded::Undefined),
    }
}

/// A branch, a far pointer or memory at an offset, else an operand that the bytes in front tell.
#[tactic(auto, using(crate::proofs::Running::runs_err, crate::proofs::Running::runs_ok, crate::proofs::Placing::own_ok, crate::proofs::Placing::own_err, crate::proofs::Placing::own_fixed), unfolding(crate::specs::Reading::Runs))]
#[inline(never)]
fn target<F: Fetch>(
    fetch: &mut F,
    count: &mut u8,
    k: &Selected,
    form: Form,
    to: &mut Operand,
) -> Result<(), Undecoded>
    requires room { count.old ≤ 15 }
    requires form { may_address_of form ≡ false }
    requires immediate { is_immediate form ≡ false }
    ensures runs { Runs F.gives (operand_tree k.now form) count.old fetch.old (left result to.new) count.new fetch.new }
    ensures count { count.new ≤ 15 }
{
    match form {
        Form::Jb | Form::Jv => distance(fetch, count, k, form, to),
        Form::Ob => {
            let x = number_of(fetch, count, size_of_address(k.setting.wide))?;
            *to = offset(k.setting, x, Size::B1);
            Ok(())
        }
        Form::Ov => {
            let x = number_of(fetch, count, size_of_address(k.setting.wide))?;
            *to = offset(k.setting, x, k.setting.size);
            Ok(())
        }
        Form::P => {
            let x = far_number(fetch, count, k.setting.size)?;
            *to = far(k.setting.size, x);
            Ok(())
        }
        _ => {
            fixed(k, form, to);
            Ok(())
        }
    }
}

/// An operand with no memory by the ModRM byte.
#[tactic(auto, using(crate::proofs::Running::runs_err, crate::proofs::Running::runs_ok, crate::proofs::Placing::own_ok, crate::proofs::Placing::own_err, crate::proofs::Placing::own_fixed), unfolding(crate::specs::Reading::Runs))]
#[inline(always)]
fn own<F: Fetch>(
    fetch: &mut F,
    count: &mut u8,
    k: &Selected,
    form: Form,
    to: &mut Operand,
) -> Result<(), Undecoded>
    requires room { count.old ≤ 15 }
    requires form { may_address_of form ≡ false }
    ensures runs { Runs F.gives (operand_tree k.now form) count.old fetch.old (left result to.new) count.new fetch.new }
    ensures count { count.new ≤ 15 }
{
    match form {
        Form::Ib | Form::Is | Form::Iv => number(fetch, count, k, form, to),
        Form::Iw => {
            let x = number_2(fetch, count)?;
            *to = immediate(Size::B2, x);
            Ok(())
        }
        _ => target(fetch, count, k, form, to),
    }
}

/// The same, out of line.
#[inline(never)]
pub(crate) fn own_any<F: Fetch>(
    fetch: &mut F,
    count: &mut u8,
    k: &Selected,
    form: Form,
    to: &mut Operand,
) -> Result<(), Undecoded>
    requires room { count.old ≤ 15 }
    requires form { may_address_of form ≡ false }
    ensures runs { Runs F.gives (operand_tree k.now form) count.old fetch.old (left result to.new) count.new fetch.new }
    ensures count { count.new ≤ 15 }
{
    own(fetch, count, k, form, to)
}

/// The same, with the most frequent forms in line.
#[tactic(auto, using(crate::proofs::Placing::own_fixed), unfolding(crate::specs::Reading::Runs))]
#[inline(always)]
pub fn rest<F: Fetch>(
    fetch: &mut F,
    count: &mut u8,
    k: &Selected,
    form: Form,
    to: &mut Operand,
) -> Result<(), Undecoded>
    requires room { count.old ≤ 15 }
    requires form { may_address_of form ≡ false }
    ensures runs { Runs F.gives (operand_tree k.now form) count.old fetch.old (left result to.new) count.new fetch.new }
    ensures count { count.new ≤ 15 }
{
    match form {
        Form::No => {
            *to = Operand::Nothing;
            Ok(())
        }
        Form::Gv => {
            *to = Operand::Gpr(reg_of(k.modrm), k.setting.size);
            Ok(())
        }
        Form::Gb => {
            *to = Operand::Gpr(reg_of(k.modrm), Size::B1);
            Ok(())
        }
        Form::Rv => {
            *to = Operand::Gpr(k.opcode % 8, k.setting.size);
            Ok(())
        }
        _ => own(fetch, count, k, form, to),
    }
}

/// The last operand, which mostly is none.
#[tactic(auto, using(crate::proofs::Placing::own_fixed), unfolding(crate::specs::Reading::Runs))]
#[inline(always)]
pub fn last<F: Fetch>(
    fetch: &mut F,
    count: &mut u8,
    k: &Selected,
    form: Form,
    to: &mut Operand,
) -> Result<(), Undecoded>
    requires room { count.old ≤ 15 }
    requires form { may_address_of form ≡ false }
    ensures runs { Runs F.gives (operand_tree k.now form) count.old fetch.old (left result to.new) count.new fetch.new }
    ensures count { count.new ≤ 15 }
{
    match form {
        Form::No => {
            *to = Operand::Nothing;
            Ok(())
        }
        _ => own_any(fetch, count, k, form, to),
    }
}

/// An operand of any form.
#[inline(always)]
pub fn any<F: Fetch>(
    fetch: &mut F,
    count: &mut u8,
    k: &Selected,
    form: Form,
    to: &mut Operand,
) -> Result<(), Undecoded>
    requires room { count.old ≤ 15 }
    requires row { may_address_of form ≡ true → (may_address_of k.now.row.now.a || may_address_of k.now.row.now.b) ≡ true }
    ensures runs { Runs F.gives (operand_tree k.now form) count.old fetch.old (left result to.new) count.new fetch.new }
    ensures count { count.new ≤ 15 }
{
    if may_address(form) {
        modrm(fetch, count, k, form, to)
    } else {
        own_any(fetch, count, k, form, to)
    }
}
