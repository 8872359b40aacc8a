//! Shifts and rotates.

ghost use Rattle.std.specs.Prelude.{◌≡◌, ◌≢◌, ◌<◌, ◌%◌, ℕ, true, OnErr};
ghost use Rattle.mdl_state.specs.declared.Size.TheVariants.{B1};
ghost use Rattle.mdl_state.specs.Bytes.{bound_of};
ghost use Rattle.mdl_state.specs.Serving.{by_pick};
ghost use Rattle.mdl_state.specs.Accesses.{Keeps, HasRoom};
ghost use Rattle.mdl_state.specs.Attempt.{tried};
ghost use Rattle.mdl_cpu.specs.Addresses.{HasAddress};
ghost use Rattle.mdl_num.specs.Flags.{flags_after};
ghost use Rattle.mdl_num.specs.Shifts.{shift_value, shift_flags};
ghost use Rattle.mdl_num.specs.declared.results.ShiftOp.TheVariants.{Shl};
ghost use Rattle.lazy_flags.specs.Keeper.{with_status};
ghost use Rattle.mdl_effect.specs.Operands.{follow, with_flags};
ghost use Rattle.mdl_effect.specs.Kinds.{is_place};
ghost use Rattle.mdl_effect.specs.Forms.{IsOf};
ghost use Rattle.mdl_effect.specs.Shifts.{shifted, shift_plan, double_shift_plan};
ghost use Rattle.operands.specs.Whole.{whole, after, IsPlainOf, KeepsOther};
ghost use Rattle.operands.specs.Memory.{IsMemoryOf};

use alu_ops::sum;
use lazy_flags::{FlagOp, Flags};
use mdl_insn::{Insn, Op, Operand};
use mdl_num::{Alu, RotateOp, ShiftOp, low};
use mdl_state::{Fault, Regs, Size};
use mem_iface::Linear;
use operands::{keep, open, set, value};

/// A shift or a rotate by its mnemonic.
#[tactic(auto, using(operands::proofs::Statuses::statuses))]
fn shifted(op: Op, size: Size, a: u32, count: u8, flags: u32) -> Alu
    requires { a < bound_of size }
    ensures value { result.value ≡ (shifted op size a count flags).value }
    ensures bound { result.value < bound_of size }
    ensures flags { result.flags ≡ flags_after (shifted op size a count flags).status flags result.flags }
{
    match op {
        Op::Rol => bit_ops::rotate(RotateOp::Rol, a, count, size, flags),
        Op::Ror => bit_ops::rotate(RotateOp::Ror, a, count, size, flags),
        Op::Rcl => bit_ops::rotate(RotateOp::Rcl, a, count, size, flags),
        Op::Rcr => bit_ops::rotate(RotateOp::Rcr, a, count, size, flags),
        Op::Shl => bit_ops::shift(ShiftOp::Shl, a, count, size, flags),
        Op::Shr => bit_ops::shift(ShiftOp::Shr, a, count, size, flags),
        Op::Sar => bit_ops::shift(ShiftOp::Sar, a, count, size, flags),
        _ => Alu { value: a, flags },
    }
}

/// SHL by a count that is not 0. Half of its value, added to itself, leaves the same flags.
#[inline(always)]
#[tactic(auto, using(crate::proofs::ShiftLaws::left_shifts))]
fn shift_left(size: Size, a: u32, count: u8, flags: &mut Flags) -> u32
    requires a { a < bound_of size }
    requires count { count % 32 ≢ 0 }
    ensures value { result ≡ shift_value Shl size a count }
    ensures bound { result < bound_of size }
    ensures status { (e : ℕ) → with_status e flags.new
        ≡ flags_after (shift_flags Shl size a count) (with_status e flags.old) (with_status e flags.new) }
{
    let half = low((a as u64) << (count % 32 - 1), size);
    flags.set_from(FlagOp::Add, half, half, size);
    sum(half, half, false, size)
}

/// SHR and SAR by a count that is not 0. No flag stays, so that those before are not asked for.
#[inline(never)]
#[tactic(auto, using(crate::proofs::ShiftLaws::shifts_by_some))]
fn shift_right(op: ShiftOp, size: Size, a: u32, count: u8, regs: &Regs, flags: &mut Flags) -> u32
    requires a { a < bound_of size }
    requires count { count % 32 ≢ 0 }
    ensures value { result ≡ shift_value op size a count }
    ensures bound { result < bound_of size }
    ensures status { whole regs.now flags.new
        ≡ with_flags (whole regs.now flags.old) (shift_flags op size a count) (whole regs.now flags.new).eflags }
{
    let answer = bit_ops::shift(op, a, count, size, regs.eflags);
    keep(flags, answer.flags);
    answer.value
}

/// A shift or a rotate by its mnemonic, by all the flags before.
#[inline(never)]
fn shift_whole(op: Op, size: Size, a: u32, count: u8, regs: &Regs, flags: &mut Flags) -> u32
    requires { a < bound_of size }
    ensures value { result ≡ (shifted op size a count (whole regs.now flags.old).eflags).value }
    ensures bound { result < bound_of size }
    ensures status { whole regs.now flags.new
        ≡ with_flags (whole regs.now flags.old) (shifted op size a count (whole regs.now flags.old).eflags).status (whole regs.now flags.new).eflags }
{
    let answer = shifted(op, size, a, count, flags.pack(regs.eflags));
    keep(flags, answer.flags);
    answer.value
}

/// A shift or a rotate by its mnemonic: its value, with the flags that it leaves.
#[inline(always)]
fn shift_number(op: Op, size: Size, a: u32, count: u8, regs: &Regs, flags: &mut Flags) -> u32
    requires { a < bound_of size }
    ensures value { result ≡ (shifted op size a count (whole regs.now flags.old).eflags).value }
    ensures bound { result < bound_of size }
    ensures status { whole regs.now flags.new
        ≡ with_flags (whole regs.now flags.old) (shifted op size a count (whole regs.now flags.old).eflags).status (whole regs.now flags.new).eflags }
{
    if count % 32 != 0 {
        match op {
            Op::Shl => return shift_left(size, a, count, flags),
            Op::Shr => return shift_right(ShiftOp::Shr, size, a, count, regs, flags),
            Op::Sar => return shift_right(ShiftOp::Sar, size, a, count, regs, flags),
            _ => {}
        }
    }
    shift_whole(op, size, a, count, regs, flags)
}

/// ROL to SAR.
#[inline(always)]
#[tactic(auto, unfolding(mdl_effect::specs::Shifts::shift_plan))]
pub(crate) fn shift(regs: &mut Regs, flags: &mut Flags, insn: &Insn)
    requires a { IsPlainOf insn.now.size insn.now.a }
    requires b { IsPlainOf B1 insn.now.b }
    ensures plan { follow (whole regs.new flags.new)
        ≡ shift_plan insn.now (whole regs.old flags.old) (whole regs.new flags.new).eflags }
    ensures kept { KeepsOther regs.old regs.new }
{
    let count = value(regs, &insn.b, Size::B1) as u8;
    let a = value(regs, &insn.a, insn.size);
    let value = shift_number(insn.op, insn.size, a, count, regs, flags);
    set(regs, &insn.a, insn.size, value);
}

/// SHLD, with `left`, and SHRD.
#[tactic(auto, unfolding(mdl_effect::specs::Shifts::double_shift_plan))]
pub(crate) fn double_shift(regs: &mut Regs, flags: &mut Flags, insn: &Insn, left: bool)
    requires size { insn.now.size ≢ B1 }
    requires a { IsPlainOf insn.now.size insn.now.a }
    requires b { IsPlainOf insn.now.size insn.now.b }
    requires c { IsPlainOf B1 insn.now.c }
    ensures plan { follow (whole regs.new flags.new)
        ≡ double_shift_plan left insn.now (whole regs.old flags.old) (whole regs.new flags.new).eflags }
    ensures kept { KeepsOther regs.old regs.new }
{
    let count = value(regs, &insn.c, Size::B1) as u8;
    let source = value(regs, &insn.b, insn.size);
    let a = value(regs, &insn.a, insn.size);
    let eflags = flags.pack(regs.eflags);
    let answer = bit_ops::double_shift(left, a, source, count, insn.size, eflags);
    keep(flags, answer.flags);
    set(regs, &insn.a, insn.size, answer.value);
}

/// ROL to SAR in memory.
#[inline(never)]
#[tactic(auto, unfolding(mdl_effect::specs::Shifts::shift_plan))]
pub(crate) fn shift_memory<L: Linear>(
    regs: &Regs,
    flags: &mut Flags,
    lin: &mut L,
    insn: &Insn,
) -> Result<(), Fault>
    requires a { IsMemoryOf insn.now.size insn.now.a }
    requires b { IsPlainOf B1 insn.now.b }
    requires room { HasRoom (L.seen lin.old) 4 }
    ensures run { (after result (whole regs.now flags.new), L.seen lin.new)
        ≡ tried (by_pick L.pick) 0 (shift_plan insn.now (whole regs.now flags.old) (whole regs.now flags.new).eflags) (L.seen lin.old) }
    ensures unchanged { OnErr result (flags.new ≡ flags.old) }
    ensures keeps { Keeps (L.seen lin.old) (L.seen lin.new) }
{
    let count = value(regs, &insn.b, Size::B1) as u8;
    let place = open(regs, lin, &insn.a, insn.size)?;
    let a = lin.get(place, insn.size);
    let value = shift_number(insn.op, insn.size, a, count, regs, flags);
    lin.hold(place, insn.size, value);
    Ok(())
}

/// ROL to SAR, by where the operand is.
#[inline(always)]
#[tactic(auto, using(operands::proofs::OperandKinds::kinds, mdl_state::specs::Rules::attempts))]
pub(crate) fn shift_place<L: Linear>(
    regs: &mut Regs,
    flags: &mut Flags,
    lin: &mut L,
    insn: &Insn,
) -> Result<(), Fault>
    requires place { is_place insn.now.a ≡ true }
    requires a { IsOf insn.now.size insn.now.a }
    requires b { IsPlainOf B1 insn.now.b }
    requires address { HasAddress insn.now.a }
    requires room { HasRoom (L.seen lin.old) 4 }
    ensures run { (after result (whole regs.new flags.new), L.seen lin.new)
        ≡ tried (by_pick L.pick) 0 (shift_plan insn.now (whole regs.old flags.old) (whole regs.new flags.new).eflags) (L.seen lin.old) }
    ensures unchanged { OnErr result ((regs.new ≡ regs.old) × (flags.new ≡ flags.old)) }
    ensures keeps { Keeps (L.seen lin.old) (L.seen lin.new) }
{
    match insn.a {
        Operand::Gpr(_, _) => {
            shift(regs, flags, insn);
            Ok(())
        }
        Operand::At(_, _) => shift_memory(regs, flags, lin, insn),
        _ => unreachable!(),
    }
}

/// SHLD, with `left`, and SHRD in memory.
#[tactic(auto, unfolding(mdl_effect::specs::Shifts::double_shift_plan))]
pub(crate) fn double_shift_memory<L: Linear>(
    regs: &Regs,
    flags: &mut Flags,
    lin: &mut L,
    insn: &Insn,
    left: bool,
) -> Result<(), Fault>
    requires size { insn.now.size ≢ B1 }
    requires a { IsMemoryOf insn.now.size insn.now.a }
    requires b { IsPlainOf insn.now.size insn.now.b }
    requires c { IsPlainOf B1 insn.now.c }
    requires room { HasRoom (L.seen lin.old) 4 }
    ensures run { (after result (whole regs.now flags.new), L.seen lin.new)
        ≡ tried (by_pick L.pick) 0 (double_shift_plan left insn.now (whole regs.now flags.old) (whole regs.now flags.new).eflags) (L.seen lin.old) }
    ensures unchanged { OnErr result (flags.new ≡ flags.old) }
    ensures keeps { Keeps (L.seen lin.old) (L.seen lin.new) }
{
    let count = value(regs, &insn.c, Size::B1) as u8;
    let source = value(regs, &insn.b, insn.size);
    let place = open(regs, lin, &insn.a, insn.size)?;
    let a = lin.get(place, insn.size);
    let eflags = flags.pack(regs.eflags);
    let answer = bit_ops::double_shift(left, a, source, count, insn.size, eflags);
    lin.hold(place, insn.size, answer.value);
    keep(flags, answer.flags);
    Ok(())
}
