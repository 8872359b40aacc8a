//! Sums, differences and logic.

ghost use Rattle.std.specs.Prelude.{◌≡◌, ◌<◌, ◌||◌, ℕ, true, OnErr};
ghost use Rattle.mdl_state.specs.Bytes.{bound_of};
ghost use Rattle.mdl_state.specs.Serving.{by_pick};
ghost use Rattle.mdl_state.specs.Accesses.{Keeps, HasRoom};
ghost use Rattle.mdl_state.specs.Attempt.{tried};
ghost use Rattle.mdl_cpu.specs.Addresses.{HasAddress};
ghost use Rattle.mdl_num.specs.Flags.{flags_after};
ghost use Rattle.mdl_num.specs.Sums.{logic_value, logic_status};
ghost use Rattle.lazy_flags.specs.Keeper.{with_status, kept};
ghost use Rattle.lazy_flags.specs.declared.operation.FlagOp.TheVariants.{Logic};
ghost use Rattle.mdl_insn.specs.declared.instruction.Operand.TheVariants.{Gpr};
ghost use Rattle.mdl_effect.specs.Operands.{follow, is_plain, value_of};
ghost use Rattle.mdl_effect.specs.Kinds.{is_place, is_value};
ghost use Rattle.mdl_effect.specs.Forms.{IsOf};
ghost use Rattle.mdl_effect.specs.Arithmetic.{binary, unary, binary_plan, compare_plan, unary_plan};
ghost use Rattle.operands.specs.Whole.{whole, after, IsPlainOf, KeepsOther};
ghost use Rattle.operands.specs.Memory.{IsMemoryOf};
ghost use Rattle.exec_data.specs.Last.{last_of_two, last_of_one};
ghost use Rattle.exec_data.specs.Reads.{combining, compared};

use crate::reads::number;
use alu_ops::{bitwise, difference, sum};
use lazy_flags::{FlagOp, Flags};
use mdl_insn::{Insn, Op, Operand};
use mdl_num::{CF, LogicOp, bound};
use mdl_state::{Fault, Regs, Size};
use mem_iface::Linear;
use operands::{open, reg, set, set_reg, value};

/// AND, OR and XOR.
#[inline(always)]
#[tactic(auto, using(operands::proofs::Statuses::statuses, crate::proofs::Logic::bounds))]
fn logic(op: LogicOp, a: u32, b: u32, size: Size, flags: &mut Flags) -> u32
    requires a { a < bound_of size }
    requires b { b < bound_of size }
    ensures value { result ≡ logic_value op a b }
    ensures bound { result < bound_of size }
    ensures status { (e : ℕ) → with_status e flags.new
        ≡ flags_after (logic_status size (logic_value op a b)) (with_status e flags.old) (with_status e flags.new) }
    ensures last { flags.new ≡ kept Logic (logic_value op a b) 0 size }
{
    let value = bitwise(op, a, b);
    flags.set_from(FlagOp::Logic, value, 0, size);
    value
}

/// An operation on two operands: its value, with the flags that it leaves.
#[inline(always)]
#[tactic(auto, using(operands::proofs::Statuses::statuses))]
fn binary(op: Op, size: Size, a: u32, b: u32, flags: &mut Flags) -> u32
    requires a { a < bound_of size }
    requires b { b < bound_of size }
    ensures value { (e : ℕ) → result ≡ (binary op size a b (with_status e flags.old)).value }
    ensures bound { result < bound_of size }
    ensures status { (e : ℕ) → with_status e flags.new
        ≡ flags_after (binary op size a b (with_status e flags.old)).status (with_status e flags.old) (with_status e flags.new) }
    ensures last { flags.new ≡ last_of_two op size a b flags.old }
{
    match op {
        Op::Add => {
            flags.set_from(FlagOp::Add, a, b, size);
            sum(a, b, false, size)
        }
        Op::Adc => {
            let carry = flags.get(CF);
            flags.set_from(FlagOp::AddCarry(carry), a, b, size);
            sum(a, b, carry, size)
        }
        Op::Sub | Op::Cmp => {
            flags.set_from(FlagOp::Sub, a, b, size);
            difference(a, b, false, size)
        }
        Op::Sbb => {
            let borrow = flags.get(CF);
            flags.set_from(FlagOp::SubBorrow(borrow), a, b, size);
            difference(a, b, borrow, size)
        }
        Op::And | Op::Test => logic(LogicOp::And, a, b, size, flags),
        Op::Or => logic(LogicOp::Or, a, b, size, flags),
        Op::Xor => logic(LogicOp::Xor, a, b, size, flags),
        _ => a,
    }
}

/// An operation on one operand: its value, with the flags that it leaves.
#[inline(always)]
#[tactic(auto, using(operands::proofs::Statuses::statuses))]
fn unary(op: Op, size: Size, a: u32, flags: &mut Flags) -> u32
    requires { a < bound_of size }
    ensures value { result ≡ (unary op size a).value }
    ensures bound { result < bound_of size }
    ensures status { (e : ℕ) → with_status e flags.new
        ≡ flags_after (unary op size a).status (with_status e flags.old) (with_status e flags.new) }
    ensures last { flags.new ≡ last_of_one op size a flags.old }
{
    match op {
        Op::Inc => {
            flags.set_from(FlagOp::Inc(flags.get(CF)), a, 1, size);
            sum(a, 1, false, size)
        }
        Op::Dec => {
            flags.set_from(FlagOp::Dec(flags.get(CF)), a, 1, size);
            difference(a, 1, false, size)
        }
        Op::Neg => {
            flags.set_from(FlagOp::Sub, 0, a, size);
            difference(0, a, false, size)
        }
        Op::Not => (bound(size) - 1) as u32 - a,
        _ => a,
    }
}

/// ADD to XOR in a register, with the number of the second operand.
#[inline(always)]
#[tactic(auto, unfolding(crate::specs::Reads::combining))]
fn combine_number(regs: &mut Regs, flags: &mut Flags, insn: &Insn, n: u8, b: u32)
    requires a { insn.now.a ≡ Gpr n insn.now.size }
    requires number { n < 8 }
    requires b { b < bound_of insn.now.size }
    ensures plan { follow (whole regs.new flags.new)
        ≡ combining insn.now (whole regs.old flags.old) (whole regs.new flags.new).eflags b }
    ensures last { flags.new ≡ last_of_two insn.now.op insn.now.size (value_of (whole regs.old flags.old) insn.now.a) b flags.old }
    ensures kept { KeepsOther regs.old regs.new }
{
    let a = reg(regs, n, insn.size);
    let value = binary(insn.op, insn.size, a, b, flags);
    set_reg(regs, n, insn.size, value);
}

/// ADD to XOR in a register.
#[inline(always)]
#[tactic(auto, using(mdl_state::specs::Rules::attempts, crate::proofs::Numbers::numbers))]
fn combine_register<L: Linear>(
    regs: &mut Regs,
    flags: &mut Flags,
    lin: &mut L,
    insn: &Insn,
    n: u8,
) -> Result<(), Fault>
    requires a { insn.now.a ≡ Gpr n insn.now.size }
    requires number { n < 8 }
    requires value { is_value insn.now.b ≡ true }
    requires b { IsOf insn.now.size insn.now.b }
    requires address { HasAddress insn.now.b }
    ensures run { (after result (whole regs.new flags.new), L.seen lin.new)
        ≡ tried (by_pick L.pick) 0 (binary_plan insn.now (whole regs.old flags.old) (whole regs.new flags.new).eflags) (L.seen lin.old) }
    ensures unchanged { OnErr result ((regs.new ≡ regs.old) × (flags.new ≡ flags.old)) }
    ensures keeps { Keeps (L.seen lin.old) (L.seen lin.new) }
{
    let b = number(regs, lin, &insn.b, insn.size)?;
    combine_number(regs, flags, insn, n, b);
    Ok(())
}

/// ADD to XOR, by where the first operand is.
#[inline(always)]
#[tactic(auto, using(operands::proofs::OperandKinds::kinds))]
pub(crate) fn combine_place<L: Linear>(
    regs: &mut Regs,
    flags: &mut Flags,
    lin: &mut L,
    insn: &Insn,
) -> Result<(), Fault>
    requires place { is_place insn.now.a ≡ true }
    requires value { is_value insn.now.b ≡ true }
    requires apart { (is_plain insn.now.a || is_plain insn.now.b) ≡ true }
    requires a { IsOf insn.now.size insn.now.a }
    requires b { IsOf insn.now.size insn.now.b }
    requires address_a { HasAddress insn.now.a }
    requires address_b { HasAddress insn.now.b }
    requires room { HasRoom (L.seen lin.old) 4 }
    ensures run { (after result (whole regs.new flags.new), L.seen lin.new)
        ≡ tried (by_pick L.pick) 0 (binary_plan insn.now (whole regs.old flags.old) (whole regs.new flags.new).eflags) (L.seen lin.old) }
    ensures unchanged { OnErr result ((regs.new ≡ regs.old) × (flags.new ≡ flags.old)) }
    ensures keeps { Keeps (L.seen lin.old) (L.seen lin.new) }
{
    match insn.a {
        Operand::Gpr(n, _) => combine_register(regs, flags, lin, insn, n),
        Operand::At(_, _) => combine_memory(regs, flags, lin, insn),
        _ => unreachable!(),
    }
}

/// CMP and TEST, with the numbers of both operands.
#[inline(always)]
#[tactic(auto, unfolding(crate::specs::Reads::compared))]
fn compare_numbers(flags: &mut Flags, insn: &Insn, a: u32, b: u32)
    requires a { a < bound_of insn.now.size }
    requires b { b < bound_of insn.now.size }
    ensures plan { (r : Regs) → follow (whole r flags.new)
        ≡ compared insn.now (whole r flags.old) (whole r flags.new).eflags b a }
    ensures last { flags.new ≡ last_of_two insn.now.op insn.now.size a b flags.old }
{
    binary(insn.op, insn.size, a, b, flags);
}

/// CMP and TEST, of which no operand or one is memory.
#[inline(always)]
#[tactic(auto, using(mdl_state::specs::Rules::attempts, crate::proofs::Numbers::numbers))]
pub(crate) fn compare_values<L: Linear>(
    regs: &Regs,
    flags: &mut Flags,
    lin: &mut L,
    insn: &Insn,
) -> Result<(), Fault>
    requires value_a { is_value insn.now.a ≡ true }
    requires value_b { is_value insn.now.b ≡ true }
    requires a { IsOf insn.now.size insn.now.a }
    requires b { IsOf insn.now.size insn.now.b }
    requires address_a { HasAddress insn.now.a }
    requires address_b { HasAddress insn.now.b }
    ensures run { (after result (whole regs.now flags.new), L.seen lin.new)
        ≡ tried (by_pick L.pick) 0 (compare_plan insn.now (whole regs.now flags.old) (whole regs.now flags.new).eflags) (L.seen lin.old) }
    ensures unchanged { OnErr result (flags.new ≡ flags.old) }
    ensures keeps { Keeps (L.seen lin.old) (L.seen lin.new) }
{
    let b = number(regs, lin, &insn.b, insn.size)?;
    let a = number(regs, lin, &insn.a, insn.size)?;
    compare_numbers(flags, insn, a, b);
    Ok(())
}

/// INC, DEC, NEG and NOT, by where the operand is.
#[inline(always)]
#[tactic(auto, using(operands::proofs::OperandKinds::kinds, mdl_state::specs::Rules::attempts))]
pub(crate) fn change_place<L: Linear>(
    regs: &mut Regs,
    flags: &mut Flags,
    lin: &mut L,
    insn: &Insn,
) -> Result<(), Fault>
    requires place { is_place insn.now.a ≡ true }
    requires a { IsOf insn.now.size insn.now.a }
    requires address { HasAddress insn.now.a }
    requires room { HasRoom (L.seen lin.old) 4 }
    ensures run { (after result (whole regs.new flags.new), L.seen lin.new)
        ≡ tried (by_pick L.pick) 0 (unary_plan insn.now (whole regs.old flags.old) (whole regs.new flags.new).eflags) (L.seen lin.old) }
    ensures unchanged { OnErr result ((regs.new ≡ regs.old) × (flags.new ≡ flags.old)) }
    ensures keeps { Keeps (L.seen lin.old) (L.seen lin.new) }
{
    match insn.a {
        Operand::Gpr(_, _) => {
            change(regs, flags, insn);
            Ok(())
        }
        Operand::At(_, _) => change_memory(regs, flags, lin, insn),
        _ => unreachable!(),
    }
}

/// ADD, OR, ADC, SBB, AND, SUB and XOR.
#[tactic(auto, unfolding(mdl_effect::specs::Arithmetic::binary_plan))]
pub(crate) fn combine(regs: &mut Regs, flags: &mut Flags, insn: &Insn)
    requires a { IsPlainOf insn.now.size insn.now.a }
    requires b { IsPlainOf insn.now.size insn.now.b }
    ensures plan { follow (whole regs.new flags.new)
        ≡ binary_plan insn.now (whole regs.old flags.old) (whole regs.new flags.new).eflags }
    ensures last { flags.new ≡ last_of_two insn.now.op insn.now.size
        (value_of (whole regs.old flags.old) insn.now.a) (value_of (whole regs.old flags.old) insn.now.b) flags.old }
    ensures kept { KeepsOther regs.old regs.new }
{
    let b = value(regs, &insn.b, insn.size);
    let a = value(regs, &insn.a, insn.size);
    let value = binary(insn.op, insn.size, a, b, flags);
    set(regs, &insn.a, insn.size, value);
}

/// CMP and TEST: the flags alone.
#[tactic(auto, unfolding(mdl_effect::specs::Arithmetic::compare_plan))]
pub(crate) fn compare(regs: &Regs, flags: &mut Flags, insn: &Insn)
    requires a { IsPlainOf insn.now.size insn.now.a }
    requires b { IsPlainOf insn.now.size insn.now.b }
    ensures plan { follow (whole regs.now flags.new)
        ≡ compare_plan insn.now (whole regs.now flags.old) (whole regs.now flags.new).eflags }
    ensures last { flags.new ≡ last_of_two insn.now.op insn.now.size
        (value_of (whole regs.now flags.old) insn.now.a) (value_of (whole regs.now flags.old) insn.now.b) flags.old }
{
    let b = value(regs, &insn.b, insn.size);
    let a = value(regs, &insn.a, insn.size);
    binary(insn.op, insn.size, a, b, flags);
}

/// INC, DEC, NEG and NOT.
#[inline(always)]
#[tactic(auto, unfolding(mdl_effect::specs::Arithmetic::unary_plan))]
pub(crate) fn change(regs: &mut Regs, flags: &mut Flags, insn: &Insn)
    requires { IsPlainOf insn.now.size insn.now.a }
    ensures plan { follow (whole regs.new flags.new)
        ≡ unary_plan insn.now (whole regs.old flags.old) (whole regs.new flags.new).eflags }
    ensures last { flags.new ≡ last_of_one insn.now.op insn.now.size (value_of (whole regs.old flags.old) insn.now.a) flags.old }
    ensures kept { KeepsOther regs.old regs.new }
{
    let a = value(regs, &insn.a, insn.size);
    let value = unary(insn.op, insn.size, a, flags);
    set(regs, &insn.a, insn.size, value);
}

/// ADD, OR, ADC, SBB, AND, SUB and XOR in memory.
#[inline(never)]
#[tactic(auto, unfolding(mdl_effect::specs::Arithmetic::binary_plan))]
pub(crate) fn combine_memory<L: Linear>(
    regs: &Regs,
    flags: &mut Flags,
    lin: &mut L,
    insn: &Insn,
) -> Result<(), Fault>
    requires a { IsMemoryOf insn.now.size insn.now.a }
    requires b { IsPlainOf insn.now.size insn.now.b }
    requires room { HasRoom (L.seen lin.old) 4 }
    ensures run { (after result (whole regs.now flags.new), L.seen lin.new)
        ≡ tried (by_pick L.pick) 0 (binary_plan insn.now (whole regs.now flags.old) (whole regs.now flags.new).eflags) (L.seen lin.old) }
    ensures unchanged { OnErr result (flags.new ≡ flags.old) }
    ensures keeps { Keeps (L.seen lin.old) (L.seen lin.new) }
{
    let b = value(regs, &insn.b, insn.size);
    let place = open(regs, lin, &insn.a, insn.size)?;
    let a = lin.get(place, insn.size);
    let value = binary(insn.op, insn.size, a, b, flags);
    lin.hold(place, insn.size, value);
    Ok(())
}

/// INC, DEC, NEG and NOT in memory.
#[inline(never)]
#[tactic(auto, unfolding(mdl_effect::specs::Arithmetic::unary_plan))]
pub(crate) fn change_memory<L: Linear>(
    regs: &Regs,
    flags: &mut Flags,
    lin: &mut L,
    insn: &Insn,
) -> Result<(), Fault>
    requires a { IsMemoryOf insn.now.size insn.now.a }
    requires room { HasRoom (L.seen lin.old) 4 }
    ensures run { (after result (whole regs.now flags.new), L.seen lin.new)
        ≡ tried (by_pick L.pick) 0 (unary_plan insn.now (whole regs.now flags.old) (whole regs.now flags.new).eflags) (L.seen lin.old) }
    ensures unchanged { OnErr result (flags.new ≡ flags.old) }
    ensures keeps { Keeps (L.seen lin.old) (L.seen lin.new) }
{
    let place = open(regs, lin, &insn.a, insn.size)?;
    let a = lin.get(place, insn.size);
    let value = unary(insn.op, insn.size, a, flags);
    lin.hold(place, insn.size, value);
    Ok(())
}
