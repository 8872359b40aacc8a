//! Moves and extensions.

ghost use Rattle.std.specs.Prelude.{◌≡◌, ◌<◌, ◌≤◌, ℕ, true, OnErr};
ghost use Rattle.mdl_state.specs.Bytes.{bound_of, bytes_of};
ghost use Rattle.mdl_state.specs.Serving.{by_pick};
ghost use Rattle.mdl_state.specs.Accesses.{Keeps, HasRoom};
ghost use Rattle.mdl_state.specs.Attempt.{tried};
ghost use Rattle.mdl_cpu.specs.Addresses.{HasAddress};
ghost use Rattle.mdl_effect.specs.Operands.{follow, writing};
ghost use Rattle.mdl_effect.specs.Kinds.{is_place, is_value};
ghost use Rattle.mdl_effect.specs.Forms.{IsOf};
ghost use Rattle.mdl_effect.specs.Moves.{sign_extended, move_plan, sign_extend_plan, exchange_plan, half_size, widen_plan, sign_plan};
ghost use Rattle.operands.specs.Whole.{whole, after, IsPlainOf, IsPlainWithin, KeepsOther};
ghost use Rattle.operands.specs.Memory.{IsMemoryOf};

use crate::reads::number;
use mdl_insn::{Insn, Operand};
use mdl_num::{bound, half, signed, word};
use mdl_state::{Fault, Regs, Size};
use mem_iface::Linear;
use operands::{
    ACCUMULATOR, DATA, is_nothing, narrow_value, open, own_size, reg, set, set_reg, value, write,
};

/// MOV.
#[inline(always)]
#[tactic(auto, unfolding(mdl_effect::specs::Moves::move_plan))]
pub(crate) fn copy(regs: &mut Regs, insn: &Insn)
    requires a { IsPlainOf insn.now.size insn.now.a }
    requires b { IsPlainOf insn.now.size insn.now.b }
    ensures plan { (flags : ℕ) → follow (whole regs.new flags)
        ≡ move_plan insn.now (whole regs.old flags) }
    ensures kept { KeepsOther regs.old regs.new }
{
    let value = value(regs, &insn.b, insn.size);
    set(regs, &insn.a, insn.size, value);
}

/// MOVZX.
#[tactic(auto, unfolding(mdl_effect::specs::Moves::move_plan))]
pub(crate) fn zero_extend(regs: &mut Regs, insn: &Insn)
    requires a { IsPlainOf insn.now.size insn.now.a }
    requires b { IsPlainWithin insn.now.size insn.now.b }
    ensures plan { (flags : ℕ) → follow (whole regs.new flags)
        ≡ move_plan insn.now (whole regs.old flags) }
    ensures kept { KeepsOther regs.old regs.new }
{
    let value = narrow_value(regs, &insn.b, insn.size);
    set(regs, &insn.a, insn.size, value);
}

/// A number of one size with its sign carried on to another.
fn sign_extended(from: Size, to: Size, value: u32) -> u32
    requires value { value < bound_of from }
    requires sizes { bytes_of from ≤ bytes_of to }
    ensures value { result ≡ sign_extended from to value }
    ensures bound { result < bound_of to }
{
    word(signed(value, from), to)
}

/// MOVSX.
#[tactic(auto, unfolding(mdl_effect::specs::Moves::sign_extend_plan))]
pub(crate) fn sign_extend(regs: &mut Regs, insn: &Insn)
    requires a { IsPlainOf insn.now.size insn.now.a }
    requires b { IsPlainWithin insn.now.size insn.now.b }
    ensures plan { (flags : ℕ) → follow (whole regs.new flags)
        ≡ sign_extend_plan insn.now (whole regs.old flags) }
    ensures kept { KeepsOther regs.old regs.new }
{
    let from = own_size(&insn.b, insn.size);
    let number = narrow_value(regs, &insn.b, insn.size);
    let value = sign_extended(from, insn.size, number);
    set(regs, &insn.a, insn.size, value);
}

/// XCHG, and what does nothing.
#[tactic(auto, unfolding(mdl_effect::specs::Moves::exchange_plan))]
pub(crate) fn exchange(regs: &mut Regs, insn: &Insn)
    requires a { IsPlainOf insn.now.size insn.now.a }
    requires b { IsPlainOf insn.now.size insn.now.b }
    ensures plan { (flags : ℕ) → follow (whole regs.new flags)
        ≡ exchange_plan insn.now (whole regs.old flags) }
    ensures kept { KeepsOther regs.old regs.new }
{
    if is_nothing(&insn.a) {
        return;
    }
    let b = value(regs, &insn.b, insn.size);
    let a = value(regs, &insn.a, insn.size);
    set(regs, &insn.b, insn.size, a);
    set(regs, &insn.a, insn.size, b);
}

/// The size of half the bits.
fn half_size(size: Size) -> Size
    ensures value { result ≡ half_size size }
    ensures within { bytes_of result ≤ bytes_of size }
{
    match size {
        Size::B4 => Size::B2,
        Size::B1 | Size::B2 => Size::B1,
    }
}

/// CBW and CWDE.
#[tactic(auto, unfolding(mdl_effect::specs::Moves::widen_plan))]
pub(crate) fn widen(regs: &mut Regs, insn: &Insn)
    ensures plan { (flags : ℕ) → follow (whole regs.new flags)
        ≡ widen_plan insn.now (whole regs.old flags) }
    ensures kept { KeepsOther regs.old regs.new }
{
    let from = half_size(insn.size);
    let value = sign_extended(from, insn.size, reg(regs, ACCUMULATOR, from));
    set_reg(regs, ACCUMULATOR, insn.size, value);
}

/// CWD and CDQ.
#[tactic(auto, unfolding(mdl_effect::specs::Moves::sign_plan))]
pub(crate) fn sign(regs: &mut Regs, insn: &Insn)
    ensures plan { (flags : ℕ) → follow (whole regs.new flags)
        ≡ sign_plan insn.now (whole regs.old flags) }
    ensures kept { KeepsOther regs.old regs.new }
{
    let value = if reg(regs, ACCUMULATOR, insn.size) >= half(insn.size) {
        (bound(insn.size) - 1) as u32
    } else {
        0
    };
    set_reg(regs, DATA, insn.size, value);
}

/// A number put where an operand says.
#[inline(always)]
#[tactic(auto, using(mdl_state::specs::Rules::attempts, operands::proofs::OperandKinds::kinds))]
pub(crate) fn put<L: Linear>(
    regs: &mut Regs,
    lin: &mut L,
    operand: &Operand,
    size: Size,
    value: u32,
) -> Result<(), Fault>
    requires place { is_place operand.now ≡ true }
    requires form { IsOf size operand.now }
    requires address { HasAddress operand.now }
    requires bound { value < bound_of size }
    requires room { HasRoom (L.seen lin.old) 4 }
    ensures run { (flags : ℕ) → (after result (whole regs.new flags), L.seen lin.new)
        ≡ tried (by_pick L.pick) 0 (writing (whole regs.old flags) operand.now value) (L.seen lin.old) }
    ensures kept { KeepsOther regs.old regs.new }
    ensures unchanged { OnErr result (regs.new ≡ regs.old) }
    ensures keeps { Keeps (L.seen lin.old) (L.seen lin.new) }
{
    match operand {
        Operand::Gpr(_, _) => {
            set(regs, operand, size, value);
            Ok(())
        }
        Operand::At(_, _) => write(regs, lin, operand, size, value),
        _ => unreachable!(),
    }
}

/// MOV of registers, numbers and memory.
#[inline(always)]
#[tactic(auto, using(mdl_state::specs::Rules::attempts, crate::proofs::Numbers::numbers), unfolding(crate::specs::Reads::moving))]
pub(crate) fn move_value<L: Linear>(regs: &mut Regs, lin: &mut L, insn: &Insn) -> Result<(), Fault>
    requires place { is_place insn.now.a ≡ true }
    requires value { is_value insn.now.b ≡ true }
    requires a { IsOf insn.now.size insn.now.a }
    requires b { IsOf insn.now.size insn.now.b }
    requires address_a { HasAddress insn.now.a }
    requires address_b { HasAddress insn.now.b }
    requires room { HasRoom (L.seen lin.old) 4 }
    ensures run { (flags : ℕ) → (after result (whole regs.new flags), L.seen lin.new)
        ≡ tried (by_pick L.pick) 0 (move_plan insn.now (whole regs.old flags)) (L.seen lin.old) }
    ensures kept { KeepsOther regs.old regs.new }
    ensures unchanged { OnErr result (regs.new ≡ regs.old) }
    ensures keeps { Keeps (L.seen lin.old) (L.seen lin.new) }
{
    let value = number(regs, lin, &insn.b, insn.size)?;
    put(regs, lin, &insn.a, insn.size, value)
}

/// XCHG with memory. The register is set after the last check.
#[tactic(auto, unfolding(mdl_effect::specs::Moves::exchange_plan))]
pub(crate) fn exchange_memory<L: Linear>(
    regs: &mut Regs,
    lin: &mut L,
    insn: &Insn,
) -> Result<(), Fault>
    requires a { IsMemoryOf insn.now.size insn.now.a }
    requires b { IsPlainOf insn.now.size insn.now.b }
    requires room { HasRoom (L.seen lin.old) 4 }
    ensures run { (flags : ℕ) → (after result (whole regs.new flags), L.seen lin.new)
        ≡ tried (by_pick L.pick) 0 (exchange_plan insn.now (whole regs.old flags)) (L.seen lin.old) }
    ensures kept { KeepsOther regs.old regs.new }
    ensures unchanged { OnErr result (regs.new ≡ regs.old) }
    ensures keeps { Keeps (L.seen lin.old) (L.seen lin.new) }
{
    if is_nothing(&insn.a) {
        return Ok(());
    }
    let register = value(regs, &insn.b, insn.size);
    let place = open(regs, lin, &insn.a, insn.size)?;
    let number = lin.get(place, insn.size);
    lin.hold(place, insn.size, register);
    set(regs, &insn.b, insn.size, number);
    Ok(())
}
