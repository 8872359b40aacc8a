//! Operands that are registers, numbers, or nothing.

ghost use Rattle.std.specs.Prelude.{◌≡◌, ◌<◌, ◌≤◌, ℕ};
ghost use Rattle.mdl_state.specs.Bytes.{bound_of, bytes_of};
ghost use Rattle.mdl_effect.specs.Operands.{value_of, with_value, size_of, is_plain, is_nothing};
ghost use Rattle.mdl_effect.specs.Forms.{IsOf, IsWithin};
ghost use Rattle.operands.specs.Whole.{whole, KeepsOther};

use crate::registers::{reg, set_reg};
use mdl_insn::Operand;
use mdl_state::{Regs, Size};

/// Whether the operand is a general register, a number, or nothing.
#[inline(always)]
pub fn is_plain(operand: &Operand) -> bool
    ensures { result ≡ is_plain operand.now }
{
    match operand {
        Operand::Nothing | Operand::Gpr(_, _) | Operand::Imm(_, _) => true,
        _ => false,
    }
}

/// Whether there is no operand.
#[inline(always)]
pub fn is_nothing(operand: &Operand) -> bool
    ensures { result ≡ is_nothing operand.now }
{
    match operand {
        Operand::Nothing => true,
        _ => false,
    }
}

/// The size that an operand has of its own.
#[inline(always)]
pub fn size_of(operand: &Operand) -> Size
    ensures { result ≡ size_of operand.now }
{
    match operand {
        Operand::Gpr(_, own) | Operand::Imm(_, own) | Operand::At(_, own) => *own,
        _ => Size::B1,
    }
}

/// The same, which is within the size of the instruction.
#[inline(always)]
pub fn own_size(operand: &Operand, size: Size) -> Size
    requires { IsWithin size operand.now }
    ensures value { result ≡ size_of operand.now }
    ensures within { bytes_of result ≤ bytes_of size }
{
    size_of(operand)
}

/// The number of an operand that is a register or a number of this size.
#[inline(always)]
pub fn value(regs: &Regs, operand: &Operand, size: Size) -> u32
    requires { IsOf size operand.now }
    ensures value { (flags : ℕ) → result ≡ value_of (whole regs.now flags) operand.now }
    ensures bound { result < bound_of size }
{
    match operand {
        Operand::Gpr(n, _) => reg(regs, *n, size),
        Operand::Imm(value, _) => *value,
        _ => 0,
    }
}

/// The number of an operand that has a size of its own.
#[inline(always)]
pub fn narrow_value(regs: &Regs, operand: &Operand, size: Size) -> u32
    requires { IsWithin size operand.now }
    ensures value { (flags : ℕ) → result ≡ value_of (whole regs.now flags) operand.now }
    ensures own { result < bound_of (size_of operand.now) }
    ensures bound { result < bound_of size }
{
    match operand {
        Operand::Gpr(n, own) => reg(regs, *n, *own),
        Operand::Imm(value, _) => *value,
        _ => 0,
    }
}

/// Sets an operand. A number takes no value.
#[inline(always)]
pub fn set(regs: &mut Regs, operand: &Operand, size: Size, value: u32)
    requires operand { IsOf size operand.now }
    requires bound { value < bound_of size }
    ensures value { (flags : ℕ) → whole regs.new flags ≡ with_value (whole regs.old flags) operand.now value }
    ensures kept { KeepsOther regs.old regs.new }
{
    if let Operand::Gpr(n, _) = operand {
        set_reg(regs, *n, size, value);
    }
}
