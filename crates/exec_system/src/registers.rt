//! General registers and operands, of registers whose EFLAGS is whole.

ghost use Rattle.std.specs.Prelude.{◌≡◌, ◌<◌};
ghost use Rattle.mdl_state.specs.Bytes.{bound_of};
ghost use Rattle.mdl_state.specs.Registers.{reg_of, with_reg};
ghost use Rattle.mdl_effect.specs.Operands.{value_of, with_value};
ghost use Rattle.mdl_effect.specs.Forms.{IsOf};

use mdl_insn::Operand;
use mdl_state::{Regs, Size};

/// A register's number.
pub(crate) fn reg(regs: &Regs, n: u8, size: Size) -> u32
    requires { n < 8 }
    ensures value { result ≡ reg_of regs.now n size }
    ensures bound { result < bound_of size }
{
    operands::reg(regs, n, size)
}

/// Sets a register.
pub(crate) fn set_reg(regs: &mut Regs, n: u8, size: Size, value: u32)
    requires number { n < 8 }
    requires bound { value < bound_of size }
    ensures { regs.new ≡ with_reg regs.old n size value }
{
    operands::set_reg(regs, n, size, value)
}

/// The number of an operand that is a register or a number of this size.
pub(crate) fn value(regs: &Regs, operand: &Operand, size: Size) -> u32
    requires { IsOf size operand.now }
    ensures value { result ≡ value_of regs.now operand.now }
    ensures bound { result < bound_of size }
{
    operands::value(regs, operand, size)
}

/// Sets an operand that is a register of this size.
pub(crate) fn set(regs: &mut Regs, operand: &Operand, size: Size, value: u32)
    requires operand { IsOf size operand.now }
    requires bound { value < bound_of size }
    ensures { regs.new ≡ with_value regs.old operand.now value }
{
    operands::set(regs, operand, size, value)
}
