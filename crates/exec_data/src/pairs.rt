//! Numbers of twice the bits, in two registers.

ghost use Rattle.std.specs.Prelude.{◌≡◌, ◌<◌, ℕ};
ghost use Rattle.mdl_state.specs.Bytes.{bound_of};
ghost use Rattle.mdl_state.specs.Registers.{reg_of};
ghost use Rattle.mdl_effect.specs.Arithmetic.{high_number, with_pair};
ghost use Rattle.operands.specs.Whole.{whole, KeepsOther};

use mdl_state::{Regs, Size};
use operands::{ACCUMULATOR, AH, DATA, reg, set_reg};

/// The number of the register that has the second half of twice the bits.
fn high_number(size: Size) -> u8
    ensures value { result ≡ high_number size }
    ensures bound { result < 8 }
{
    match size {
        Size::B1 => AH,
        Size::B2 | Size::B4 => DATA,
    }
}

/// The two halves of twice the bits, the low one first.
pub(crate) fn pair(regs: &Regs, size: Size) -> (u32, u32)
    ensures low { (flags : ℕ) → result.0 ≡ reg_of (whole regs.now flags) 0 size }
    ensures high { (flags : ℕ) → result.1 ≡ reg_of (whole regs.now flags) (high_number size) size }
    ensures low_bound { result.0 < bound_of size }
    ensures high_bound { result.1 < bound_of size }
{
    (
        reg(regs, ACCUMULATOR, size),
        reg(regs, high_number(size), size),
    )
}

/// Sets the two halves of twice the bits.
pub(crate) fn set_pair(regs: &mut Regs, size: Size, low: u32, high: u32)
    requires low { low < bound_of size }
    requires high { high < bound_of size }
    ensures value { (flags : ℕ) → whole regs.new flags ≡ with_pair (whole regs.old flags) size low high }
    ensures kept { KeepsOther regs.old regs.new }
{
    set_reg(regs, ACCUMULATOR, size, low);
    set_reg(regs, high_number(size), size, high);
}
