//! Counts, and how wide they and indexes are.

ghost use Rattle.std.specs.Prelude.{◌≡◌, ◌<◌, ℕ};
ghost use Rattle.mdl_state.specs.Bytes.{bound_of};
ghost use Rattle.mdl_effect.specs.Operands.{address_size, count_of, counted_down};
ghost use Rattle.operands.specs.Whole.{whole, KeepsOther};

use crate::registers::{COUNT, reg, set_reg};
use mdl_num::{bound, low};
use mdl_state::{Regs, Size};

/// The size of a count and of an index.
#[inline(always)]
pub fn address_size(wide: bool) -> Size
    ensures { result ≡ address_size wide }
{
    if wide { Size::B4 } else { Size::B2 }
}

/// CX or ECX.
#[inline(always)]
pub fn count_of(regs: &Regs, wide: bool) -> u32
    ensures value { (flags : ℕ) → result ≡ count_of (whole regs.now flags) wide }
    ensures bound { result < bound_of (address_size wide) }
{
    reg(regs, COUNT, address_size(wide))
}

/// Makes it one less, modulo the address size.
#[inline(always)]
pub fn count_down(regs: &mut Regs, wide: bool)
    ensures value { (flags : ℕ) → whole regs.new flags ≡ counted_down (whole regs.old flags) wide }
    ensures kept { KeepsOther regs.old regs.new }
{
    let size = address_size(wide);
    let count = low(count_of(regs, wide) as u64 + (bound(size) - 1), size);
    set_reg(regs, COUNT, size, count);
}
