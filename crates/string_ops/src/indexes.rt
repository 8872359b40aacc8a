//! SI and DI, by address size and DF.

ghost use Rattle.std.specs.Prelude.{◌≡◌, ◌<◌, ℕ};
ghost use Rattle.mdl_state.specs.Bytes.{bound_of};
ghost use Rattle.mdl_effect.specs.Operands.{address_size};
ghost use Rattle.mdl_effect.specs.StringEffects.{source_index, destination_index, stepped};
ghost use Rattle.operands.specs.Whole.{whole, KeepsOther};
ghost use Rattle.string_ops.specs.Repeats.{source_passed, destination_passed};

use mdl_num::{bit, bound, low};
use mdl_state::{Regs, Size};
use mem_iface::bytes_of;
use operands::{DESTINATION, DF, SOURCE, address_size, reg, set_reg};

/// SI or ESI.
#[inline(always)]
pub(crate) fn source_index(regs: &Regs, wide: bool) -> u32
    ensures value { (flags : ℕ) → result ≡ source_index (whole regs.now flags) wide }
    ensures bound { result < bound_of (address_size wide) }
{
    reg(regs, SOURCE, address_size(wide))
}

/// DI or EDI.
#[inline(always)]
pub(crate) fn destination_index(regs: &Regs, wide: bool) -> u32
    ensures value { (flags : ℕ) → result ≡ destination_index (whole regs.now flags) wide }
    ensures bound { result < bound_of (address_size wide) }
{
    reg(regs, DESTINATION, address_size(wide))
}

/// An index behind a number of this size, or before it where DF is 1.
#[tactic(auto, using(operands::proofs::Statuses::kept_flag))]
#[inline(always)]
fn stepped(regs: &Regs, wide: bool, size: Size, index: u32) -> u32
    ensures value { (flags : ℕ) → result ≡ stepped (whole regs.now flags) wide size index }
    ensures bound { result < bound_of (address_size wide) }
{
    let address = address_size(wide);
    let bytes = bytes_of(size) as u64;
    if bit(regs.eflags, DF) {
        low(index as u64 + (bound(address) - bytes), address)
    } else {
        low(index as u64 + bytes, address)
    }
}

/// Moves SI or ESI past a source of this size.
#[inline(always)]
pub(crate) fn pass_source(regs: &mut Regs, wide: bool, size: Size)
    ensures value { (flags : ℕ) → whole regs.new flags ≡ source_passed (whole regs.old flags) wide size }
    ensures kept { KeepsOther regs.old regs.new }
{
    let from = source_index(regs, wide);
    let index = stepped(regs, wide, size, from);
    set_reg(regs, SOURCE, address_size(wide), index);
}

/// Moves DI or EDI past a destination of this size.
#[inline(always)]
pub(crate) fn pass_destination(regs: &mut Regs, wide: bool, size: Size)
    ensures value { (flags : ℕ) → whole regs.new flags ≡ destination_passed (whole regs.old flags) wide size }
    ensures kept { KeepsOther regs.old regs.new }
{
    let from = destination_index(regs, wide);
    let index = stepped(regs, wide, size, from);
    set_reg(regs, DESTINATION, address_size(wide), index);
}

/// Moves both.
#[inline(always)]
pub(crate) fn pass_both(regs: &mut Regs, wide: bool, size: Size)
    ensures value { (flags : ℕ) → whole regs.new flags ≡ destination_passed (source_passed (whole regs.old flags) wide size) wide size }
    ensures kept { KeepsOther regs.old regs.new }
{
    pass_source(regs, wide, size);
    pass_destination(regs, wide, size);
}
