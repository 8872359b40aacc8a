//! Numbers of a size.

ghost use Rattle.std.specs.Prelude.{◌≡◌, ◌<◌, ◌%◌, ◌^◌, ◌-◌, ◌≤ℤ◌, ◌<ℤ◌, pos, negsuc, true};
ghost use Rattle.mdl_state.specs.Bytes.{bits_of, bound_of};
ghost use Rattle.mdl_num.specs.Sizes.{half_of, signed_of, fits_signed};
ghost use Rattle.mdl_num.specs.Sizes.{complement_in};

use mdl_state::Size;

/// The number of bits.
pub fn bits(size: Size) -> u32
    ensures { result ≡ bits_of size }
{
    match size {
        Size::B1 => 8,
        Size::B2 => 16,
        Size::B4 => 32,
    }
}

/// The least number that does not fit.
pub fn bound(size: Size) -> u64
    ensures { result ≡ bound_of size }
{
    match size {
        Size::B1 => 0x100,
        Size::B2 => 0x1_0000,
        Size::B4 => 0x1_0000_0000,
    }
}

/// The least number whose highest bit is 1.
pub fn half(size: Size) -> u32
    ensures { result ≡ half_of size }
{
    match size {
        Size::B1 => 0x80,
        Size::B2 => 0x8000,
        Size::B4 => 0x8000_0000,
    }
}

/// The low bits of a number.
pub fn low(number: u64, size: Size) -> u32
    ensures value { result ≡ number % bound_of size }
    ensures fits { result < bound_of size }
{
    match size {
        Size::B1 => (number % 0x100) as u32,
        Size::B2 => (number % 0x1_0000) as u32,
        Size::B4 => (number % 0x1_0000_0000) as u32,
    }
}

/// The signed number that stands in the bits.
#[tactic(auto, unfolding(crate::specs::Sizes::signed_of))]
pub fn signed(number: u32, size: Size) -> i64
    requires { number < bound_of size }
    ensures value { result ≡ signed_of size number }
    ensures least { negsuc (2 ^ 31 - 1) ≤ℤ result }
    ensures most { result <ℤ pos (2 ^ 31) }
{
    if number < half(size) {
        number as i64
    } else {
        number as i64 - bound(size) as i64
    }
}

/// Whether a signed number fits.
#[tactic(auto, unfolding(crate::specs::Sizes::fits_signed))]
pub fn fits(number: i64, size: Size) -> bool
    ensures { result ≡ fits_signed size number }
{
    let half = half(size) as i64;
    -half <= number && number < half
}

/// A signed number in two's complement.
#[tactic(auto, unfolding(crate::specs::Sizes::complement_in, crate::specs::Sizes::fits_signed))]
pub fn word(number: i64, size: Size) -> u32
    requires { fits_signed size number ≡ true }
    ensures value { result ≡ complement_in (bound_of size) number }
    ensures bound { result < bound_of size }
{
    if number >= 0 {
        number as u32
    } else {
        (number + bound(size) as i64) as u32
    }
}
