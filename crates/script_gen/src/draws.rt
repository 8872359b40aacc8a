//! Numbers that are drawn one after another from a first one.

ghost use Rattle.std.specs.Prelude.{◌≡◌, ◌/◌, ◌<◌};
ghost use Rattle.mdl_text.specs.Demo as demo;

/// What a draw multiplies the number by, and what it adds.
const FACTOR: u32 = 1_664_525;

const INCREMENT: u32 = 1_013_904_223;

/// The number that a draw leaves.
pub(crate) fn after_draw(number: u32) -> u32
    ensures { result ≡ demo.after_draw number }
{
    number.wrapping_mul(FACTOR).wrapping_add(INCREMENT)
}

/// What a draw gives, by the number that it leaves.
pub(crate) fn drawn(number: u32) -> u16
    ensures { result ≡ number / 65536 }
{
    (number >> 16) as u16
}
