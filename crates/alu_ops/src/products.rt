//! MUL, IMUL, DIV and IDIV.

ghost use Rattle.std.specs.Prelude.{◌≡◌, ◌<◌, ◌≤◌, ◌*◌, ◌/◌, ◌%◌, unsigned_abs};
ghost use Rattle.mdl_state.specs.Bytes.{bound_of};
ghost use Rattle.mdl_num.specs.Sizes.{half_of, complement_in};
ghost use Rattle.mdl_num.specs.Flags.{flags_after};
ghost use Rattle.mdl_num.specs.Products.{joined, product_status, mul_status, signed_product};
ghost use Rattle.mdl_num.specs.Products.{imul_status, imul_word, signed_wide};
ghost use Rattle.mdl_num.specs.Products.{div_result, idiv_result};

use mdl_num::{DivideError, Flag, Status, Wide, bound, fits, low, settle, signed, word};
use mdl_state::Size;

/// What a product does with the flags: CF and OF tell whether the high half is needed.
#[tactic(auto, unfolding(mdl_num::specs::Products::product_status))]
fn after_product(needed: bool) -> Status
    ensures { result ≡ product_status needed }
{
    Status {
        carry: Flag::Tells(needed),
        parity: Flag::Undefined,
        adjust: Flag::Undefined,
        zero: Flag::Undefined,
        sign: Flag::Undefined,
        overflow: Flag::Tells(needed),
    }
}

/// The high half of a number of twice the size.
fn high(number: u64, size: Size) -> u32
    ensures value { result ≡ number / bound_of size % bound_of size }
    ensures bound { result < bound_of size }
{
    match size {
        Size::B1 => (number / 0x100 % 0x100) as u32,
        Size::B2 => (number / 0x1_0000 % 0x1_0000) as u32,
        Size::B4 => (number / 0x1_0000_0000) as u32,
    }
}

/// MUL.
#[tactic(auto, unfolding(mdl_num::specs::Products::mul_status))]
pub fn mul(a: u32, b: u32, size: Size, flags: u32) -> Wide
    requires a { a < bound_of size }
    requires b { b < bound_of size }
    ensures low { result.low ≡ a * b % bound_of size }
    ensures high { result.high ≡ a * b / bound_of size }
    ensures low_bound { result.low < bound_of size }
    ensures high_bound { result.high < bound_of size }
    ensures flags { result.flags ≡ flags_after (mul_status size a b) flags result.flags }
{
    let product = a as u64 * b as u64;
    Wide {
        low: low(product, size),
        high: high(product, size),
        flags: settle(after_product(product >= bound(size)), flags),
    }
}

/// The signed product.
#[tactic(auto, unfolding(mdl_num::specs::Products::signed_product))]
fn signed_times(a: u32, b: u32, size: Size) -> i64
    requires a { a < bound_of size }
    requires b { b < bound_of size }
    ensures value { result ≡ signed_product size a b }
    ensures within { unsigned_abs result ≤ half_of size * half_of size }
{
    signed(a, size) * signed(b, size)
}

/// A signed product in two's complement, of twice the size.
#[tactic(auto, unfolding(mdl_num::specs::Sizes::complement_in))]
fn product_word(product: i64, size: Size) -> u64
    requires { unsigned_abs product ≤ half_of size * half_of size }
    ensures value { result ≡ complement_in (bound_of size * bound_of size) product }
    ensures bound { result < bound_of size * bound_of size }
{
    match size {
        Size::B1 => product.cast_unsigned() % 0x1_0000,
        Size::B2 => product.cast_unsigned() % 0x1_0000_0000,
        Size::B4 => product.cast_unsigned(),
    }
}

/// IMUL. With two or three operands only the low half is used.
#[tactic(auto, unfolding(mdl_num::specs::Products::imul_status, mdl_num::specs::Products::imul_word))]
pub fn imul(a: u32, b: u32, size: Size, flags: u32) -> Wide
    requires a { a < bound_of size }
    requires b { b < bound_of size }
    ensures low { result.low ≡ imul_word size a b % bound_of size }
    ensures high { result.high ≡ imul_word size a b / bound_of size }
    ensures low_bound { result.low < bound_of size }
    ensures high_bound { result.high < bound_of size }
    ensures flags { result.flags ≡ flags_after (imul_status size a b) flags result.flags }
{
    let product = signed_times(a, b, size);
    let word = product_word(product, size);
    Wide {
        low: low(word, size),
        high: high(word, size),
        flags: settle(after_product(!fits(product, size)), flags),
    }
}

/// Two halves as one number.
fn join(high: u32, low: u32, size: Size) -> u64
    requires high { high < bound_of size }
    requires low { low < bound_of size }
    ensures value { result ≡ joined size high low }
    ensures bound { result < bound_of size * bound_of size }
{
    match size {
        Size::B1 => high as u64 * 0x100 + low as u64,
        Size::B2 => high as u64 * 0x1_0000 + low as u64,
        Size::B4 => high as u64 * 0x1_0000_0000 + low as u64,
    }
}

/// DIV: the quotient and the remainder.
#[tactic(auto, unfolding(mdl_num::specs::Products::div_result))]
pub fn div(high: u32, low: u32, by: u32, size: Size) -> Result<(u32, u32), DivideError>
    requires high { high < bound_of size }
    requires low { low < bound_of size }
    requires by { by < bound_of size }
    ensures { result ≡ div_result size high low by }
{
    if by == 0 {
        return Err(DivideError);
    }
    let dividend = join(high, low, size);
    let quotient = dividend / by as u64;
    if quotient >= bound(size) {
        return Err(DivideError);
    }
    Ok((quotient as u32, (dividend % by as u64) as u32))
}

/// The signed number that stands in twice the bits.
#[tactic(auto, unfolding(mdl_num::specs::Products::signed_wide))]
fn signed_dividend(number: u64, size: Size) -> i64
    requires { number < bound_of size * bound_of size }
    ensures { result ≡ signed_wide size number }
{
    match size {
        Size::B1 if number < 0x8000 => number as i64,
        Size::B1 => number as i64 - 0x1_0000,
        Size::B2 if number < 0x8000_0000 => number as i64,
        Size::B2 => number as i64 - 0x1_0000_0000,
        Size::B4 => number.cast_signed(),
    }
}

/// IDIV: the quotient rounded towards 0, and the remainder with the sign of the dividend.
#[tactic(auto, unfolding(mdl_num::specs::Products::idiv_result))]
pub fn idiv(high: u32, low: u32, by: u32, size: Size) -> Result<(u32, u32), DivideError>
    requires high { high < bound_of size }
    requires low { low < bound_of size }
    requires by { by < bound_of size }
    ensures { result ≡ idiv_result size high low by }
{
    let dividend = signed_dividend(join(high, low, size), size);
    let divisor = signed(by, size);
    let Some(quotient) = dividend.checked_div(divisor) else {
        return Err(DivideError);
    };
    if !fits(quotient, size) {
        return Err(DivideError);
    }
    let remainder = dividend % divisor;
    Ok((word(quotient, size), word(remainder, size)))
}

#[cfg(test)]
mod tests {
    use super::*;
    use mdl_num::{CF, OF};

    // Worked by hand; CF and OF are both set or both clear.
    const WIDE: u32 = 1 << CF | 1 << OF;

    #[test]
    fn a_product_is_wide_where_the_high_half_is_needed(rt: HostRuntime) {
        let answers = [
            (mul(0xff, 0xff, Size::B1, 2), 0x01, 0xfe, WIDE),
            (mul(0x0f, 0x11, Size::B1, WIDE), 0xff, 0x00, 0),
            (mul(0x8000_0000, 2, Size::B4, 2), 0, 1, WIDE),
            (imul(0xff, 0xff, Size::B1, WIDE), 0x01, 0x00, 0),
            (imul(0x80, 0x80, Size::B1, 2), 0x00, 0x40, WIDE),
            (imul(0x8000, 0x0001, Size::B2, WIDE), 0x8000, 0xffff, 0),
            (
                imul(0x8000_0000, 0xffff_ffff, Size::B4, 2),
                0x8000_0000,
                0,
                WIDE,
            ),
        ];
        for (answer, low, high, flags) in answers {
            assert_eq!(rt; answer.low, low);
            assert_eq!(rt; answer.high, high);
            assert_eq!(rt; answer.flags & WIDE, flags);
        }
    }

    #[test]
    fn a_quotient_that_does_not_fit_is_a_divide_error(rt: HostRuntime) {
        let answers = [
            (div(0xfe, 0xff, 0xff, Size::B1), Ok((0xff, 0xfe))),
            (div(0xff, 0x00, 0xff, Size::B1), Err(DivideError)),
            (div(0, 1, 0, Size::B4), Err(DivideError)),
            (div(1, 0, 2, Size::B4), Ok((0x8000_0000, 0))),
            (idiv(0xff, 0x80, 0x01, Size::B1), Ok((0x80, 0x00))),
            (idiv(0x00, 0x80, 0x01, Size::B1), Err(DivideError)),
            (idiv(0xff, 0xf9, 0x02, Size::B1), Ok((0xfd, 0xff))),
            (
                idiv(0x8000_0000, 0, 0xffff_ffff, Size::B4),
                Err(DivideError),
            ),
            (idiv(0, 7, 0xfffe, Size::B2), Ok((0xfffd, 1))),
        ];
        for (answer, wanted) in answers {
            assert!(rt; answer == wanted);
        }
    }
}
