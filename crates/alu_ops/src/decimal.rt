//! DAA, DAS, AAA, AAS, AAM and AAD.

ghost use Rattle.std.specs.Prelude.{◌≡◌, ◌<◌, ◌≤◌, ◌^◌, IfOk, IsErr, ◌↔◌};
ghost use Rattle.mdl_num.specs.Flags.{flags_after};
ghost use Rattle.mdl_num.specs.Decimal.{is_low_corrected, is_high_corrected, correction};
ghost use Rattle.mdl_num.specs.Decimal.{daa_al, daa_value, daa_status, das_al, das_value};
ghost use Rattle.mdl_num.specs.Decimal.{das_status, aaa_value, aas_value, ascii_status};
ghost use Rattle.mdl_num.specs.Decimal.{al_of, aam_value, aad_value, digits_status};

use mdl_num::{AF, Alu, CF, DivideError, Flag, Status, bit, of_result, settle};
use mdl_state::Size;

/// Whether the low digit is corrected.
#[tactic(auto, unfolding(mdl_num::specs::Decimal::is_low_corrected))]
fn corrects_low(ax: u32, flags: u32) -> bool
    ensures { result ≡ is_low_corrected ax flags }
{
    ax % 0x10 > 9 || bit(flags, AF)
}

/// Whether the high digit is corrected.
#[tactic(auto, unfolding(mdl_num::specs::Decimal::is_high_corrected))]
fn corrects_high(ax: u32, flags: u32) -> bool
    ensures { result ≡ is_high_corrected ax flags }
{
    ax % 0x100 > 0x99 || bit(flags, CF)
}

/// What both corrections come to.
#[tactic(auto, unfolding(mdl_num::specs::Decimal::correction))]
fn corrected_by(ax: u32, flags: u32) -> u32
    ensures value { result ≡ correction ax flags }
    ensures bound { result ≤ 0x66 }
{
    let low = if corrects_low(ax, flags) { 6 } else { 0 };
    let high = if corrects_high(ax, flags) { 0x60 } else { 0 };
    low + high
}

/// DAA.
#[tactic(auto, unfolding(mdl_num::specs::Decimal::daa_al, mdl_num::specs::Decimal::daa_value, mdl_num::specs::Decimal::daa_status))]
pub fn daa(ax: u32, flags: u32) -> Alu
    requires { ax < 2 ^ 16 }
    ensures value { result.value ≡ daa_value ax flags }
    ensures bound { result.value < 2 ^ 16 }
    ensures flags { result.flags ≡ flags_after (daa_status ax flags) flags result.flags }
{
    let al = (ax % 0x100 + corrected_by(ax, flags)) % 0x100;
    let carry = Flag::Tells(corrects_high(ax, flags));
    let adjust = Flag::Tells(corrects_low(ax, flags));
    let status = of_result(al, Size::B1, carry, adjust, Flag::Undefined);
    Alu {
        value: ax / 0x100 * 0x100 + al,
        flags: settle(status, flags),
    }
}

/// DAS.
#[tactic(auto, unfolding(mdl_num::specs::Decimal::das_al, mdl_num::specs::Decimal::das_value, mdl_num::specs::Decimal::das_status))]
pub fn das(ax: u32, flags: u32) -> Alu
    requires { ax < 2 ^ 16 }
    ensures value { result.value ≡ das_value ax flags }
    ensures bound { result.value < 2 ^ 16 }
    ensures flags { result.flags ≡ flags_after (das_status ax flags) flags result.flags }
{
    let al = (0x100 + ax % 0x100 - corrected_by(ax, flags)) % 0x100;
    let low = corrects_low(ax, flags);
    let borrows = corrects_high(ax, flags) || (low && ax % 0x100 < 6);
    let carry = Flag::Tells(borrows);
    let status = of_result(al, Size::B1, carry, Flag::Tells(low), Flag::Undefined);
    Alu {
        value: ax / 0x100 * 0x100 + al,
        flags: settle(status, flags),
    }
}

/// What AAA and AAS do with the flags.
#[tactic(auto, unfolding(mdl_num::specs::Decimal::ascii_status))]
fn after_ascii(ax: u32, flags: u32) -> Status
    ensures { result ≡ ascii_status ax flags }
{
    let corrected = Flag::Tells(corrects_low(ax, flags));
    Status {
        carry: corrected,
        parity: Flag::Undefined,
        adjust: corrected,
        zero: Flag::Undefined,
        sign: Flag::Undefined,
        overflow: Flag::Undefined,
    }
}

/// AAA.
#[tactic(auto, unfolding(mdl_num::specs::Decimal::aaa_value))]
pub fn aaa(ax: u32, flags: u32) -> Alu
    requires { ax < 2 ^ 16 }
    ensures value { result.value ≡ aaa_value ax flags }
    ensures bound { result.value < 2 ^ 16 }
    ensures flags { result.flags ≡ flags_after (ascii_status ax flags) flags result.flags }
{
    let (ah, al) = (ax / 0x100, ax % 0x100);
    let value = if corrects_low(ax, flags) {
        (ah + 1) % 0x100 * 0x100 + (al + 6) % 0x10
    } else {
        ah * 0x100 + al % 0x10
    };
    Alu {
        value,
        flags: settle(after_ascii(ax, flags), flags),
    }
}

/// AAS.
#[tactic(auto, unfolding(mdl_num::specs::Decimal::aas_value))]
pub fn aas(ax: u32, flags: u32) -> Alu
    requires { ax < 2 ^ 16 }
    ensures value { result.value ≡ aas_value ax flags }
    ensures bound { result.value < 2 ^ 16 }
    ensures flags { result.flags ≡ flags_after (ascii_status ax flags) flags result.flags }
{
    let (ah, al) = (ax / 0x100, ax % 0x100);
    let value = if corrects_low(ax, flags) {
        (0x100 + ah - 1) % 0x100 * 0x100 + (0x100 + al - 6) % 0x10
    } else {
        ah * 0x100 + al % 0x10
    };
    Alu {
        value,
        flags: settle(after_ascii(ax, flags), flags),
    }
}

/// What AAM and AAD do with the flags.
#[tactic(auto, unfolding(mdl_num::specs::Decimal::digits_status))]
fn after_digits(al: u32) -> Status
    ensures { result ≡ digits_status al }
{
    of_result(
        al,
        Size::B1,
        Flag::Undefined,
        Flag::Undefined,
        Flag::Undefined,
    )
}

/// AAM: the digits of AL to a base.
#[tactic(auto, unfolding(mdl_num::specs::Decimal::aam_value))]
pub fn aam(ax: u32, by: u8, flags: u32) -> Result<Alu, DivideError>
    requires { ax < 2 ^ 16 }
    ensures error { IsErr result ↔ (by ≡ 0) }
    ensures value { IfOk result (λ answer. answer.value ≡ aam_value ax by) }
    ensures bound { IfOk result (λ answer. answer.value < 2 ^ 16) }
    ensures flags { IfOk result (λ answer. answer.flags
        ≡ flags_after (digits_status (al_of (aam_value ax by))) flags answer.flags) }
{
    if by == 0 {
        return Err(DivideError);
    }
    let (high, al) = (ax % 0x100 / by as u32, ax % 0x100 % by as u32);
    Ok(Alu {
        value: high * 0x100 + al,
        flags: settle(after_digits(al), flags),
    })
}

/// AAD: the number of two digits to a base.
#[tactic(auto, unfolding(mdl_num::specs::Decimal::aad_value))]
pub fn aad(ax: u32, by: u8, flags: u32) -> Alu
    requires { ax < 2 ^ 16 }
    ensures value { result.value ≡ aad_value ax by }
    ensures bound { result.value < 2 ^ 16 }
    ensures flags { result.flags
        ≡ flags_after (digits_status (aad_value ax by)) flags result.flags }
{
    let al = (ax % 0x100 + ax / 0x100 * by as u32) % 0x100;
    Alu {
        value: al,
        flags: settle(after_digits(al), flags),
    }
}

#[cfg(test)]
mod tests {
    use super::*;

    // Worked by hand: 79 + 35 = 114, 35 - 47 = -12, 8 + 7 = 15, 20 - 6 = 14, 63 = 6 * 10 + 3. That DAS
    // of 02h after a borrow of the low digit alone sets CF was seen on a processor.

    #[test]
    fn decimal_sums_and_differences_are_adjusted(rt: HostRuntime) {
        let answers = [
            (daa(0x12ae, 0x02), 0x1214, 0x17),
            (daa(0x0005, 0x03), 0x0065, 0x07),
            (das(0x12ee, 0x13), 0x1288, 0x97),
            (das(0x0002, 0x12), 0x00fc, 0x97),
        ];
        for (answer, value, flags) in answers {
            assert_eq!(rt; answer.value, value);
            assert_eq!(rt; answer.flags & !0x800, flags);
        }
    }

    #[test]
    fn unpacked_digits_carry_into_ah(rt: HostRuntime) {
        let answers = [
            (aaa(0x000f, 0x02), 0x0105, 0x11),
            (aaa(0x0035, 0x13), 0x010b, 0x11),
            (aas(0x02fa, 0x13), 0x0104, 0x11),
            (aas(0x0037, 0x02), 0x0007, 0x00),
        ];
        for (answer, value, flags) in answers {
            assert_eq!(rt; answer.value, value);
            assert_eq!(rt; answer.flags & 0x11, flags);
        }
    }

    #[test]
    fn a_byte_is_taken_apart_and_put_together_to_a_base(rt: HostRuntime) {
        assert!(rt; aam(0x003f, 0, 2) == Err(DivideError));
        let apart = aam(0x003f, 10, 2).unwrap_or(Alu { value: 0, flags: 0 });
        assert_eq!(rt; apart.value, 0x0603);
        assert_eq!(rt; apart.flags & 0xc4, 0x04);
        let together = aad(0x0603, 10, 2);
        assert_eq!(rt; together.value, 0x003f);
        assert_eq!(rt; together.flags & 0xc4, 0x04);
    }
}
