//! ROL, ROR, RCL and RCR.

ghost use Rattle.std.specs.Prelude.{◌≡◌, ◌<◌, ◌≤◌, ◌+◌, ◌*◌, ◌^◌};
ghost use Rattle.mdl_state.specs.Bytes.{bound_of};
ghost use Rattle.mdl_num.specs.Flags.{flags_after};
ghost use Rattle.mdl_num.specs.Rotates.{turned, rotated, rotate_value, rotates_out};
ghost use Rattle.mdl_num.specs.Rotates.{rotate_overflows, rotate_status};

use mdl_num::{Alu, CF, Flag, RotateOp, Status, bit, bits, bound, low, settle, untouched};
use mdl_state::Size;

/// A string of so many bits, its highest bits put to the low end.
#[tactic(auto, unfolding(mdl_num::specs::Rotates::turned))]
fn turn(string: u64, by: u32, width: u32) -> u64
    requires string { string < 2 ^ width }
    requires by { by ≤ width }
    requires width { width ≤ 33 }
    ensures value { result ≡ turned width by string }
    ensures bound { result < 2 ^ width }
{
    let kept = width - by;
    string % (1 << kept) << by | string >> kept
}

/// The string after the rotate, CF in front of it where the rotate goes through CF.
#[tactic(auto, unfolding(mdl_num::specs::Rotates::rotated, mdl_num::specs::Flags::is_set))]
fn turned_by(op: RotateOp, a: u32, flags: u32, by: u8, size: Size) -> u64
    requires { a < bound_of size }
    ensures value { result ≡ rotated op size a flags by }
    ensures bound { result < 2 * bound_of size }
{
    let width = bits(size);
    let by = by as u32;
    let through = bit(flags, CF) as u64 * bound(size) + a as u64;
    match op {
        RotateOp::Rol => turn(a as u64, by % width, width),
        RotateOp::Ror => turn(a as u64, width - by % width, width),
        RotateOp::Rcl => turn(through, by % (width + 1), width + 1),
        RotateOp::Rcr => turn(through, width + 1 - by % (width + 1), width + 1),
    }
}

/// CF after the rotate.
#[tactic(auto, unfolding(mdl_num::specs::Rotates::rotates_out, mdl_num::specs::Flags::is_set))]
fn turns_out(op: RotateOp, string: u64, size: Size) -> bool
    ensures { result ≡ rotates_out op size string }
{
    let place = match op {
        RotateOp::Rol => 0,
        RotateOp::Ror => bits(size) - 1,
        RotateOp::Rcl | RotateOp::Rcr => bits(size),
    };
    string >> place & 1 == 1
}

/// OF after a rotate by 1.
#[tactic(auto, unfolding(mdl_num::specs::Rotates::rotate_overflows))]
fn overflows(op: RotateOp, value: u32, carry: bool, size: Size) -> bool
    ensures { result ≡ rotate_overflows op size value carry }
{
    let highest = value >> (bits(size) - 1) & 1;
    match op {
        RotateOp::Rol | RotateOp::Rcl => highest != carry as u32,
        RotateOp::Ror | RotateOp::Rcr => highest != value >> (bits(size) - 2) & 1,
    }
}

/// ROL, ROR, RCL and RCR.
#[tactic(auto, unfolding(mdl_num::specs::Rotates::rotate_value, mdl_num::specs::Rotates::rotate_status))]
pub fn rotate(op: RotateOp, a: u32, count: u8, size: Size, flags: u32) -> Alu
    requires { a < bound_of size }
    ensures value { result.value ≡ rotate_value op size a flags count }
    ensures bound { result.value < bound_of size }
    ensures flags { result.flags
        ≡ flags_after (rotate_status op size a flags count) flags result.flags }
{
    let by = count % 32;
    let string = turned_by(op, a, flags, by, size);
    let value = low(string, size);
    if by == 0 {
        return Alu {
            value,
            flags: settle(untouched(), flags),
        };
    }
    let carry = turns_out(op, string, size);
    let overflow = if by == 1 {
        Flag::Tells(overflows(op, value, carry, size))
    } else {
        Flag::Undefined
    };
    let status = Status {
        carry: Flag::Tells(carry),
        overflow,
        ..untouched()
    };
    Alu {
        value,
        flags: settle(status, flags),
    }
}

#[cfg(test)]
mod tests {
    use super::*;
    use mdl_num::OF;

    // Worked by hand. OF is compared after a rotate by 1 alone.

    #[test]
    fn a_rotate_goes_round_the_operand_or_through_the_carry(rt: HostRuntime) {
        let answers = [
            (rotate(RotateOp::Rcl, 0x81, 9, Size::B1, 3), 0x81, 3),
            (rotate(RotateOp::Rcl, 0x80, 10, Size::B1, 3), 0x01, 3),
            (rotate(RotateOp::Rol, 0x81, 8, Size::B1, 2), 0x81, 3),
            (rotate(RotateOp::Ror, 0x7f, 8, Size::B1, 3), 0x7f, 2),
            (rotate(RotateOp::Rcr, 0x0001, 17, Size::B2, 2), 0x0001, 2),
            (rotate(RotateOp::Rcr, 0x0001, 2, Size::B2, 3), 0xc000, 2),
            (
                rotate(RotateOp::Rcl, 0x8000_0000, 2, Size::B4, 2),
                0x0000_0001,
                2,
            ),
            (
                rotate(RotateOp::Rol, 0x1234_5678, 0x24, Size::B4, 3),
                0x2345_6781,
                3,
            ),
        ];
        for (answer, value, flags) in answers {
            assert_eq!(rt; answer.value, value);
            assert_eq!(rt; answer.flags & !(1 << OF), flags);
        }
    }

    #[test]
    fn a_rotate_by_one_tells_the_overflow_and_by_none_nothing(rt: HostRuntime) {
        let answers = [
            (rotate(RotateOp::Rol, 0x40, 1, Size::B1, 2), 0x80, 0x802),
            (rotate(RotateOp::Ror, 0x01, 1, Size::B1, 2), 0x80, 0x803),
            (rotate(RotateOp::Rcr, 0x80, 1, Size::B1, 3), 0xc0, 2),
            (rotate(RotateOp::Rcl, 0xc0, 1, Size::B1, 2), 0x80, 3),
            (
                rotate(RotateOp::Ror, 0x01, 32, Size::B1, 0x8d7),
                0x01,
                0x8d7,
            ),
        ];
        for (answer, value, flags) in answers {
            assert_eq!(rt; answer.value, value);
            assert_eq!(rt; answer.flags, flags);
        }
    }
}
