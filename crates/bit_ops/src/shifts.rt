//! SHL, SHR, SAR, SHLD and SHRD.

ghost use Rattle.std.specs.Prelude.{◌≡◌, ◌≢◌, ◌<◌, ◌*◌};
ghost use Rattle.mdl_state.specs.declared.Size.TheVariants.{B1};
ghost use Rattle.mdl_state.specs.Bytes.{bound_of};
ghost use Rattle.mdl_num.specs.Flags.{flags_after, untouched_status};
ghost use Rattle.mdl_num.specs.Shifts.{shifted, shift_value, shifts_out, sign_differs};
ghost use Rattle.mdl_num.specs.Shifts.{shift_status, shift_flags, double_shifted};
ghost use Rattle.mdl_num.specs.Shifts.{double_shift_value, double_shift_flags};

use mdl_num::{Alu, Flag, ShiftOp, Status, bits, low, of_result, settle, signed, untouched, word};
use mdl_state::Size;

/// A string moved by fewer than 32 bits.
#[tactic(auto, unfolding(mdl_num::specs::Shifts::shifted))]
fn moved(op: ShiftOp, a: u32, by: u8, size: Size) -> u32
    requires a { a < bound_of size }
    requires by { by < 32 }
    ensures value { result ≡ shifted op size a by }
    ensures bound { result < bound_of size }
{
    match op {
        ShiftOp::Shl => low((a as u64) << by, size),
        ShiftOp::Shr => a >> by,
        ShiftOp::Sar => word(signed(a, size) >> by, size),
    }
}

/// The bit that leaves last.
#[tactic(auto, unfolding(mdl_num::specs::Shifts::shifts_out, mdl_num::specs::Flags::is_set))]
fn moves_out(op: ShiftOp, a: u32, by: u8, size: Size) -> bool
    requires a { a < bound_of size }
    requires by { by < 32 }
    ensures { result ≡ shifts_out op size a by }
{
    match op {
        ShiftOp::Shl => ((a as u64) << by) >> bits(size) & 1 == 1,
        ShiftOp::Shr | ShiftOp::Sar => a >> by.saturating_sub(1) & 1 == 1,
    }
}

/// Whether the highest bits differ.
#[tactic(auto, unfolding(mdl_num::specs::Shifts::sign_differs))]
fn differs_in_sign(a: u32, b: u32, size: Size) -> bool
    ensures { result ≡ sign_differs size a b }
{
    let highest = bits(size) - 1;
    a >> highest & 1 != b >> highest & 1
}

/// What a shift does with the flags.
#[tactic(auto, unfolding(mdl_num::specs::Shifts::shift_status, mdl_num::specs::Flags::untouched_status))]
fn after_shift(before: u32, value: u32, out: bool, by: u8, size: Size) -> Status
    ensures { result ≡ shift_status size before value out by }
{
    if by == 0 {
        return untouched();
    }
    let carry = if by as u32 <= bits(size) {
        Flag::Tells(out)
    } else {
        Flag::Undefined
    };
    let overflow = if by == 1 {
        Flag::Tells(differs_in_sign(before, value, size))
    } else {
        Flag::Undefined
    };
    of_result(value, size, carry, Flag::Undefined, overflow)
}

/// SHL, SHR and SAR.
#[tactic(auto, unfolding(mdl_num::specs::Shifts::shift_flags))]
pub fn shift(op: ShiftOp, a: u32, count: u8, size: Size, flags: u32) -> Alu
    requires { a < bound_of size }
    ensures value { result.value ≡ shift_value op size a count }
    ensures bound { result.value < bound_of size }
    ensures flags { result.flags ≡ flags_after (shift_flags op size a count) flags result.flags }
{
    let by = count % 32;
    let value = moved(op, a, by, size);
    let status = after_shift(a, value, moves_out(op, a, by, size), by, size);
    Alu {
        value,
        flags: settle(status, flags),
    }
}

/// The operand that stands so many bits below the head or above the end of the string of
/// destination, source and destination. Of four bytes, fewer than 32 bits reach no further than
/// the source.
#[tactic(auto, unfolding(mdl_num::specs::Shifts::double_shifted))]
fn double_moved(left: bool, dest: u32, source: u32, by: u8, size: Size) -> u32
    requires size { size ≢ B1 }
    requires dest { dest < bound_of size }
    requires source { source < bound_of size }
    requires by { by < 32 }
    ensures value { result ≡ double_shifted left size dest source by }
    ensures bound { result < bound_of size }
{
    let (dest, source) = (dest as u64, source as u64);
    match size {
        Size::B1 => unreachable!(),
        Size::B2 => {
            let string = (dest * 0x1_0000 + source) * 0x1_0000 + dest;
            low(string >> if left { 32 - by } else { by }, size)
        }
        Size::B4 if left => low((dest * 0x1_0000_0000 + source) >> (32 - by), size),
        Size::B4 => low((source * 0x1_0000_0000 + dest) >> by, size),
    }
}

/// SHLD, with `left`, and SHRD.
#[tactic(auto, unfolding(mdl_num::specs::Shifts::double_shift_flags))]
pub fn double_shift(left: bool, dest: u32, source: u32, count: u8, size: Size, flags: u32) -> Alu
    requires size { size ≢ B1 }
    requires dest { dest < bound_of size }
    requires source { source < bound_of size }
    ensures value { result.value ≡ double_shift_value left size dest source count }
    ensures bound { result.value < bound_of size }
    ensures flags { result.flags
        ≡ flags_after (double_shift_flags left size dest source count) flags result.flags }
{
    let by = count % 32;
    let value = double_moved(left, dest, source, by, size);
    let op = if left { ShiftOp::Shl } else { ShiftOp::Shr };
    let status = after_shift(dest, value, moves_out(op, dest, by, size), by, size);
    Alu {
        value,
        flags: settle(status, flags),
    }
}

#[cfg(test)]
mod tests {
    use super::*;
    use mdl_num::{CF, OF};

    // Worked by hand from the manual's descriptions. The last number has the flags that are defined.

    #[test]
    fn the_count_is_masked_and_the_last_bit_out_is_the_carry(rt: HostRuntime) {
        let answers = [
            (
                shift(ShiftOp::Shl, 0x81, 0x21, Size::B1, 2),
                0x02,
                0x803,
                0x8c7,
            ),
            (
                shift(ShiftOp::Shl, 0x81, 0x20, Size::B1, 0x8d7),
                0x81,
                0x8d7,
                0x8d7,
            ),
            (
                shift(ShiftOp::Shr, 0x8001, 1, Size::B2, 2),
                0x4000,
                0x807,
                0x8c7,
            ),
            (
                shift(ShiftOp::Sar, 0x8000_0001, 1, Size::B4, 2),
                0xc000_0000,
                0x87,
                0x8c7,
            ),
            (
                shift(ShiftOp::Sar, 0xc000_0000, 31, Size::B4, 2),
                0xffff_ffff,
                0x87,
                0xc7,
            ),
            (shift(ShiftOp::Shl, 0x01, 8, Size::B1, 2), 0x00, 0x47, 0xc7),
            (shift(ShiftOp::Shl, 0x01, 9, Size::B1, 2), 0x00, 0x46, 0xc6),
        ];
        for (answer, value, flags, defined) in answers {
            assert_eq!(rt; answer.value, value);
            assert_eq!(rt; answer.flags & defined, flags);
        }
    }

    // The string of 48 bits, written in hexadecimal and cut by hand.
    #[test]
    fn a_word_is_shifted_through_destination_source_and_destination(rt: HostRuntime) {
        let answers = [
            (double_shift(true, 0x1234, 0xabcd, 20, Size::B2, 2), 0xbcd1),
            (double_shift(false, 0x1234, 0xabcd, 20, Size::B2, 2), 0x4abc),
            (double_shift(true, 0x1234, 0xabcd, 4, Size::B2, 2), 0x234a),
            (
                double_shift(true, 0x1234_5678, 0x9abc_def0, 8, Size::B4, 2),
                0x3456_789a,
            ),
            (
                double_shift(false, 0x1234_5678, 0x9abc_def0, 8, Size::B4, 2),
                0xf012_3456,
            ),
        ];
        for (answer, value) in answers {
            assert_eq!(rt; answer.value, value);
        }
        let whole = double_shift(true, 0x1235, 0xabcd, 16, Size::B2, 2);
        assert_eq!(rt; whole.value, 0xabcd);
        assert_eq!(rt; whole.flags & 1 << CF, 1);
        let once = double_shift(true, 0x4000, 0, 1, Size::B2, 2);
        assert_eq!(rt; once.flags & 1 << OF, 0x800);
    }
}
