//! BT, BTS, BTR, BTC; BSF and BSR.

ghost use Rattle.std.specs.Prelude.{◌≡◌, ◌≢◌, ◌<◌};
ghost use Rattle.mdl_state.specs.declared.Size.TheVariants.{B1};
ghost use Rattle.mdl_state.specs.Bytes.{bits_of, bound_of};
ghost use Rattle.mdl_num.specs.Flags.{flags_after};
ghost use Rattle.mdl_num.specs.Bits.{bit_test_value, bit_test_status, scan_value, scan_status};

use mdl_num::{Alu, BitOp, Flag, Status, bit, settle, with_bit};
use mdl_state::Size;

/// The number with the bit left, set, cleared or changed.
#[tactic(auto, using(mdl_num::proofs::Places::bits_kept), unfolding(mdl_num::specs::Bits::bit_test_value))]
fn changed(op: BitOp, a: u32, place: u8, size: Size) -> u32
    requires a { a < bound_of size }
    requires place { place < bits_of size }
    ensures value { result ≡ bit_test_value op a place }
    ensures bound { result < bound_of size }
{
    match op {
        BitOp::Bt => a,
        BitOp::Bts => with_bit(a, place, true),
        BitOp::Btr => with_bit(a, place, false),
        BitOp::Btc => with_bit(a, place, !bit(a, place)),
    }
}

/// BT, BTS, BTR and BTC. PF stays.
#[tactic(auto, unfolding(mdl_num::specs::Bits::bit_test_status))]
pub fn bit_test(op: BitOp, a: u32, place: u8, size: Size, flags: u32) -> Alu
    requires size { size ≢ B1 }
    requires a { a < bound_of size }
    requires place { place < bits_of size }
    ensures value { result.value ≡ bit_test_value op a place }
    ensures bound { result.value < bound_of size }
    ensures flags { result.flags ≡ flags_after (bit_test_status a place) flags result.flags }
{
    let status = Status {
        carry: Flag::Tells(bit(a, place)),
        parity: Flag::Stays,
        adjust: Flag::Undefined,
        zero: Flag::Undefined,
        sign: Flag::Undefined,
        overflow: Flag::Undefined,
    };
    Alu {
        value: changed(op, a, place, size),
        flags: settle(status, flags),
    }
}

/// The place of the lowest or highest 1, or the destination where there is none.
#[tactic(auto, unfolding(mdl_num::specs::Bits::scan_value))]
fn found(up: bool, source: u32, dest: u32, size: Size) -> u32
    requires { dest < bound_of size }
    ensures value { result ≡ scan_value up source dest }
    ensures bound { result < bound_of size }
{
    if source == 0 {
        dest
    } else if up {
        source.trailing_zeros()
    } else {
        31 - source.leading_zeros()
    }
}

/// BSF, with `up`, and BSR.
#[tactic(auto, unfolding(mdl_num::specs::Bits::scan_status))]
pub fn scan(up: bool, source: u32, dest: u32, size: Size, flags: u32) -> Alu
    requires size { size ≢ B1 }
    requires source { source < bound_of size }
    requires dest { dest < bound_of size }
    ensures value { result.value ≡ scan_value up source dest }
    ensures bound { result.value < bound_of size }
    ensures flags { result.flags ≡ flags_after (scan_status source) flags result.flags }
{
    let status = Status {
        carry: Flag::Undefined,
        parity: Flag::Undefined,
        adjust: Flag::Undefined,
        zero: Flag::Tells(source == 0),
        sign: Flag::Undefined,
        overflow: Flag::Undefined,
    };
    Alu {
        value: found(up, source, dest, size),
        flags: settle(status, flags),
    }
}

#[cfg(test)]
mod tests {
    use super::*;
    use mdl_num::{CF, PF, ZF};

    // Worked by hand.

    #[test]
    fn a_bit_test_tells_the_bit_and_keeps_the_parity_flag(rt: HostRuntime) {
        let answers = [
            (bit_test(BitOp::Bt, 0x8000, 15, Size::B2, 6), 0x8000, 5),
            (bit_test(BitOp::Bts, 0x0000, 15, Size::B2, 3), 0x8000, 0),
            (
                bit_test(BitOp::Btr, 0xffff_ffff, 31, Size::B4, 2),
                0x7fff_ffff,
                1,
            ),
            (
                bit_test(BitOp::Btc, 0x0000_0001, 0, Size::B4, 6),
                0x0000_0000,
                5,
            ),
        ];
        for (answer, value, flags) in answers {
            assert_eq!(rt; answer.value, value);
            assert_eq!(rt; answer.flags & (1 << CF | 1 << PF), flags);
        }
    }

    #[test]
    fn a_scan_of_nothing_leaves_the_destination(rt: HostRuntime) {
        let answers = [
            (scan(true, 0x0050, 7, Size::B2, 0x42), 4, 0),
            (scan(false, 0x0050, 7, Size::B2, 0x42), 6, 0),
            (scan(false, 0x8000_0001, 7, Size::B4, 2), 31, 0),
            (scan(true, 0, 0x1234, Size::B4, 2), 0x1234, 1 << ZF),
        ];
        for (answer, value, flags) in answers {
            assert_eq!(rt; answer.value, value);
            assert_eq!(rt; answer.flags & 1 << ZF, flags);
        }
    }
}
