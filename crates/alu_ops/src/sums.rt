//! ADD, ADC, SUB, SBB, CMP, INC, DEC, NEG; AND, OR, XOR, TEST.

ghost use Rattle.std.specs.Prelude.{◌≡◌, ◌<◌, false};
ghost use Rattle.mdl_state.specs.Bytes.{bound_of};
ghost use Rattle.mdl_num.specs.Flags.{flags_after};
ghost use Rattle.mdl_num.specs.Sums.{sum_value, sum_overflows, sum_status, difference_value};
ghost use Rattle.mdl_num.specs.Sums.{difference_overflows, difference_status, increment_status};
ghost use Rattle.mdl_num.specs.Sums.{decrement_status, logic_value, logic_status};
ghost use Rattle.mdl_num.specs.declared.status.Flag.TheVariants.{Stays};

use mdl_num::{Alu, Flag, LogicOp, Status, bound, fits, low, of_result, settle, signed};
use mdl_state::Size;

/// The value of a sum.
#[tactic(auto, unfolding(mdl_num::specs::Sums::sum_value))]
pub fn sum(a: u32, b: u32, carry: bool, size: Size) -> u32
    ensures value { result ≡ sum_value size a b carry }
    ensures bound { result < bound_of size }
{
    low(a as u64 + b as u64 + carry as u64, size)
}

/// OF of a sum.
#[tactic(auto, unfolding(mdl_num::specs::Sums::sum_overflows))]
fn sum_overflow(a: u32, b: u32, carry: bool, size: Size) -> bool
    requires a { a < bound_of size }
    requires b { b < bound_of size }
    ensures { result ≡ sum_overflows size a b carry }
{
    !fits(signed(a, size) + signed(b, size) + carry as i64, size)
}

/// What a sum does with the flags.
#[tactic(auto, unfolding(mdl_num::specs::Sums::sum_status, mdl_num::specs::Sums::sum_value))]
fn after_sum(a: u32, b: u32, carry: bool, size: Size) -> Status
    requires a { a < bound_of size }
    requires b { b < bound_of size }
    ensures { result ≡ sum_status size a b carry }
{
    let sum = a as u64 + b as u64 + carry as u64;
    of_result(
        low(sum, size),
        size,
        Flag::Tells(sum >= bound(size)),
        Flag::Tells(a % 16 + b % 16 + carry as u32 >= 16),
        Flag::Tells(sum_overflow(a, b, carry, size)),
    )
}

/// ADD, and ADC with the carry.
pub fn add(a: u32, b: u32, carry: bool, size: Size, flags: u32) -> Alu
    requires a { a < bound_of size }
    requires b { b < bound_of size }
    ensures value { result.value ≡ sum_value size a b carry }
    ensures bound { result.value < bound_of size }
    ensures flags { result.flags ≡ flags_after (sum_status size a b carry) flags result.flags }
{
    Alu {
        value: sum(a, b, carry, size),
        flags: settle(after_sum(a, b, carry, size), flags),
    }
}

/// OF of a difference.
#[tactic(auto, unfolding(mdl_num::specs::Sums::difference_overflows))]
fn difference_overflow(a: u32, b: u32, borrow: bool, size: Size) -> bool
    requires a { a < bound_of size }
    requires b { b < bound_of size }
    ensures { result ≡ difference_overflows size a b borrow }
{
    !fits(signed(a, size) - signed(b, size) - borrow as i64, size)
}

/// The value of a difference.
#[tactic(auto, unfolding(mdl_num::specs::Sums::difference_value))]
pub fn difference(a: u32, b: u32, borrow: bool, size: Size) -> u32
    requires b { b < bound_of size }
    ensures value { result ≡ difference_value size a b borrow }
    ensures bound { result < bound_of size }
{
    low(bound(size) + a as u64 - (b as u64 + borrow as u64), size)
}

/// What a difference does with the flags.
#[tactic(auto, unfolding(mdl_num::specs::Sums::difference_status))]
fn after_difference(a: u32, b: u32, borrow: bool, size: Size) -> Status
    requires a { a < bound_of size }
    requires b { b < bound_of size }
    ensures { result ≡ difference_status size a b borrow }
{
    of_result(
        difference(a, b, borrow, size),
        size,
        Flag::Tells((a as u64) < b as u64 + borrow as u64),
        Flag::Tells(a % 16 < b % 16 + borrow as u32),
        Flag::Tells(difference_overflow(a, b, borrow, size)),
    )
}

/// SUB and CMP, and SBB with the borrow.
pub fn sub(a: u32, b: u32, borrow: bool, size: Size, flags: u32) -> Alu
    requires a { a < bound_of size }
    requires b { b < bound_of size }
    ensures value { result.value ≡ difference_value size a b borrow }
    ensures bound { result.value < bound_of size }
    ensures flags { result.flags
        ≡ flags_after (difference_status size a b borrow) flags result.flags }
{
    Alu {
        value: difference(a, b, borrow, size),
        flags: settle(after_difference(a, b, borrow, size), flags),
    }
}

/// The same but for CF, which stays.
fn keeping_carry(status: Status) -> Status
    ensures { result ≡ record status { carry = Stays } }
{
    Status {
        carry: Flag::Stays,
        ..status
    }
}

/// INC. CF stays.
#[tactic(auto, unfolding(mdl_num::specs::Sums::increment_status, mdl_num::specs::Sums::sum_value))]
pub fn inc(a: u32, size: Size, flags: u32) -> Alu
    requires { a < bound_of size }
    ensures value { result.value ≡ sum_value size a 1 false }
    ensures bound { result.value < bound_of size }
    ensures flags { result.flags ≡ flags_after (increment_status size a) flags result.flags }
{
    let status = after_sum(a, 1, false, size);
    Alu {
        value: low(a as u64 + 1, size),
        flags: settle(keeping_carry(status), flags),
    }
}

/// DEC. CF stays.
#[tactic(auto, unfolding(mdl_num::specs::Sums::decrement_status))]
pub fn dec(a: u32, size: Size, flags: u32) -> Alu
    requires { a < bound_of size }
    ensures value { result.value ≡ difference_value size a 1 false }
    ensures bound { result.value < bound_of size }
    ensures flags { result.flags ≡ flags_after (decrement_status size a) flags result.flags }
{
    let status = after_difference(a, 1, false, size);
    Alu {
        value: difference(a, 1, false, size),
        flags: settle(keeping_carry(status), flags),
    }
}

/// NEG: the difference of 0 and the operand.
pub fn neg(a: u32, size: Size, flags: u32) -> Alu
    requires { a < bound_of size }
    ensures value { result.value ≡ difference_value size 0 a false }
    ensures bound { result.value < bound_of size }
    ensures flags { result.flags
        ≡ flags_after (difference_status size 0 a false) flags result.flags }
{
    sub(0, a, false, size, flags)
}

/// AND, OR and XOR, bit by bit.
#[tactic(auto, unfolding(mdl_num::specs::Sums::logic_value))]
pub fn bitwise(op: LogicOp, a: u32, b: u32) -> u32
    ensures { result ≡ logic_value op a b }
{
    match op {
        LogicOp::And => a & b,
        LogicOp::Or => a | b,
        LogicOp::Xor => a ^ b,
    }
}

/// AND, OR, XOR, and TEST by `And`.
#[tactic(auto, unfolding(mdl_num::specs::Sums::logic_status))]
pub fn logic(op: LogicOp, a: u32, b: u32, size: Size, flags: u32) -> Alu
    requires a { a < bound_of size }
    requires b { b < bound_of size }
    ensures value { result.value ≡ logic_value op a b }
    ensures bound { result.value < bound_of size }
    ensures flags { result.flags
        ≡ flags_after (logic_status size (logic_value op a b)) flags result.flags }
{
    let value = bitwise(op, a, b);
    let status = of_result(
        value,
        size,
        Flag::Tells(false),
        Flag::Undefined,
        Flag::Tells(false),
    );
    Alu {
        value,
        flags: settle(status, flags),
    }
}

#[cfg(test)]
mod tests {
    use super::*;
    use mdl_num::AF;

    // Worked by hand from the manual's descriptions of the flags. EFLAGS is 2 before, and 3 with a carry.

    #[test]
    fn a_carry_and_an_overflow_go_by_the_size(rt: HostRuntime) {
        for (a, b, carry, size, value, flags) in [
            (0x7f, 0x01, false, Size::B1, 0x80, 0x892),
            (0xff, 0x01, false, Size::B1, 0x00, 0x57),
            (0xffff, 0x0000, true, Size::B2, 0x0000, 0x57),
            (0x00ff, 0x0001, false, Size::B2, 0x0100, 0x16),
            (0x7fff_ffff, 0x7fff_ffff, true, Size::B4, 0xffff_ffff, 0x896),
        ] {
            let answer = add(low(a, size), low(b, size), carry, size, 2);
            assert_eq!(rt; answer.value, value);
            assert_eq!(rt; answer.flags, flags);
        }
    }

    #[test]
    fn a_borrow_goes_by_the_size(rt: HostRuntime) {
        for (a, b, borrow, size, value, flags) in [
            (0x00, 0x01, false, Size::B1, 0xff, 0x97),
            (0x80, 0x01, false, Size::B1, 0x7f, 0x812),
            (0x00, 0xff, true, Size::B1, 0x00, 0x57),
            (0x0000, 0x8000, false, Size::B2, 0x8000, 0x887),
            (0x8000_0000, 0x8000_0000, false, Size::B4, 0, 0x46),
        ] {
            let answer = sub(low(a, size), low(b, size), borrow, size, 2);
            assert_eq!(rt; answer.value, value);
            assert_eq!(rt; answer.flags, flags);
        }
    }

    #[test]
    fn inc_and_dec_leave_the_carry_and_neg_sets_it(rt: HostRuntime) {
        let answers = [
            (inc(0xff, Size::B1, 3), 0x00, 0x57),
            (inc(0xff, Size::B1, 2), 0x00, 0x56),
            (dec(0x8000, Size::B2, 3), 0x7fff, 0x817),
            (neg(0, Size::B4, 3), 0, 0x46),
            (neg(0x80, Size::B1, 2), 0x80, 0x883),
        ];
        for (answer, value, flags) in answers {
            assert_eq!(rt; answer.value, value);
            assert_eq!(rt; answer.flags, flags);
        }
    }

    #[test]
    fn logic_clears_carry_and_overflow(rt: HostRuntime) {
        for (op, a, b, value, flags) in [
            (LogicOp::And, 0xf0, 0x0f, 0x00, 0x46),
            (LogicOp::Or, 0xf0, 0x0f, 0xff, 0x86),
            (LogicOp::Xor, 0xaa, 0x2b, 0x81, 0x86),
        ] {
            let answer = logic(op, low(a, Size::B1), low(b, Size::B1), Size::B1, 0x803);
            assert_eq!(rt; answer.value, value);
            assert_eq!(rt; answer.flags & !(1 << AF), flags);
        }
    }
}
