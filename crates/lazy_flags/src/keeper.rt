//! The flags' keeper.

ghost use Rattle.std.specs.Prelude.{◌≡◌, ◌<◌, ◌==◌, ◌^◌, ℕ, nat_le, IsTrue, IfNone, IfSome};
ghost use Rattle.mdl_num.specs.Flags.{is_set, flags_after, has_even_parity};
ghost use Rattle.mdl_num.specs.Sizes.{half_of};
ghost use Rattle.mdl_num.specs.declared.status.Flag.TheVariants.{Tells};
ghost use Rattle.mdl_num.specs.Sums.{logic_status};
ghost use Rattle.mdl_state.specs.declared.Size.{Size as OneSize};
ghost use Rattle.mdl_state.specs.declared.Size.TheVariants.{B4};
ghost use Rattle.lazy_flags.specs.declared.operation.FlagOp.{FlagOp as OneOp};
ghost use Rattle.lazy_flags.specs.declared.operation.FlagOp.TheVariants.{Plain};
ghost use Rattle.lazy_flags.specs.Keeper.{with_status, is_status_bit, operation_status, FitsOperation, left, kept};

use crate::operation::FlagOp;
use alu_ops::{add, dec, difference, inc, sub, sum};
use mdl_num::{
    AF, CF, Flag, OF, PF, SF, ZF, bit, bound, half, is_even_parity, of_result, settle, with_bit,
};
use mdl_state::Size;
use std::marker::Model;

/// The six status flags: the last operation, with its numbers.
#[derive(Drop)]
pub struct Flags {
    op: FlagOp,
    a: u32,
    b: u32,
    size: Size,
}

impl Model for Flags {
    ghost use Rattle.std.specs.Prelude.{ℕ, ◌<◌, ◌^◌};
    ghost use Rattle.lazy_flags.specs.Keeper.{kept, FitsOperation};

    ghost Value = { ℕ };

    ghost view = { λ flags. kept flags.op flags.a flags.b flags.size };

    ghost invariant = { λ flags. FitsOperation flags.op flags.size flags.a flags.b × (flags.a < 2 ^ 32) };
}

/// EFLAGS with the status flags of another number.
#[tactic(auto, unfolding(crate::specs::Keeper::with_status))]
fn with_status(eflags: u32, from: u32) -> u32
    ensures { result ≡ with_status eflags from }
{
    let eflags = with_bit(eflags, CF, bit(from, CF));
    let eflags = with_bit(eflags, PF, bit(from, PF));
    let eflags = with_bit(eflags, AF, bit(from, AF));
    let eflags = with_bit(eflags, ZF, bit(from, ZF));
    let eflags = with_bit(eflags, SF, bit(from, SF));
    with_bit(eflags, OF, bit(from, OF))
}

/// The flags of AND, OR and XOR, by their result.
#[tactic(auto, unfolding(mdl_num::specs::Sums::logic_status, mdl_num::specs::Flags::status_of_result, mdl_num::specs::Flags::flags_after))]
fn after_logic(value: u32, size: Size) -> u32
    ensures { result ≡ flags_after (logic_status size value) 0 0 }
{
    let status = of_result(
        value,
        size,
        Flag::Tells(false),
        Flag::Tells(false),
        Flag::Tells(false),
    );
    settle(status, 0)
}

/// CF after an operation.
#[tactic(auto, unfolding(crate::specs::Keeper::operation_status, mdl_num::specs::Sums::sum_status, mdl_num::specs::Sums::difference_status, mdl_num::specs::Sums::logic_status, mdl_num::specs::Flags::status_of_result))]
fn carry(op: FlagOp, a: u32, b: u32, size: Size) -> bool
    ensures { (operation_status op size a b).carry ≡ Tells result }
{
    let (wide, other) = (u64::from(a), u64::from(b));
    match op {
        FlagOp::Add => bound(size) <= wide + other,
        FlagOp::AddCarry(carry) => bound(size) <= wide + other + u64::from(carry),
        FlagOp::Sub => wide < other,
        FlagOp::SubBorrow(borrow) => wide < other + u64::from(borrow),
        FlagOp::Logic => false,
        FlagOp::Inc(carry) | FlagOp::Dec(carry) => carry,
        FlagOp::Plain => bit(a, CF),
    }
}

/// The value that an operation leaves, or nothing of a number that has the flags themselves.
#[tactic(auto, unfolding(crate::specs::Keeper::operation_status, mdl_num::specs::Sums::sum_status, mdl_num::specs::Sums::difference_status, mdl_num::specs::Sums::logic_status, mdl_num::specs::Flags::status_of_result))]
fn value(op: FlagOp, a: u32, b: u32, size: Size) -> Option<u32>
    requires { FitsOperation op size a b }
    ensures none { IfNone result (op ≡ Plain) }
    ensures zero { IfSome result (λ v. (operation_status op size a b).zero ≡ Tells (v == 0)) }
    ensures sign { IfSome result (λ v. (operation_status op size a b).sign ≡ Tells (nat_le (half_of size) v)) }
    ensures parity { IfSome result (λ v. (operation_status op size a b).parity ≡ Tells (has_even_parity v)) }
{
    match op {
        FlagOp::Add => Some(sum(a, b, false, size)),
        FlagOp::AddCarry(carry) => Some(sum(a, b, carry, size)),
        FlagOp::Sub => Some(difference(a, b, false, size)),
        FlagOp::SubBorrow(borrow) => Some(difference(a, b, borrow, size)),
        FlagOp::Logic => Some(a),
        FlagOp::Inc(_) => Some(sum(a, 1, false, size)),
        FlagOp::Dec(_) => Some(difference(a, 1, false, size)),
        FlagOp::Plain => None,
    }
}

/// The flags that an operation leaves.
fn left_by(op: FlagOp, a: u32, b: u32, size: Size) -> u32
    requires { FitsOperation op size a b }
    ensures { result ≡ left op a b size }
{
    match op {
        FlagOp::Add => add(a, b, false, size, 0).flags,
        FlagOp::AddCarry(carry) => add(a, b, carry, size, 0).flags,
        FlagOp::Sub => sub(a, b, false, size, 0).flags,
        FlagOp::SubBorrow(borrow) => sub(a, b, borrow, size, 0).flags,
        FlagOp::Logic => after_logic(a, size),
        FlagOp::Inc(carry) => inc(a, size, carry as u32).flags,
        FlagOp::Dec(carry) => dec(a, size, carry as u32).flags,
        FlagOp::Plain => with_status(0, a),
    }
}

impl Flags {
    /// The operation was made on these numbers.
    #[inline(always)]
    pub fn set_from(&mut self, op: FlagOp, a: u32, b: u32, size: Size)
        requires { FitsOperation op size a b }
        ensures { self.new ≡ kept op a b size }
    {
        self.op = op;
        self.a = a;
        self.b = b;
        self.size = size;
    }

    /// The last operation, with its numbers and their size.
    pub fn last(&self) -> (FlagOp, u32, u32, Size)
        ensures { (op : OneOp) (a b : ℕ) (size : OneSize) → a < 2 ^ 32 → self.now ≡ kept op a b size
            → (result.0 ≡ op) × (result.1 ≡ a) × (result.2 ≡ b) × (result.3 ≡ size) }
    {
        (self.op, self.a, self.b, self.size)
    }

    /// The six flags at their places.
    #[tactic(auto, using(crate::proofs::Kept::kept_flag, crate::proofs::Kept::kept_packed))]
    fn word(&self) -> u32
        ensures flags { (k : ℕ) → IsTrue (is_status_bit k) → is_set result k ≡ is_set self.now k }
        ensures packed { (e : ℕ) → with_status e result ≡ with_status e self.now }
    {
        left_by(self.op, self.a, self.b, self.size)
    }

    /// A flag, by its bit in EFLAGS.
    #[tactic(auto, using(crate::proofs::Kept::told_flags), unfolding(crate::specs::Keeper::operation_status))]
    #[inline(always)]
    pub fn get(&self, flag: u8) -> bool
        requires { IsTrue (is_status_bit flag) }
        ensures { result ≡ is_set self.now flag }
    {
        if flag == CF {
            return carry(self.op, self.a, self.b, self.size);
        }
        let value = value(self.op, self.a, self.b, self.size);
        if value.is_none() {
            return bit(self.a, flag);
        }
        match (flag, value) {
            (PF, Some(value)) => is_even_parity(value),
            (ZF, Some(value)) => value == 0,
            (SF, Some(value)) => half(self.size) <= value,
            _ => bit(self.word(), flag),
        }
    }

    /// EFLAGS with these flags.
    pub fn pack(&self, eflags: u32) -> u32
        ensures { result ≡ with_status eflags self.now }
    {
        with_status(eflags, self.word())
    }

    /// The flags of EFLAGS.
    pub fn unpack(eflags: u32) -> Flags
        ensures { result ≡ kept Plain eflags 0 B4 }
    {
        Flags {
            op: FlagOp::Plain,
            a: eflags,
            b: 0,
            size: Size::B4,
        }
    }
}

#[cfg(test)]
mod tests {
    use super::*;

    /// The six flags, asked for one by one, at their places.
    fn told(flags: &Flags) -> u32 {
        let told = with_bit(0, CF, flags.get(CF));
        let told = with_bit(told, PF, flags.get(PF));
        let told = with_bit(told, AF, flags.get(AF));
        let told = with_bit(told, ZF, flags.get(ZF));
        let told = with_bit(told, SF, flags.get(SF));
        with_bit(told, OF, flags.get(OF))
    }

    // Worked by hand from the manual, chapter 17. SETcc and ADC ask for one flag; PUSHF, LAHF, RCL and
    // DAA take all six packed into EFLAGS, whose other bits are 602h.
    #[test]
    fn each_operation_is_seen_flag_by_flag_and_packed(rt: HostRuntime) {
        let mut flags = Flags::unpack(0);
        flags.set_from(FlagOp::Add, 0xff, 0x01, Size::B1);
        assert!(rt; told(&flags) == 0x055 && flags.pack(0x602) == 0x657);
        flags.set_from(FlagOp::AddCarry(true), 0x7fff, 0, Size::B2);
        assert!(rt; told(&flags) == 0x894 && flags.pack(0x602) == 0xe96);
        flags.set_from(FlagOp::Sub, 0, 1, Size::B4);
        assert!(rt; told(&flags) == 0x095 && flags.pack(0x602) == 0x697);
        flags.set_from(FlagOp::Sub, 0x80, 0x01, Size::B1);
        assert!(rt; told(&flags) == 0x810 && flags.pack(0x602) == 0xe12);
        flags.set_from(FlagOp::SubBorrow(true), 0x1234, 0x1233, Size::B2);
        assert!(rt; told(&flags) == 0x044 && flags.pack(0x602) == 0x646);
        flags.set_from(FlagOp::Logic, 0x81, 0, Size::B1);
        assert!(rt; told(&flags) & !(1 << AF) == 0x084 && flags.pack(0x602) & !(1 << AF) == 0x686);
        flags.set_from(FlagOp::Inc(true), 0x7f, 1, Size::B1);
        assert!(rt; told(&flags) == 0x891 && flags.pack(0x602) == 0xe93);
        flags.set_from(FlagOp::Inc(false), 0xffff_ffff, 1, Size::B4);
        assert!(rt; told(&flags) == 0x054 && flags.pack(0x602) == 0x656);
        flags.set_from(FlagOp::Dec(true), 1, 1, Size::B2);
        assert!(rt; told(&flags) == 0x045 && flags.pack(0x602) == 0x647);
        flags.set_from(FlagOp::Dec(false), 0x80, 1, Size::B1);
        assert!(rt; told(&flags) == 0x810 && flags.pack(0x602) == 0xe12);
        flags.set_from(FlagOp::Sub, 0, 0x80, Size::B1);
        assert!(rt; told(&flags) == 0x881 && flags.pack(0x602) == 0xe83);
    }

    // FFh and 1 carry; 5 and 1 are 6, which has two 1s.
    #[test]
    fn inc_behind_add_keeps_the_carry(rt: HostRuntime) {
        let mut flags = Flags::unpack(0);
        flags.set_from(FlagOp::Add, 0xff, 0x01, Size::B1);
        let carry = flags.get(CF);
        flags.set_from(FlagOp::Inc(carry), 5, 1, Size::B4);
        assert!(rt; told(&flags) == 0x005 && flags.pack(0x602) == 0x607);
    }

    // Worked by hand, as the same sums are for `alu_ops`. The other bits of EFLAGS are 602h.
    #[test]
    fn packed_flags_are_those_of_the_last_operation(rt: HostRuntime) {
        let mut flags = Flags::unpack(0x8d7);
        assert_eq!(rt; flags.pack(0x602), 0xed7);
        flags.set_from(FlagOp::Add, 0x7f, 0x01, Size::B1);
        assert_eq!(rt; flags.pack(0x6d7), 0xe92);
        assert!(rt; flags.get(OF) && !flags.get(CF));
        flags.set_from(FlagOp::SubBorrow(true), 0x00, 0xff, Size::B1);
        assert_eq!(rt; flags.pack(0x602), 0x657);
        flags.set_from(FlagOp::Inc(true), 0xff, 1, Size::B1);
        assert_eq!(rt; flags.pack(0x602), 0x657);
        flags.set_from(FlagOp::Dec(false), 0x8000, 1, Size::B2);
        assert_eq!(rt; flags.pack(0x602), 0xe16);
        flags.set_from(FlagOp::Logic, 0, 0, Size::B4);
        assert_eq!(rt; flags.pack(0x602) & !(1 << AF), 0x646);
        flags.set_from(FlagOp::Plain, 0xffff_ffff, 0, Size::B4);
        assert_eq!(rt; flags.pack(0), 0x8d5);
        flags.set_from(FlagOp::Inc(true), 0x7f, 1, Size::B1);
        assert!(rt; flags.get(CF) && flags.get(OF) && flags.get(SF) && flags.get(AF));
        assert!(rt; !flags.get(ZF) && !flags.get(PF));
        assert!(rt; flags.last() == (FlagOp::Inc(true), 0x7f, 1, Size::B1));
        assert!(rt; Flags::unpack(0x246).last() == (FlagOp::Plain, 0x246, 0, Size::B4));
    }
}
