//! The status flags, and how they are put into EFLAGS.

ghost use Rattle.std.specs.Prelude.{◌≡◌, ◌≢◌, ◌<◌, ℕ};
ghost use Rattle.std.specs.Int.{bit_at, from_bool};
ghost use Rattle.mdl_num.specs.Flags.{is_set, with_bit, put, flags_after, has_even_parity, status_of_result};
ghost use Rattle.mdl_num.specs.Flags.{untouched_status};

use crate::sizes::half;
use mdl_state::Size;

/// The carry flag's bit in EFLAGS.
pub const CF: u8 = 0;
/// The parity flag's bit in EFLAGS.
pub const PF: u8 = 2;
/// The adjust flag's bit in EFLAGS, the carry between the two digits of a byte.
pub const AF: u8 = 4;
/// The zero flag's bit in EFLAGS.
pub const ZF: u8 = 6;
/// The sign flag's bit in EFLAGS.
pub const SF: u8 = 7;
/// The overflow flag's bit in EFLAGS.
pub const OF: u8 = 11;

/// What an operation does with a flag.
#[derive(Clone, Copy, Debug, PartialEq, Eq)]
pub enum Flag {
    /// The flag tells whether something is so.
    Tells(bool),
    /// The flag is undefined.
    Undefined,
    /// The flag stays as it was.
    Stays,
}

/// What an operation does with each status flag.
#[derive(Clone, Copy, Debug, PartialEq, Eq)]
pub struct Status {
    pub carry: Flag,
    pub parity: Flag,
    pub adjust: Flag,
    pub zero: Flag,
    pub sign: Flag,
    pub overflow: Flag,
}

/// Whether a bit of EFLAGS is 1.
#[tactic(auto, unfolding(crate::specs::Flags::is_set))]
pub fn bit(flags: u32, bit: u8) -> bool
    requires { bit < 32 }
    ensures { result ≡ is_set flags bit }
{
    (flags >> bit) & 1 == 1
}

/// The number with another bit in a place.
pub fn with_bit(number: u32, bit: u8, on: bool) -> u32
    requires { bit < 32 }
    ensures { result ≡ with_bit number bit (from_bool on) }
{
    (number & !(1 << bit)) | ((on as u32) << bit)
}

/// Whether the low byte has an even number of ones.
#[tactic(auto, unfolding(crate::specs::Flags::has_even_parity))]
pub fn is_even_parity(value: u32) -> bool
    ensures { result ≡ has_even_parity value }
{
    (value % 0x100).count_ones() % 2 == 0
}

/// EFLAGS with the bit of one flag.
fn placed(flags: u32, bit: u8, flag: Flag) -> u32
    requires { bit < 32 }
    ensures own { (free : ℕ) → bit_at free bit ≡ bit_at result bit → result ≡ put bit flag free flags }
    ensures rest { (other : ℕ) → other ≢ bit → bit_at result other ≡ bit_at flags other }
{
    match flag {
        Flag::Tells(on) => with_bit(flags, bit, on),
        Flag::Undefined | Flag::Stays => flags,
    }
}

/// EFLAGS after an operation. An undefined flag is left as it was.
pub fn settle(status: Status, flags: u32) -> u32
    ensures { result ≡ flags_after status flags result }
{
    let flags = placed(flags, CF, status.carry);
    let flags = placed(flags, PF, status.parity);
    let flags = placed(flags, AF, status.adjust);
    let flags = placed(flags, ZF, status.zero);
    let flags = placed(flags, SF, status.sign);
    placed(flags, OF, status.overflow)
}

/// The flags that tell of a result, beside those that have a rule of their own.
#[tactic(auto, unfolding(crate::specs::Flags::status_of_result))]
pub fn of_result(value: u32, size: Size, carry: Flag, adjust: Flag, overflow: Flag) -> Status
    ensures { result ≡ status_of_result size value carry adjust overflow }
{
    Status {
        carry,
        parity: Flag::Tells(is_even_parity(value)),
        adjust,
        zero: Flag::Tells(value == 0),
        sign: Flag::Tells(value >= half(size)),
        overflow,
    }
}

/// No flag changes.
#[tactic(auto, unfolding(crate::specs::Flags::untouched_status))]
pub fn untouched() -> Status
    ensures { result ≡ untouched_status }
{
    Status {
        carry: Flag::Stays,
        parity: Flag::Stays,
        adjust: Flag::Stays,
        zero: Flag::Stays,
        sign: Flag::Stays,
        overflow: Flag::Stays,
    }
}
