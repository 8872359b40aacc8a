//! Conditions by number.

ghost use Rattle.std.specs.Prelude.{◌≡◌, ℕ};
ghost use Rattle.lazy_flags.specs.Keeper.{with_status};
ghost use Rattle.mdl_effect.specs.Conditions.{is_less, holds, condition};

use lazy_flags::Flags;
use mdl_num::{CF, OF, PF, SF, ZF};

/// Whether a signed comparison came out less.
#[tactic(auto, using(crate::proofs::Statuses::packed_less))]
#[inline(always)]
fn is_less(flags: &Flags) -> bool
    ensures { (e : ℕ) → result ≡ is_less (with_status e flags.now) }
{
    flags.get(SF) != flags.get(OF)
}

/// A condition with an even number, by half of it.
#[tactic(auto, using(crate::proofs::Statuses::packed_bits))]
#[inline(always)]
fn holds(half: u8, flags: &Flags) -> bool
    ensures { (e : ℕ) → result ≡ holds half (with_status e flags.now) }
{
    match half {
        0 => flags.get(OF),
        1 => flags.get(CF),
        2 => flags.get(ZF),
        3 => flags.get(CF) || flags.get(ZF),
        4 => flags.get(SF),
        5 => flags.get(PF),
        6 => is_less(flags),
        _ => flags.get(ZF) || is_less(flags),
    }
}

/// Whether the condition with this number holds.
#[tactic(auto, unfolding(mdl_effect::specs::Conditions::condition))]
#[inline(always)]
pub fn condition(number: u8, flags: &Flags) -> bool
    ensures { (e : ℕ) → result ≡ condition number (with_status e flags.now) }
{
    if number % 2 == 0 {
        holds(number / 2, flags)
    } else {
        !holds(number / 2, flags)
    }
}
