//! The operands of commands.

ghost use Rattle.std.specs.Prelude.{◌≡◌, ℕ, ◌==◌, ◌↔◌, IsTrue, IfSome, IfNone, position};
ghost use Rattle.std.specs.Fmt.{decimal};
ghost use Rattle.mdl_text.specs.CommandLine.{most_steps, IsCount, IsAddress, IsStretch};

use itoa::Buffer;

/// The greatest count of steps.
const MOST_STEPS: u64 = 1_000_000_000_000_000;

/// How many digits an address has at most.
const ADDRESS_DIGITS: usize = 8;

/// The radix of an address.
const HEXADECIMAL: u32 = 16;

/// Whether a text is a number in decimal digits, without a sign or a leading zero.
fn is_decimal(text: &str, number: u64) -> bool
    ensures { IsTrue result ↔ (text.now ≡ decimal number) }
{
    let mut buffer = Buffer::new();
    buffer.format(number) == text
}

/// A count of a range: decimal digits without a sign or a leading zero.
fn count_of(text: &[u8], least: u64, most: u64) -> Option<u64>
    ensures some { IfSome result (λ n. IsCount least most n text.now) }
    ensures none { IfNone result ((n : ℕ) → ¬ (IsCount least most n text.now)) }
{
    let Ok(digits) = str::from_utf8(text) else {
        return None;
    };
    let Ok(number) = digits.parse::<u64>() else {
        return None;
    };
    if number < least || number > most {
        return None;
    }
    if !is_decimal(digits, number) {
        return None;
    }
    Some(number)
}

/// A count of steps.
pub(crate) fn steps_of(text: &[u8]) -> Option<u64>
    ensures some { IfSome result (λ n. IsCount 0 most_steps n text.now) }
    ensures none { IfNone result ((n : ℕ) → ¬ (IsCount 0 most_steps n text.now)) }
{
    count_of(text, 0, MOST_STEPS)
}

/// A count of at least one.
pub(crate) fn small_count_of(text: &[u8], most: u32) -> Option<u32>
    ensures some { IfSome result (λ n. IsCount 1 most n text.now) }
    ensures none { IfNone result ((n : ℕ) → ¬ (IsCount 1 most n text.now)) }
{
    let number = count_of(text, 1, u64::from(most))?;
    Some(number as u32)
}

/// An address: one to eight hexadecimal digits of either case.
pub(crate) fn address_of(text: &[u8]) -> Option<u32>
    ensures some { IfSome result (λ at. IsAddress at text.now) }
    ensures none { IfNone result ((at : ℕ) → ¬ (IsAddress at text.now)) }
{
    if text.is_empty() || text.len() > ADDRESS_DIGITS {
        return None;
    }
    let mut at = 0;
    for byte in text {
        let digit = char::from(*byte).to_digit(HEXADECIMAL)?;
        at = at * HEXADECIMAL + digit;
    }
    Some(at)
}

/// An address, and how many from there on.
#[derive(Clone, Copy)]
pub(crate) struct Stretch {
    pub(crate) at: u32,
    pub(crate) count: u32,
}

/// Where the first space stands.
fn first_space(text: &[u8]) -> Option<usize>
    ensures { result ≡ position (λ byte. byte == 32) text.now }
{
    text.iter().position(|byte| *byte == b' ')
}

/// An address, a space and a count.
pub(crate) fn stretch_of(text: &[u8], most: u32) -> Option<Stretch>
    ensures some { IfSome result (λ stretch. IsStretch most stretch.at stretch.count text.now) }
    ensures none { IfNone result ((at n : ℕ) → ¬ (IsStretch most at n text.now)) }
{
    let space = first_space(text)?;
    let at = address_of(&text[..space])?;
    let count = small_count_of(&text[space + 1..], most)?;
    Some(Stretch { at, count })
}
