//! The event that a line states.

ghost use Rattle.std.specs.Prelude.{◌≡◌, ◌≢◌, ◌≤◌, ◌<◌, ◌^◌, ℕ, List, ◌↔◌, ◌++◌, IfSome, IfNone, IsTrue};
ghost use Rattle.std.specs.Fmt.{decimal};
ghost use Rattle.mdl_state.specs.declared.Event as written;
ghost use Rattle.mdl_state.specs.declared.EventKind as kinds;
ghost use Rattle.mdl_text.specs.Script.{IsByteText, IsKindText, States};

use crate::cuts::cut_at;
use itoa::Buffer;
use mdl_state::{Event, EventKind};
use std::str;

/// The most steps that a run makes.
const MOST_STEPS: u64 = 1_000_000_000_000_000;

/// The least and the most pulses of one event.
const LEAST_PULSES: u64 = 1;

const MOST_PULSES: u64 = 0xFFFF_FFFF;

const HEX: u32 = 16;

/// Whether a text is a number in decimal digits, without a sign or a leading zero.
fn is_decimal(text: &str, number: u64) -> bool
    ensures { IsTrue result ↔ (text.now ≡ decimal number) }
{
    let mut buffer = Buffer::new();
    buffer.format(number) == text
}

/// A number of at most `most`: decimal digits without a sign or a leading zero.
fn number_of(text: &[u8], most: u64) -> Option<u64>
    ensures some { IfSome result (λ n. (text.now ≡ decimal n) × (n ≤ most)) }
    ensures none { IfNone result ((n : ℕ) → n ≤ most → text.now ≢ decimal n) }
{
    let Ok(text) = str::from_utf8(text) else {
        return None;
    };
    let Ok(number) = text.parse::<u64>() else {
        return None;
    };
    if number > most {
        return None;
    }
    if !is_decimal(text, number) {
        return None;
    }
    Some(number)
}

/// The byte that two hexadecimal digits write.
fn byte_of(digits: &[u8]) -> Option<u8>
    ensures some { IfSome result (λ byte. IsByteText byte digits.now) }
    ensures none { IfNone result ((byte : ℕ) → ¬ (IsByteText byte digits.now)) }
{
    let [high, low] = digits else {
        return None;
    };
    let high = char::from(*high).to_digit(HEX)?;
    let low = char::from(*low).to_digit(HEX)?;
    Some((HEX * high + low) as u8)
}

/// What stands behind a word at the front of a text.
fn behind<'a>(text: &'a [u8], word: &[u8]) -> Option<&'a [u8]>
    ensures some { IfSome result (λ rest. text.now ≡ word.now ++ rest.now) }
    ensures none { IfNone result ((rest : List ℕ) → text.now ≢ word.now ++ rest) }
{
    text.strip_prefix(word)
}

/// Whether two texts are the same.
fn is_text(text: &[u8], other: &[u8]) -> bool
    ensures { IsTrue result ↔ (text.now ≡ other.now) }
{
    text == other
}

/// What happens, by its text.
fn kind_of(text: &[u8]) -> Option<EventKind>
    ensures some { IfSome result (λ kind. IsKindText kind text.now) }
    ensures none { IfNone result ((kind : kinds.EventKind) → ¬ (IsKindText kind text.now)) }
{
    if is_text(text, b"nmi") {
        return Some(EventKind::Nmi);
    }
    if is_text(text, b"reset") {
        return Some(EventKind::Reset);
    }
    if let Some(digits) = behind(text, b"key ") {
        let byte = byte_of(digits)?;
        return Some(EventKind::Key(byte));
    }
    let count = number_of(behind(text, b"pulse ")?, MOST_PULSES)?;
    if count < LEAST_PULSES {
        return None;
    }
    Some(EventKind::Pulse(count as u32))
}

/// The event that a line states.
pub(crate) fn event_of(line: &[u8]) -> Option<Event>
    ensures some { IfSome result (λ event. States line.now event) }
    ensures none { IfNone result ((event : written.Event) → ¬ (States line.now event)) }
{
    let (count, kind) = cut_at(line, b' ')?;
    let at = number_of(count, MOST_STEPS)?;
    let kind = kind_of(kind)?;
    Some(Event { at, kind })
}
