//! Numbers in hexadecimal.

ghost use Rattle.std.specs.Prelude.{◌≡◌, ◌≤◌, ◌+◌, ◌<◌, ◌++◌};
ghost use Rattle.arrayvec.specs.ArrayString.{array_string_len};
ghost use Rattle.mdl_insn.specs.Text as spec;

use arrayvec::ArrayString;
use mdl_state::Size;

/// A text under construction.
pub type Text = ArrayString<96>;

fn digit(n: u8) -> char
    requires { n < 16 }
    ensures digit { result ≡ spec.digit n }
    ensures ascii { result < 128 }
{
    if n < 10 {
        char::from(b'0' + n)
    } else {
        char::from(b'a' + (n - 10))
    }
}

/// Appends so many digits.
pub fn hex(text: &mut Text, digits: u8, value: u32)
    requires { array_string_len text.old + digits ≤ 96 }
    ensures text { text.new.bytes ≡ text.old.bytes ++ spec.hex digits value }
    ensures room { array_string_len text.new ≡ array_string_len text.old + digits }
{
    if digits > 0 {
        hex(text, digits - 1, value / 16);
        text.push(digit((value % 16) as u8));
    }
}

/// Appends an immediate.
pub fn number(text: &mut Text, size: Size, value: u32)
    requires { array_string_len text.old + 10 ≤ 96 }
    ensures text { text.new.bytes ≡ text.old.bytes ++ spec.number size value }
    ensures room { array_string_len text.new ≤ array_string_len text.old + 10 }
{
    text.push_str("0x");
    match size {
        Size::B1 => hex(text, 2, value),
        Size::B2 => hex(text, 4, value),
        Size::B4 => hex(text, 8, value),
    }
}
