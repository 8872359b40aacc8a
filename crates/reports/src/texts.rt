//! Text in fixed room: names and numbers.

ghost use Rattle.std.specs.Prelude.{◌≡◌, ◌++◌, ◌+◌, ◌≤◌, ◌<◌, length};
ghost use Rattle.std.specs.Fmt.{decimal};
ghost use Rattle.arrayvec.specs.ArrayVec.{array_vec_len};
ghost use Rattle.mdl_step.specs.Report.{named4, named8};
ghost use Rattle.mdl_insn.specs.Text.{digit, hex};

use arrayvec::ArrayVec;
use itoa::Buffer;

/// Room for a text: the longest is the lines of the registers.
pub const ROOM: usize = 1024;

/// A text.
pub fn push_text(text: &mut ArrayVec<u8, ROOM>, more: &[u8])
    requires { array_vec_len text.old + length more.now ≤ ROOM }
    ensures text { text.new.items ≡ text.old.items ++ more.now }
    ensures length { array_vec_len text.new ≡ array_vec_len text.old + length more.now }
{
    let _ = text.try_extend_from_slice(more);
}

/// A name and a number in four digits.
pub(crate) fn push_named4(text: &mut ArrayVec<u8, ROOM>, name: &[u8], number: u16)
    requires { array_vec_len text.old + length name.now + 4 ≤ ROOM }
    ensures text { text.new.items ≡ text.old.items ++ named4 name.now number }
    ensures length { array_vec_len text.new ≡ array_vec_len text.old + length name.now + 4 }
{
    let mut digits = [0u8; 4];
    let _ = hex::encode_to_slice(&number.to_be_bytes(), &mut digits);
    push_text(text, name);
    push_text(text, &digits);
}

/// A name and a number in eight digits.
pub(crate) fn push_named8(text: &mut ArrayVec<u8, ROOM>, name: &[u8], number: u32)
    requires { array_vec_len text.old + length name.now + 8 ≤ ROOM }
    ensures text { text.new.items ≡ text.old.items ++ named8 name.now number }
    ensures length { array_vec_len text.new ≡ array_vec_len text.old + length name.now + 8 }
{
    let mut digits = [0u8; 8];
    let _ = hex::encode_to_slice(&number.to_be_bytes(), &mut digits);
    push_text(text, name);
    push_text(text, &digits);
}

/// A number in decimal digits.
pub fn push_decimal(text: &mut ArrayVec<u8, ROOM>, number: u64)
    requires { array_vec_len text.old + 20 ≤ ROOM }
    ensures text { text.new.items ≡ text.old.items ++ decimal number }
    ensures length { array_vec_len text.new ≤ array_vec_len text.old + 20 }
{
    let mut buffer = Buffer::new();
    push_text(text, buffer.format(number).as_bytes());
}

/// A hexadecimal digit.
fn digit(n: u8) -> u8
    requires { n < 16 }
    ensures { result ≡ digit n }
{
    if n < 10 { b'0' + n } else { b'a' + (n - 10) }
}

/// The low hexadecimal digits of a number, so many of them.
pub fn push_hex(text: &mut ArrayVec<u8, ROOM>, digits: u8, number: u32)
    requires { array_vec_len text.old + digits ≤ ROOM }
    ensures text { text.new.items ≡ text.old.items ++ hex digits number }
    ensures length { array_vec_len text.new ≡ array_vec_len text.old + digits }
{
    if digits > 0 {
        push_hex(text, digits - 1, number / 16);
        text.push(digit((number % 16) as u8));
    }
}

/// A byte in two digits.
pub fn push_byte(text: &mut ArrayVec<u8, ROOM>, byte: u8)
    requires { array_vec_len text.old + 2 ≤ ROOM }
    ensures text { text.new.items ≡ text.old.items ++ hex 2 byte }
    ensures length { array_vec_len text.new ≡ array_vec_len text.old + 2 }
{
    push_hex(text, 2, u32::from(byte));
}
