//! Bytes of physical memory.

ghost use Rattle.std.specs.Prelude.{◌≡◌, ◌≤◌};
ghost use Rattle.arrayvec.specs.ArrayVec.{array_vec_len};
ghost use Rattle.monitor.specs.Bytes.{bytes_line, bytes_lines};

use crate::target::Target;
use crate::texts::{Text, push_line};
use arrayvec::ArrayVec;
use reports::{ROOM, push_byte, push_hex, push_text};

/// How many bytes a line has.
const LINE_BYTES: u32 = 16;

/// A line of bytes.
#[tactic(auto, using(crate::proofs::Rows::rows), unfolding(crate::specs::Bytes::bytes_line))]
fn bytes_line<T: Target>(target: &T, at: u32, count: u32) -> ArrayVec<u8, ROOM>
    requires { count ≤ 16 }
    ensures text { result.items ≡ bytes_line (T.machine target.now).state.mem.physical at count }
    ensures length { array_vec_len result ≤ 57 }
{
    let mut text = ArrayVec::new();
    push_hex(&mut text, 8, at);
    for place in 0..count {
        push_text(&mut text, b" ");
        push_byte(&mut text, target.phys_byte(at.wrapping_add(place)));
    }
    push_text(&mut text, b"\n");
    text
}

/// The lines of so many bytes.
#[tactic(auto, using(crate::proofs::Rows::rows), unfolding(crate::specs::Bytes::bytes_lines))]
pub(crate) fn bytes_lines<T: Target>(target: &T, at: u32, count: u32) -> Text
    requires { count ≤ 4096 }
    ensures { result.items ≡ bytes_lines (T.machine target.now).state.mem.physical at count }
{
    let mut text = Text::new();
    for line in 0..count.div_ceil(LINE_BYTES) {
        let first = LINE_BYTES * line;
        let bytes = bytes_line(
            target,
            at.wrapping_add(first),
            LINE_BYTES.min(count - first),
        );
        push_line(&mut text, bytes.as_slice());
    }
    text
}
