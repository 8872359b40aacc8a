//! The text of an answer, in fixed room.

ghost use Rattle.std.specs.Prelude.{◌≡◌, ◌≤◌, ◌+◌, ◌++◌, length};
ghost use Rattle.arrayvec.specs.ArrayVec.{array_vec_len};

use arrayvec::ArrayVec;

/// Room for an answer: the longest is that of `t 1000`.
pub(crate) const ANSWER_ROOM: usize = 0x28000;

/// The text of an answer.
pub(crate) type Text = ArrayVec<u8, ANSWER_ROOM>;

/// One more line.
pub(crate) fn push_line(text: &mut Text, line: &[u8])
    requires { array_vec_len text.old + length line.now ≤ ANSWER_ROOM }
    ensures text { text.new.items ≡ text.old.items ++ line.now }
    ensures length { array_vec_len text.new ≡ array_vec_len text.old + length line.now }
{
    let _ = text.try_extend_from_slice(line);
}

/// An answer of one piece.
pub(crate) fn text_of(line: &[u8]) -> Text
    requires { length line.now ≤ ANSWER_ROOM }
    ensures { result.items ≡ line.now }
{
    let mut text = Text::new();
    push_line(&mut text, line);
    text
}
