//! The input as it comes in, in pieces of any length, cut into lines.

ghost use Rattle.std.specs.Prelude.{◌≡◌, ◌==◌, ◌++◌, ◌↔◌, IsTrue, [], take, position};
ghost use Rattle.std.specs.List.{position_or_len};
ghost use Rattle.mdl_text.specs.CommandInput.{kept, text_of, line_feed};

use arrayvec::ArrayVec;
use std::marker::Model;

/// How many bytes of a line are kept: a line of 64 with its carriage return, and one more.
const KEPT: usize = 66;

/// The line that has begun, as far as it matters.
///
/// Of a line that is too long the first bytes are kept: they are no command, as the line is none.
#[derive(Drop)]
pub struct LineBuffer {
    bytes: ArrayVec<u8, KEPT>,
}

impl Model for LineBuffer {
    ghost use Rattle.std.specs.Prelude.{ℕ, List};

    ghost Value = { List ℕ };

    ghost view = { λ b. b.bytes.items };
}

/// Where the first line feed stands.
fn first_line_feed(piece: &[u8]) -> Option<usize>
    ensures { result ≡ position (λ byte. byte == line_feed) piece.now }
{
    piece.iter().position(|byte| *byte == b'\n')
}

impl LineBuffer {
    /// A line of which nothing came yet.
    pub fn new() -> LineBuffer
        ensures { result ≡ [] }
    {
        LineBuffer {
            bytes: ArrayVec::new(),
        }
    }

    /// Keeps more bytes of the line.
    fn keep(&mut self, more: &[u8])
        ensures { self.new ≡ kept (self.old ++ more.now) }
    {
        let room = KEPT - self.bytes.len();
        let _ = self
            .bytes
            .try_extend_from_slice(&more[..room.min(more.len())]);
    }

    /// Takes the bytes of a piece up to the first line feed, and answers where that stands. Without
    /// one it takes the whole piece, and the line goes on.
    pub fn take(&mut self, piece: &[u8]) -> Option<usize>
        ensures end { result ≡ position (λ byte. byte == line_feed) piece.now }
        ensures taken { self.new ≡ kept (self.old ++ take (position_or_len (λ byte. byte == line_feed) piece.now) piece.now) }
    {
        let end = first_line_feed(piece);
        match end {
            Some(end) => self.keep(&piece[..end]),
            None => self.keep(piece),
        }
        end
    }

    /// The line without its end, for `read_line`. A carriage return before the end belongs to it.
    pub fn line(&self) -> &[u8]
        ensures { result.now ≡ text_of self.now }
    {
        let line = self.bytes.as_slice();
        if !line.is_empty() && line[line.len() - 1] == b'\r' {
            &line[..line.len() - 1]
        } else {
            line
        }
    }

    /// Whether nothing of the line came yet: at the end of the input there is then no line more.
    pub fn is_empty(&self) -> bool
        ensures { IsTrue result ↔ (self.now ≡ []) }
    {
        self.bytes.is_empty()
    }

    /// Begins the next line.
    pub fn clear(&mut self)
        ensures { self.new ≡ [] }
    {
        self.bytes.clear();
    }
}
