//! A text cut at a byte: into lines, and at a line's first space.

ghost use Rattle.std.specs.Prelude.{◌≡◌, ◌≢◌, ◌<◌, ℕ, List, [], ◌∷◌, ◌++◌, length, IfSome, IfNone};
ghost use Rattle.std.specs.Str.Lines.{lines, strip_carriage_return};
ghost use Rattle.mdl_text.specs.Script as script;
ghost use Rattle.mdl_text.specs.ScriptLaws.{Lacks};

const LINE_FEED: u8 = b'\n';

const CARRIAGE_RETURN: u8 = b'\r';

/// The first byte of a comment.
const COMMENT: u8 = b'#';

/// What stands before the first such byte, and what behind it.
pub(crate) fn cut_at(text: &[u8], byte: u8) -> Option<(&[u8], &[u8])>
    ensures whole { IfSome result (λ parts. text.now ≡ parts.0.now ++ byte ∷ parts.1.now) }
    ensures first { IfSome result (λ parts. Lacks byte parts.0.now) }
    ensures none { IfNone result (Lacks byte text.now) }
{
    let at = text.iter().position(|other| *other == byte)?;
    Some((&text[..at], &text[at + 1..]))
}

/// A line without the carriage return at its end, where it has one.
fn without_carriage_return(line: &[u8]) -> &[u8]
    ensures { result.now ≡ strip_carriage_return line.now }
{
    match line {
        [front @ .., CARRIAGE_RETURN] => front,
        _ => line,
    }
}

/// The first line of a text, and the text behind that line's end.
pub(crate) fn first_line(text: &[u8]) -> Option<(&[u8], &[u8])>
    ensures some { IfSome result (λ parts. lines text.now ≡ parts.0.now ∷ lines parts.1.now) }
    ensures shorter { IfSome result (λ parts. length parts.1.now < length text.now) }
    ensures none { IfNone result (text.now ≡ []) }
{
    if text.is_empty() {
        return None;
    }
    match cut_at(text, LINE_FEED) {
        Some((line, rest)) => Some((without_carriage_return(line), rest)),
        None => Some((text, &[])),
    }
}

/// Whether a line states nothing.
pub(crate) fn is_skipped(line: &[u8]) -> bool
    ensures { result ≡ script.is_skipped line.now }
{
    match line {
        [] => true,
        [first, ..] => *first == COMMENT,
    }
}
