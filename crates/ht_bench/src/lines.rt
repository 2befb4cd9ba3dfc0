//! The lines of a text in memory.
ghost use Rattle.std.specs.Prelude.{◌≡◌, ◌∷◌, ◌<◌, [], length, IfSome, IfNone};
ghost use Rattle.ht_ports.specs.LineRule.{lines_of, without_cr};

use crate::split::{before_last, split_at_byte};

/// A piece without one CR at its end.
fn without_return(piece: &[u8]) -> &[u8]
    ensures { result.now ≡ without_cr piece.now }
{
    before_last(piece, b'\r').unwrap_or(piece)
}

/// The first line of a text by the line rule and the text after it, or `None` where the text is empty.
pub(crate) fn next_line(text: &[u8]) -> Option<(&[u8], &[u8])>
    ensures first { IfSome result
        (λ parts. lines_of text.now ≡ parts.0.now ∷ lines_of parts.1.now) }
    ensures shorter { IfSome result (λ parts. length parts.1.now < length text.now) }
    ensures none { IfNone result (text.now ≡ []) }
{
    if text.is_empty() {
        return None;
    }
    match split_at_byte(text, b'\n') {
        Some((piece, rest)) => Some((without_return(piece), rest)),
        None => Some((without_return(text), &[])),
    }
}
