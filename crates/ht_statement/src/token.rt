//! The tokens of a line.
ghost use Rattle.std.specs.Prelude.{◌≡◌, ◌∷◌, ◌<◌, ◌≤◌, [], length, option_map, IfSome, IfNone};
ghost use Rattle.ht_statement.specs.LineToken.{begins_comment, mark_of, tokens_of};
ghost use Rattle.ht_statement.specs.LineTokenOf.{token_of};
ghost use Rattle.ht_statement.specs.Word.{IsWordSplit, is_word_byte, BeginsNoBlank};

/// A word, or one of the four marks (ISCAS-89 format).
#[derive(Clone, Copy)]
pub(crate) enum LineToken<'a> {
    Word(&'a [u8]),
    Open,
    Close,
    Comma,
    Equals,
}

/// The token of a mark.
fn mark_of<'a>(byte: u8) -> Option<LineToken<'a>>
    ensures { option_map token_of result ≡ mark_of byte }
{
    match byte {
        b'(' => Some(LineToken::Open),
        b')' => Some(LineToken::Close),
        b',' => Some(LineToken::Comma),
        b'=' => Some(LineToken::Equals),
        _ => None,
    }
}

/// Whether a byte begins a comment.
fn begins_comment(byte: u8) -> bool
    ensures { result ≡ begins_comment byte }
{
    byte == b'#'
}

/// Whether a byte belongs to a word: it is no blank and no mark, and begins no comment.
fn is_word_byte(byte: u8) -> bool
    ensures { result ≡ is_word_byte byte }
{
    !begins_comment(byte) && !matches!(byte, b' ' | b'\t' | b'(' | b')' | b',' | b'=')
}

/// A text without the blanks that it begins with.
fn after_blanks(text: &[u8]) -> &[u8]
    ensures tokens { tokens_of result.now ≡ tokens_of text.now }
    ensures no_blank { BeginsNoBlank result.now }
    ensures length { length result.now ≤ length text.now }
{
    let mut rest = text;
    while let [b' ' | b'\t', after @ ..] = rest {
        rest = after;
    }
    rest
}

/// The bytes before the first that belongs to no word, and the text from there on.
fn split_word(text: &[u8]) -> (&[u8], &[u8])
    ensures { IsWordSplit text.now result.0.now result.1.now }
{
    for (place, byte) in text.iter().enumerate() {
        if !is_word_byte(*byte) {
            return text.split_at(place);
        }
    }
    (text, &[])
}

/// The first token of a text and the text after it, or `None` where the text has no token.
pub(crate) fn first_token(text: &[u8]) -> Option<(LineToken<'_>, &[u8])>
    ensures first { IfSome result (λ parts. tokens_of text.now ≡ token_of parts.0
        ∷ tokens_of parts.1.now) }
    ensures shorter { IfSome result (λ parts. length parts.1.now < length text.now) }
    ensures none { IfNone result (tokens_of text.now ≡ []) }
{
    let content = after_blanks(text);
    let [first, after @ ..] = content else {
        return None;
    };
    if begins_comment(*first) {
        return None;
    }
    if let Some(mark) = mark_of(*first) {
        return Some((mark, after));
    }
    let (word, rest) = split_word(content);
    Some((LineToken::Word(word), rest))
}
