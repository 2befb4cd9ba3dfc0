//! What a text begins with.
ghost use Rattle.std.specs.Prelude.{◌≡◌, ◌↔◌, ◌∷◌, ◌<◌, [], length, IsTrue, IfSome, IfNone};
ghost use Rattle.ht_statement.specs.LineToken.{word_token, close_token, comma_token, tokens_of};
ghost use Rattle.ht_statement.specs.FirstToken.{FirstIsNoWord, FirstIsNoComma};

use crate::token::{LineToken, first_token};

/// The word that a text begins with, and the text after it.
pub(crate) fn first_word(text: &[u8]) -> Option<(&[u8], &[u8])>
    ensures found { IfSome result (λ parts. tokens_of text.now ≡ word_token parts.0.now
        ∷ tokens_of parts.1.now) }
    ensures shorter { IfSome result (λ parts. length parts.1.now < length text.now) }
    ensures none { IfNone result (FirstIsNoWord text.now) }
{
    match first_token(text) {
        Some((LineToken::Word(word), rest)) => Some((word, rest)),
        _ => None,
    }
}

/// The text after a comma that it begins with.
pub(crate) fn after_comma(text: &[u8]) -> Option<&[u8]>
    ensures found { IfSome result (λ rest. tokens_of text.now ≡ comma_token ∷ tokens_of rest.now) }
    ensures shorter { IfSome result (λ rest. length rest.now < length text.now) }
    ensures none { IfNone result (FirstIsNoComma text.now) }
{
    match first_token(text) {
        Some((LineToken::Comma, rest)) => Some(rest),
        _ => None,
    }
}

/// Whether `)` is all that stands in a text.
pub(crate) fn closes(text: &[u8]) -> bool
    ensures { IsTrue result ↔ (tokens_of text.now ≡ close_token ∷ []) }
{
    match first_token(text) {
        Some((LineToken::Close, rest)) => first_token(rest).is_none(),
        _ => false,
    }
}
