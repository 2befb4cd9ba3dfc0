//! The form of a line.
ghost use Rattle.std.specs.Prelude.{◌≡◌, ◌∷◌, option_map, IfOk};
ghost use Rattle.ht_statement.specs.LineToken.{word_token, open_token, equals_token, tokens_of};
ghost use Rattle.ht_statement.specs.LineForm.{form_of};
ghost use Rattle.ht_statement.specs.LineFormOf.{form_meant};

use crate::arguments::arguments;
use crate::first_token::{closes, first_word};
use crate::token::{LineToken, first_token};
use std::alloc::{AllocError, Global};

/// What the tokens of a line show: nothing, INPUT or OUTPUT with a name, or a definition by its net, the word of its
/// kind and its arguments (ISCAS-89 format).
#[derive(Drop)]
pub(crate) enum LineForm<'a> {
    Blank,
    Input(&'a [u8]),
    Output(&'a [u8]),
    Definition {
        out: &'a [u8],
        kind: &'a [u8],
        args: Vec<&'a [u8]>,
    },
}

/// The form of a line that begins with a keyword and `(`, by the text after these.
fn port<'a>(keyword: &[u8], text: &'a [u8]) -> Option<LineForm<'a>>
    ensures { option_map form_meant result
        ≡ form_of (word_token keyword.now ∷ open_token ∷ tokens_of text.now) }
{
    let (name, rest) = first_word(text)?;
    if !closes(rest) {
        return None;
    }
    if keyword.eq_ignore_ascii_case(b"INPUT") {
        return Some(LineForm::Input(name));
    }
    if keyword.eq_ignore_ascii_case(b"OUTPUT") {
        return Some(LineForm::Output(name));
    }
    None
}

/// The form of a line that begins with a net and `=`, by the text after these.
fn definition<'a>(
    alloc: Global,
    out: &'a [u8],
    text: &'a [u8],
) -> Result<Option<LineForm<'a>>, AllocError>
    ensures { IfOk result
        (λ read. option_map form_meant read
        ≡ form_of (word_token out.now ∷ equals_token ∷ tokens_of text.now)) }
{
    let Some((kind, rest)) = first_word(text) else {
        return Ok(None);
    };
    let Some((LineToken::Open, inside)) = first_token(rest) else {
        return Ok(None);
    };
    let args = arguments(alloc, inside)?;
    Ok(args.map(|args| LineForm::Definition { out, kind, args }))
}

/// The form of a line, or `None` where it has none.
pub(crate) fn read_form<'a>(
    alloc: Global,
    line: &'a [u8],
) -> Result<Option<LineForm<'a>>, AllocError>
    ensures { IfOk result (λ read. option_map form_meant read ≡ form_of (tokens_of line.now)) }
{
    let Some((first, after)) = first_token(line) else {
        return Ok(Some(LineForm::Blank));
    };
    let LineToken::Word(word) = first else {
        return Ok(None);
    };
    match first_token(after) {
        Some((LineToken::Equals, rest)) => definition(alloc, word, rest),
        Some((LineToken::Open, rest)) => Ok(port(word, rest)),
        _ => Ok(None),
    }
}
