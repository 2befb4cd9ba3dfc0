//! The arguments of a definition.
ghost use Rattle.std.specs.Prelude.{◌≡◌, option_map, IfOk};
ghost use Rattle.ht_statement.specs.LineToken.{tokens_of};
ghost use Rattle.ht_statement.specs.LineForm.{arguments_of};
ghost use Rattle.ht_statement.specs.StatementOf.{texts_of};

use crate::first_token::{after_comma, closes, first_word};
use std::alloc::{AllocError, Global};

/// The arguments after `(`, up to the `)` that ends the line, or `None` where that is not their form.
pub(crate) fn arguments<'a>(
    alloc: Global,
    text: &'a [u8],
) -> Result<Option<Vec<&'a [u8]>>, AllocError>
    ensures { IfOk result (λ read. option_map (λ args. texts_of args.items) read
        ≡ arguments_of (tokens_of text.now)) }
{
    let mut args = Vec::new(alloc);
    if closes(text) {
        return Ok(Some(args));
    }
    let Some((first, mut rest)) = first_word(text) else {
        return Ok(None);
    };
    args.push(first)?;
    while let Some(after) = after_comma(rest) {
        let Some((arg, more)) = first_word(after) else {
            return Ok(None);
        };
        args.push(arg)?;
        rest = more;
    }
    if !closes(rest) {
        return Ok(None);
    }
    Ok(Some(args))
}
