//! The line of a start.
ghost use Rattle.std.specs.Prelude.{◌≡◌, List, IfOk, MatchOption};
ghost use Rattle.ht_tern.specs.declared.tern.Tern.{Tern};
ghost use Rattle.ht_texts.specs.StartTexts.{IsStartLine, start_value};

use ht_tern::Tern;
use std::alloc::{AllocError, Global};

/// The start of `width` flip-flops whose line this is, without its LF: one character `0`, `1`, `X` or `x` for each, in
/// their order. `None` where it is the line of no such start.
///
/// # Errors
///
/// `AllocError`: out of memory.
pub fn read_start(alloc: Global, line: &[u8], width: u32) -> Result<Option<Vec<Tern>>, AllocError>
    ensures { IfOk result (λ read. MatchOption read
        ((start : List Tern) → ¬ IsStartLine width line.now start)
        (λ start. IsStartLine width line.now start.items)) }
{
    if line.len() != width as usize {
        return Ok(None);
    }
    let mut start = Vec::with_capacity(alloc, line.len())?;
    for character in line {
        let Some(value) = value_of(*character) else {
            return Ok(None);
        };
        start.push(value)?;
    }
    Ok(Some(start))
}

// The value of a character, or `None` where it has none.
fn value_of(character: u8) -> Option<Tern>
    ensures { result ≡ start_value character }
{
    match character {
        b'0' => Some(Tern::Zero),
        b'1' => Some(Tern::One),
        b'X' | b'x' => Some(Tern::Unk),
        _ => None,
    }
}
