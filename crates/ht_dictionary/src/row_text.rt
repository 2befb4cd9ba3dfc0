//! The text of one row of an observation.
ghost use Rattle.std.specs.Prelude.{List, IfOk, MatchOption};
ghost use Rattle.ht_tern.specs.declared.tern.Tern.{Tern};
ghost use Rattle.ht_dictionary.specs.ResponseTexts.{IsRowText};

use ht_tern::Tern;
use ht_texts::read_start;
use std::alloc::{AllocError, Global};

/// The row of `width` values whose line this is, without its LF: one character `0`, `1` or `X` (not seen) for each
/// output, in their order. `None` where it is the line of no such row.
///
/// # Errors
///
/// `AllocError`: out of memory.
pub fn read_row(alloc: Global, line: &[u8], width: u32) -> Result<Option<Vec<Tern>>, AllocError>
    ensures { IfOk result (λ read. MatchOption read
        ((row : List Tern) → ¬ IsRowText width line.now row)
        (λ row. IsRowText width line.now row.items)) }
{
    // only a start has `x` too
    if line.contains(&b'x') {
        return Ok(None);
    }
    read_start(alloc, line, width)
}
