//! What is said of vectors that were bred.
ghost use Rattle.std.specs.Prelude.{◌≡◌, IfOk, length};
ghost use Rattle.ht_texts.specs.Lines.{with_lf};
ghost use Rattle.ht_faults.specs.Classes.{own_representatives};
ghost use Rattle.ht_bred.specs.BredText.{bred_line};

use crate::bred::Bred;
use ht_faults::Classes;
use ht_texts::push_number;
use std::alloc::{AllocError, Global};

/// The line, with its LF, that says how many vectors were given and how many bred, and how many of how many
/// representatives all of them detect: `vectors 0 bred 32 detected 32 of 32`.
///
/// # Errors
/// Out of memory.
pub fn write_bred(
    alloc: Global,
    classes: &Classes,
    given: u64,
    bred: &Bred,
) -> Result<Vec<u8>, AllocError>
    ensures { IfOk result (λ line. line.items ≡ with_lf (bred_line given bred.now.count
        bred.now.detected (length (own_representatives classes.now)))) }
{
    let mut line = Vec::new(alloc);
    line.extend_from_slice(b"vectors ")?;
    push_number(&mut line, given)?;
    line.extend_from_slice(b" bred ")?;
    push_number(&mut line, bred.count as u64)?;
    line.extend_from_slice(b" detected ")?;
    push_number(&mut line, bred.detected as u64)?;
    line.extend_from_slice(b" of ")?;
    push_number(&mut line, classes.representatives().len() as u64)?;
    line.extend_from_slice(b"\n")?;
    Ok(line)
}
