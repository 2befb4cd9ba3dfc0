//! The text of one vector.
ghost use Rattle.std.specs.Prelude.{◌≡◌, ◌≢◌, List, Bool, IfOk, MatchOption};
ghost use Rattle.ht_texts.specs.Lines.{with_lf};
ghost use Rattle.ht_texts.specs.Tests.{bit_code, vector_text, IsTextOf};

use std::alloc::{AllocError, Global};

/// The line of a vector, with its LF: one character `0` or `1` for each input, in input order, as `1100`.
///
/// # Errors
///
/// `AllocError`: out of memory.
pub fn write_vector(alloc: Global, vector: &[bool]) -> Result<Vec<u8>, AllocError>
    ensures { IfOk result (λ line. line.items ≡ with_lf (vector_text vector.now)) }
{
    let mut line: Vec<u8> = vector.iter().map(|bit| character_of(*bit)).collect(alloc)?;
    line.extend_from_slice(b"\n")?;
    Ok(line)
}

/// The vector of `width` bits whose line this is, without its LF, or `None` where it is the line of no such vector.
///
/// # Errors
///
/// `AllocError`: out of memory.
pub fn read_vector(alloc: Global, line: &[u8], width: u32) -> Result<Option<Vec<bool>>, AllocError>
    ensures { IfOk result (λ read. MatchOption read
        ((vector : List Bool) → ¬ IsTextOf width line.now vector)
        (λ vector. IsTextOf width line.now vector.items)) }
{
    if line.len() != width as usize {
        return Ok(None);
    }
    let mut vector = Vec::with_capacity(alloc, line.len())?;
    for character in line {
        let Some(bit) = bit_of(*character) else {
            return Ok(None);
        };
        vector.push(bit)?;
    }
    Ok(Some(vector))
}

// The character of a bit, `0` or `1`.
pub fn character_of(bit: bool) -> u8
    ensures { result ≡ bit_code bit }
{
    if bit { b'1' } else { b'0' }
}

// The bit of a character, or `None` where it is neither `0` nor `1`.
fn bit_of(character: u8) -> Option<bool>
    ensures { MatchOption result ((bit : Bool) → character ≢ bit_code bit)
        (λ bit. character ≡ bit_code bit) }
{
    match character {
        b'0' => Some(false),
        b'1' => Some(true),
        _ => None,
    }
}
