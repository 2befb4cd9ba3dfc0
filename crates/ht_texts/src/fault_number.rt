//! The lines of a list of faults.
ghost use Rattle.std.specs.Prelude.{◌≡◌, ◌-◌, ◌++◌, ◌∷◌, [], ℕ, List, length, get_or, IfOk, MatchBool};
ghost use Rattle.ht_texts.specs.FaultListTexts.{AreFaultLines};

use crate::number::read_number;
use std::alloc::AllocError;

/// Adds the fault whose line comes next, without its LF: its number, from 1 and at most `count`, which is above that of
/// the line before. False exactly where no list of faults goes on with this line; then nothing is added.
///
/// # Errors
///
/// `AllocError`: out of memory.
pub fn push_fault_number(
    numbers: &mut Vec<u32>,
    count: u32,
    line: &[u8],
) -> Result<bool, AllocError>
    ensures { (lines : List (List ℕ)) → AreFaultLines count lines numbers.old.items
        → IfOk result (λ is_next. MatchBool is_next
        (AreFaultLines count (lines ++ line.now ∷ []) numbers.new.items)
        ((numbers.new ≡ numbers.old)
        × ((all : List ℕ) → ¬ AreFaultLines count (lines ++ line.now ∷ []) all))) }
{
    let Some(number) = read_number(line, u64::from(count)) else {
        return Ok(false);
    };
    if number <= u64::from(last_of(numbers)) {
        return Ok(false);
    }
    numbers.push(number as u32)?;
    Ok(true)
}

// The last of the numbers, or 0 where there is none.
fn last_of(numbers: &[u32]) -> u32
    ensures { result ≡ get_or numbers.now (length numbers.now - 1) 0 }
{
    match numbers.last() {
        Some(number) => *number,
        None => 0,
    }
}
