//! First indices in a list of numbers.
ghost use Rattle.std.specs.Prelude.{◌≡◌, ◌<◌, ◌+◌, ◌^◌, ℕ, length, get_or, IfOk};
ghost use Rattle.ht_faults.specs.FirstIndex.{IsFirstIndex, AreFirstIndices, AreNoted};

use std::alloc::{AllocError, Global};

// The first index of the number at index `i`, which is noted if it is `i`.
fn note(numbers: &[u32], firsts: &mut [Option<u32>], i: u32) -> u32
    requires index { i < length numbers.now }
    requires below { get_or numbers.now i 0 < length numbers.now }
    requires every { length firsts.old ≡ length numbers.now }
    requires before { AreNoted numbers.now i firsts.old }
    ensures first { IsFirstIndex numbers.now i result }
    ensures after { AreNoted numbers.now (i + 1) firsts.new }
{
    let number = numbers[i as usize] as usize;
    match firsts[number] {
        Some(index) => index,
        None => {
            firsts[number] = Some(i);
            i
        }
    }
}

// For each index of a list the first index with the same number.
pub(crate) fn first_indices(alloc: Global, numbers: &[u32]) -> Result<Vec<u32>, AllocError>
    requires below { (i : ℕ) → i < length numbers.now
        → get_or numbers.now i 0 < length numbers.now }
    requires short { length numbers.now < 2 ^ 32 }
    ensures { IfOk result (λ indices. AreFirstIndices numbers.now indices.items) }
{
    let count = numbers.len();
    let mut firsts: Vec<Option<u32>> = Vec::new(alloc);
    firsts.resize(count, None)?;
    let mut indices = Vec::with_capacity(alloc, count)?;
    for i in 0..count as u32 {
        indices.push(note(numbers, &mut firsts, i))?;
    }
    Ok(indices)
}
