//! Some of many, spread evenly.
use std::alloc::{AllocError, Global};

/// So many of these numbers, in their order and spread evenly over them; all where there are no more.
///
/// # Errors
/// Out of memory.
pub fn spread(alloc: Global, numbers: &[u32], most: u32) -> Result<Vec<u32>, AllocError> {
    let mut some = Vec::new(alloc);
    let count = (most as usize).min(numbers.len());
    for i in 0..count {
        let at = i.saturating_mul(numbers.len()) / count.max(1);
        if let Some(number) = numbers.get(at) {
            some.push(*number)?;
        }
    }
    Ok(some)
}
