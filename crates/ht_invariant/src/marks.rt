//! Marks of flip-flops.
ghost use Rattle.std.specs.Prelude.{◌≡◌, false, replicate, IfOk};

use std::alloc::{AllocError, Global};

/// So many marks, none of which is set.
///
/// # Errors
/// Out of memory.
pub fn no_marks(alloc: Global, count: usize) -> Result<Vec<bool>, AllocError>
    ensures { IfOk result (λ marks. marks.items ≡ replicate count false) }
{
    let mut marks = Vec::new(alloc);
    marks.resize(count, false)?;
    Ok(marks)
}
