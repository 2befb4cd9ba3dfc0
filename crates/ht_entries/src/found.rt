//! What was read, if anything.
use std::alloc::AllocError;

// What bytes or lines are read as, or `None` where they are read as nothing. Out of memory.
pub type Found<T> = Result<Option<T>, AllocError>;
