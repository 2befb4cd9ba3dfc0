//! What a line of a search's report says.
use crate::said::Said;

/// What a line of a search's report says. Faults count from 0.
#[derive(Clone, Copy, PartialEq, Eq, Debug)]
pub enum Item {
    /// The head: the budget of the search.
    Head { budget: u64 },
    /// The verdict of a fault that is its own representative.
    Verdict { fault: u32, said: Said },
    /// Another fault represents this one.
    Member { fault: u32 },
    /// The total.
    Total,
}
