//! What entries say.

/// What an entry says of its fault. Entries of several forms may say the same.
#[derive(Clone, Copy, PartialEq, Eq, Debug)]
pub enum EntryKind {
    /// Both machines give equal outputs from a start state that a chip may have, and no list of vectors detects the fault.
    Untestable,
    /// No list of vectors detects the fault, from the stated start or from all-unknown. From some start states of a chip
    /// the two machines may differ.
    Undetectable,
    /// The budget was spent on it.
    Aborted,
}
