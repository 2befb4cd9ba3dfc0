//! How far a search goes.

/// How far the search of `gen` goes.
#[derive(Clone, Copy, Debug)]
pub enum Depth {
    /// The rounds of refutation, an attempt and a sweep for each fault.
    Plain,
    /// These, and also families of sets of pairs, and sweeps from the states reached.
    Deep,
    /// Bred vectors and all searches in turn, until the work is spent.
    Full,
}
