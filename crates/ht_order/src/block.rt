//! The blocks of a full search.

/// A way to decide faults.
#[derive(Clone, Copy, PartialEq, Eq, Debug)]
pub enum Block {
    /// Vectors that are bred from those that detected something.
    Vectors,
    /// What no vector shows in one frame from a common state.
    OneFrame,
    /// The search for a list of vectors, fault by fault.
    Targets,
    /// Reachability over rails, with little work for a fault.
    ShortRails,
    /// The same with more.
    Rails,
    /// The same with most.
    LongRails,
    /// Families of sets of pairs that close.
    Sets,
}
