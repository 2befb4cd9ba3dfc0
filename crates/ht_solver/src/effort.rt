//! What a search may spend, and what it has spent.

/// Counts of work, the measure of every search here: no clock is looked at, so a run is the same on each machine.
#[derive(Clone, Copy)]
pub struct Effort {
    /// Conflicts: clauses whose literals were all false.
    pub conflicts: u64,
    /// Literals whose truth was propagated.
    pub propagations: u64,
}
