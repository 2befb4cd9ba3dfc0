//! Steps of a refutation.
use crate::SignedVar;
use ht_items::Items;

/// A clause with the numbers of the clauses that show it, as in LRAT. Clauses count from 1: first those of the formula,
/// then the steps.
#[derive(Debug, Drop)]
pub struct ClauseStep {
    /// What stands in the clause.
    pub literals: Items<SignedVar>,
    /// Its hints.
    pub hints: Items<u32>,
}
