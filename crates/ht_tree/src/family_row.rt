//! Families of sets as an entry has them.
use ht_pairs::PairSet;

/// The set of pairs (good, faulty) of one flip-flop in a family.
#[derive(Clone, Copy, PartialEq, Eq, Debug)]
pub struct FamilyRow {
    /// The flip-flop, from 0.
    pub dff: u32,
    /// The pairs that its latches in the two machines may hold.
    pub set: PairSet,
}
