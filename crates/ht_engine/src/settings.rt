//! What a generator is told before its first step.
use ht_items::Items;
use ht_net::Vectors;
use ht_tern::Tern;

/// How far the work on a fault goes.
#[derive(Clone, Copy, PartialEq, Eq, Debug)]
pub enum Search {
    /// Rounds of refutation, those under the clauses of an invariant, the attempt at the first told frame, and the
    /// sweep.
    Plain,
    /// These, and also a family of sets of pairs that closes, and a sweep that goes on from the states reached.
    Deep,
}

/// What a generator is told.
#[derive(Drop)]
pub struct Settings {
    /// The budget of each search.
    pub budget: u64,
    /// How many random vectors come after those of `first`.
    pub random: u32,
    /// The seed of the random vectors, and of the weighted ones.
    pub seed: u64,
    /// How many weighted vectors come after the random ones.
    pub weighted: u32,
    /// How far the work on a fault goes.
    pub search: Search,
    /// What each flip-flop holds before the first vector, in order.
    pub start: Items<Tern>,
    /// The vectors that come first of all.
    pub first: Vectors,
    /// The numbers, from 1, of the faults that are worked on; all where there is no list.
    pub chosen: Option<Items<u32>>,
}
