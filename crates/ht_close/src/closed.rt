//! What closing a fault comes to.
use ht_cubes::{ClauseStep, Cube};
use ht_items::Items;
use ht_net::Vectors;

/// What closing a fault comes to.
#[derive(Drop)]
pub enum Closed {
    /// These cubes and steps refute the fault: no list of vectors of any length detects it, from the start or from
    /// all-unknown.
    Refuted {
        cubes: Items<Cube>,
        steps: Items<ClauseStep>,
    },
    /// This list detects the fault from all-unknown, and so from every start and after any vectors.
    Detected(Vectors),
    /// Neither was found.
    Open,
}
