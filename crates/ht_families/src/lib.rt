//! Refutations by families: a set of pairs (good, faulty) for each flip-flop that no vector leads out of.
//!
//! A family closes for a fault and a start where both machines may start in its sets, what the flip-flops take after any
//! vector stays in them, and no output shows a difference. Then no list of vectors detects the fault, from the start or
//! from all-unknown (ht_records, `closed_families_hold_all_runs`). It says nothing of the states that a chip may start
//! in: from some of them the two machines may differ.
//!
//! `closing` finds the least family that closes. `closes` tells of a given family whether it does, by one frame over sets
//! of pairs. An entry has a family as rows, one for each flip-flop that has more than the pair of the start: `rows_of`
//! makes them and `closes_by_rows` judges them. The checker calls `closes_by_rows` alone. It has the frame (`frame`) in
//! common with `closing`, and no step of the search (`search`).
#![tactic(auto)]

mod check;
mod frame;
mod rows;
mod search;
mod sets;

pub use check::closes;
pub use rows::{closes_by_rows, rows_of};
pub use search::closing;

/// A set of pairs (good, faulty) for each flip-flop.
pub type Family = Vec<ht_pairs::PairSet>;
