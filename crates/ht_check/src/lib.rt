//! The checker of entries: it follows the tokens of a walk and asks at each node a window that settles anew
//! (ht_recompute). No code of a search is used. Families of sets are judged in ht_families, by one frame
//! (`closes_by_rows`), and forbidden cubes in ht_cubes (`refuted`).
//!
//! `entry` is true exactly where the entry passes (`exact`), and what an entry that passes says of its fault holds
//! (`sound`): no list of vectors detects it, or none of fewer vectors than a sweep has walks. `entry_by_frames` does the
//! same with frames that are kept from one entry to the next. `judge_walk` judges tokens as a walk of any
//! `JudgedWindow`.
//!
//! Modules: `entries` (which entries pass), and one for each form of an entry: `refutations`, `refutations_from` (a
//! named state) and `abort_records`. For refutations from a state `invariants` (clauses that no frame leaves) and
//! `state_clauses` (which a state meets). For abort records `told_chains` and `told_frames` (frames that are told),
//! `aims` (how the attempt at the first of them ended), `attempts` (lists that fail together), `told_states` (what a
//! told frame gives), `vector_runs` (machines over lists) and `sweeps` (the walks of a sweep). For all of them `walks`
//! (a walk token by token) and `window_walks` (walks of windows that give their frames back).
#![tactic(auto)]

mod abort_records;
mod aims;
mod attempts;
mod entries;
mod invariants;
mod refutations;
mod refutations_from;
mod state_clauses;
mod sweeps;
mod told_chains;
mod told_frames;
mod told_states;
mod vector_runs;
mod walks;
mod window_walks;

pub use entries::{entry, entry_by_frames};
pub use invariants::is_invariant;
pub use refutations_from::refutes_from;
pub use walks::{Finding, judge_walk};
