//! The searches forward: the sweep, and the propagation from a pair of states.
//!
//! `sweep` searches the windows of 1 frame, 2 frames and so on, in which every latch begins unknown, with one budget
//! for all of them; `sweep_on_from_bases` does so from a given state of each machine. `propagate` searches the window of
//! 16 frames that begins at such a pair of states. A list that is found has the vectors up to the frame in which an
//! output differs for certain, with 0 for each input that is undecided.
//!
//! The definitions stand in `specs/`: `AheadSearches` (the search of one window, and what its answer means) and
//! `Sweeps` (the searches of a sweep, and what their answer means). Modules: `ahead` (one window), `propagation`
//! (`propagate`) and `sweeping` (`sweep`). `propagate_from_bases` and `sweep_from_bases` take bases of the circuit,
//! which serve for all its faults.
//!
//! The searches of one window differ by a goal alone: by the status of a path, and by the variable that is chosen there
//! (`specs/Goals`). For all of them one law says what a complete walk rules out, and one what a found node shows.
//! `search_lengths` searches one length after the other with one budget for all: `specs/Lengths` has these searches and
//! the record that they leave, `specs/LengthAnswers` what they answer.
#![tactic(auto)]

mod ahead;
mod lengths;
mod propagation;
mod sweeping;
mod theorems;

pub use ahead::Ahead;
pub use lengths::{LengthSearch, Lengths, OneLength, search_lengths};
pub use propagation::{propagate, propagate_from_bases};
pub use sweeping::{Swept, sweep, sweep_from_bases, sweep_on_from_bases};
pub use theorems::{
    complete_walk_is_dead_along_each_assignment, enough_budget_walks_deep, found_node_has_bits,
};
