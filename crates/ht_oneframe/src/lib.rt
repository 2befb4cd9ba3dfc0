//! The refutation of a fault by one frame.
//!
//! `refute` searches the one-frame window of a fault, at first with both machines in one state. Each flip-flop that a
//! search tells joins the set at which the states may differ, and a new search begins. Where a search closes, no list
//! of any length shows a difference, and the set is the least that seals the fault; where a search tells an output, no
//! set seals it. `refute_from_bases` takes bases of the circuit, which serve for all its faults.
//!
//! The definitions stand in `specs/`: `Rounds` (what each search comes to) and `Answers` (what `refute` answers, and
//! what that means).
//!
//! | File | Holds |
//! |---|---|
//! | refutation | the rounds: `refute`, `refute_from_bases` |
//! | round | one search: its window (`one_frame_window`), what it comes to (`round_of`) |
//! | telling | what a search tells |
//! | marks | the set |
#![tactic(auto)]

mod marks;
mod refutation;
mod round;
mod telling;

pub use marks::marked;
pub use refutation::{OneFrame, refute, refute_from_bases};
pub use round::{Round, one_frame_window, round_of};
