//! Closes a fault: looks for forbidden cubes that refute it, or for vectors that detect it.
//!
//! The search is property directed reachability over rails (`ht_reach`), and nothing of it is believed. Before
//! `close` says that a fault is refuted, `ht_cubes::refuted` has followed the steps, and the entry's lines are short
//! enough to be written; before it says that a list detects the fault, a serial run has shown it. What isn't so stays
//! `Open` (`specs/ClosedFaults.antt`). So a wrong answer of the search costs a fault that stays open, and never a
//! wrong verdict.
//!
//! `steps` writes the steps of a refutation by the log of a solver that has the checker's clauses in the checker's
//! order, and drops cubes that the steps don't cite. `judge` asks the judges, `short` looks at the lines. `Shared` is
//! what the faults of one circuit have in common: costs, and the cubes of faults that were refuted, which often refute
//! later ones.
#![tactic(auto)]

mod closed;
mod judge;
mod pool;
mod search;
mod shared;
mod short;
mod steps;

pub use closed::Closed;
pub use search::close;
pub use shared::Shared;
pub use short::are_short;
