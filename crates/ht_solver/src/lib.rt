//! A conflict-driven solver for clauses, which decides only what a true variable still needs.
//!
//! Every call returns on all arguments, and `solve` spends no more than its budget of conflicts and propagations. Nothing
//! is promised of an answer: whoever asks judges it, a solution by simulation, a refutation by a checker that is proved.
//! So no part has an invariant: each read by a number that stands in a list is checked, and what stands out of range
//! counts as false, or as no clause.
//!
//! | Module | Holds |
//! |---|---|
//! | `literal`, `effort` | variables and their opposites; counts of work |
//! | `arena`, `watches` | the clauses, and which of them to look at when a literal becomes false |
//! | `assignment` | the trail of true literals, by decision levels, with reasons |
//! | `analysis`, `decisions` | the lemma and the core of a conflict; what to decide |
//! | `log`, `refutation` | lemmas with their hints; those that a refutation needs |
//! | `state`, `learn`, `search` | the parts together: clauses are added, learnt and let go, a solution is looked for |
//! | `solver` | what others call |
#![tactic(auto)]

mod analysis;
mod arena;
mod assignment;
mod decisions;
mod effort;
mod learn;
mod literal;
mod log;
mod refutation;
mod search;
mod solver;
mod state;
mod watches;

pub use arena::ClauseRef;
pub use effort::Effort;
pub use literal::{Literal, Value};
pub use log::Lemma;
pub use refutation::needed;
pub use search::Answer;
pub use solver::Solver;
