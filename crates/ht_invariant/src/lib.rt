//! Refutations of a fault from one named state.
//!
//! `find` finds an invariant of a state: clauses on the latches that the state meets and that no frame of the good
//! machine breaks. `refute_from` searches the one-frame windows of a fault under these clauses, as a refutation without
//! clauses does: each flip-flop that is told joins the set at which the states may differ. Where a search closes, the
//! fault is silent from the invariant's state, so that no list of any length detects it, and its set is the least that
//! seals the fault as long as the clauses are met. `refute_under` takes bases of the circuit, which serve for all its
//! faults.
//!
//! The definitions stand in `specs/`: `FoundClauses` (the candidates, and what the rounds leave of them),
//! `ClosingRounds` (the rounds that drop clauses), `FromStates` (what `refute_from` answers, and what that means) and
//! `Trials` (windows under clauses as a search holds them); `Offers`, `UnderWay` and `Looks` are of single functions.
//!
//! | File | Holds |
//! |---|---|
//! | finding | the search for an invariant: `find` |
//! | states | the states of some frames, which a candidate must meet |
//! | candidates | the clauses with which the rounds begin |
//! | closing | one round, which searches the closing window of each clause |
//! | refutation | the rounds of a refutation: `refute_from`, `refute_under` |
//! | trial | the search of one window under clauses |
//! | sought | what is looked for there |
//! | look | its status and choice of variable |
//! | literals | which clauses the decisions meet or break |
//! | marks | a set of flip-flops before any joins it |
#![tactic(auto)]

mod candidates;
mod closing;
mod finding;
mod literals;
mod look;
mod marks;
mod refutation;
mod sought;
mod states;
mod trial;

pub use finding::{Invariant, find};
pub use refutation::{FromState, refute_from, refute_under};
