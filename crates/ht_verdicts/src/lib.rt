//! What is known of each class in a search whose lists and entries come in any order.
//!
//! `Verdicts` keeps what the vectors so far detect, by one grader for all lists, and an entry for each fault that one
//! decides. Whoever searches gives it vectors of any kind (`apply`) and entries that a judge let pass (`enter`), asks which
//! faults are open (`is_open`), and what is to be said of each in the end (`said`). So nothing has to be believed of a
//! search, and its order has no place in what its files mean: the tests are the vectors in the order in which they were
//! given, and the proofs hold the entries in the order of their faults.
#![tactic(auto)]

mod verdicts;

pub use verdicts::Verdicts;
