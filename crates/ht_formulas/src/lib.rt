//! Tests of the solver and of the search over it, by formulas and problems whose answers are found by hand.
//!
//! They show what no clause says: that calls succeed, that a solution supports what is true, that the hints of a
//! refutation lead a checker to its end, and that a difference is reached or refuted. They stand apart from ht_tests, so
//! that they need no other crate.
#![tactic(auto)]

#[cfg(test)]
mod formulas;
#[cfg(test)]
mod problems;
