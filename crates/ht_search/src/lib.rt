//! One search over any problem: it decides variables, goes back, and writes each step as a token.
//!
//! A `Problem` judges where it stands, chooses the next variable, decides it, and goes back to an earlier point.
//! `search` walks it within a budget and answers with its tokens. The definitions stand in ht_tree
//! (`specs/Searches.antt`) and here: `Routes` (where a problem stands, and the points to which it can go back), `Legal`
//! (what may be decided), `Outcomes` (what a search answers) and `WindowSteps` (the route of windows that stand one
//! under the other).
#![tactic(auto)]

mod outcome;
mod problem;
mod progress;
mod step;

pub use outcome::{Outcome, search};
pub use problem::{Point, Problem};
