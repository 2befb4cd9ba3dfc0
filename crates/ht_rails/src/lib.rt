//! A fault as a problem of reachability over rails.
//!
//! A rail says that a line of the good or of the faulty machine definitely holds a value. `ht_cubes::Rails` numbers
//! them as variables and gives the clauses of a frame; `problem_of` makes of these, and of a start, the data that
//! `ht_reach` searches, with costs for each variable (`Costs`). `LatchRails` tells which rail of a latch a variable
//! is, so that a cube of the search is a cube of an entry, and the other way round.
//!
//! Nothing is promised of a problem: a wrong one costs time or leaves a fault open, since what a search finds is judged
//! by others. So reads of lists by variable are checked, and what stands nowhere is harmless.
#![tactic(auto)]

mod clauses;
mod costs;
mod latch_rails;
mod problem;

pub use clauses::literals_of;
pub use costs::{Cost, Costs};
pub use latch_rails::{LatchRails, candidate};
pub use problem::problem_of;
