//! Property directed reachability over forbidden cubes of rails: decides whether some list of vectors makes an output
//! differ (Bradley 2011; Een, Mishchenko and Brayton 2011).
//!
//! A problem is data: the clauses of one frame, what makes the rails of latches hold in the next one, inputs, differences
//! and the start. This crate knows nothing of circuits. Frame k forbids cubes that k vectors never lead to. Where a
//! difference shows in the last frame, the cube of latches that it needs is blocked there, or traced back to the start,
//! and then the vectors of the way are the answer. Where a frame has no cube of its own left, the cubes of the later ones
//! exclude every difference.
//!
//! Every call returns on all arguments, and spends no more than it is given. Nothing is promised of a verdict: whoever
//! asks judges vectors by simulation, and cubes by a checker that is proved. So each read by a number that stands in a
//! list is checked, and what stands out of range counts as nothing.
//!
//! | Module | Holds |
//! |---|---|
//! | `problem`, `supports`, `cube` | what is searched; which clauses support a variable; cubes of rails |
//! | `question`, `base` | questions to a solver and what they cost; the solver of one frame |
//! | `frame`, `search` | a frame with its cubes; the frames of a search |
//! | `room` | how many variables all frames may have |
//! | `predecessor`, `reach` | the walk back from a solution; whether a frame leads to a cube |
//! | `obligations`, `block` | what is still to be blocked; blocking, with smaller cubes, as far up as they hold |
//! | `candidates` | cubes of earlier faults: what stands of them |
//! | `reachability` | the whole search, which others call |
#![tactic(auto)]

mod base;
mod block;
mod candidates;
mod cube;
mod frame;
mod obligations;
mod predecessor;
mod problem;
mod question;
mod reach;
mod reachability;
mod room;
mod search;
mod supports;

pub use cube::Cube;
pub use problem::{Difference, InputBit, Problem, Source};
pub use reachability::{Reached, decide_reachability};
