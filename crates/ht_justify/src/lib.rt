//! The justification of a cube: a search back from latch values that are wanted to the all-unknown state.
//!
//! `justify` searches the back window of a cube. Where a window is sure by latches that it decided, another one goes
//! under it, one frame earlier, with these latches as its cube. A list that is found has the vector of each window, the
//! deepest window's first. `justify_from_bases` takes bases, from which the windows of all searches are made.
//!
//! The definitions stand in `specs/`: `Stacks` (windows that stand one under the other), `BackStates` (the problem as
//! contracts see it) and `Answers` (what `justify` answers, and what that means). Modules: `cube` (latches as a cube),
//! `back_windows` (the windows one under the other), `problem` (their search) and `justification` (`justify`,
//! `justify_from_bases`).
#![tactic(auto)]

mod back_windows;
mod cube;
mod justification;
mod problem;

pub use justification::{Back, justify, justify_from_bases};
