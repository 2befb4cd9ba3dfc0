//! Faults that no vector shows in one frame, from any state that both machines have in common.
//!
//! Such a fault is redundant: if both machines start in one state they go on alike for ever. `OneFrames` has two ways to
//! tell. `shows` tries 64 patterns of inputs and states at once, event by event (`patterns`): a fault that shows at an
//! output or a data pin isn't redundant. `ask` says the frame of a fault's cone as clauses (`clauses`) over rails, each of
//! which says that a net definitely holds a value, and asks a solver for a pattern (`ht_solver`).
//!
//! Neither is believed: that a fault is redundant is proved by the walk of its one-frame window (`ht_oneframe`), or by an
//! entry of another form. What is promised is that a call spends no more than its budget.
//!
//! | Module | Holds |
//! |---|---|
//! | `patterns` | 64 patterns in one frame of the good machine, and of a fault |
//! | `rails` | the rails of a fault's cone, and of what it reads |
//! | `clauses` | the frame as clauses |
//! | `frames` | what others call |
#![tactic(auto)]

mod clauses;
mod frames;
mod patterns;
mod rails;

pub use frames::{OneFrames, Shown};
