//! Refutations by forbidden cubes: evidence that others find, and this crate checks.
//!
//! A rail says that a latch of the good or of the faulty machine definitely holds a value, and a cube is a list of rails
//! that never hold together. Model checkers find such cubes, and SAT solvers prove that no vector leads to one. The
//! formula of a fault and a list of cubes (`specs/Formula.antt`) says that, one frame after a joint state that avoids all
//! cubes, some cube comes about or some output differs. `refuted` builds it once and follows the steps of a proof, each
//! with hints, as in LRAT: no search, one pass, each hint looked at once. It says yes exactly where cubes and steps pass
//! (`specs/Passing.antt`), and then no list of vectors of any length detects the fault, from the start or from
//! all-unknown (`passing_cubes_exclude_detection`). `Rails` gives the same clauses to those who search for cubes.
//!
//! `cone` finds the nets that differ at all, and `machines` has them with the circuit and the fault. `lines`, `gates`,
//! `parity`, `frame` and `targets` make the parts of the formula, `standing` and `steps` follow the proof.
#![tactic(auto)]

mod clause_step;
mod cone;
mod formula;
mod frame;
mod gate_lines;
mod gates;
mod lines;
mod machines;
mod parity;
mod rail;
mod rails;
mod refutation;
mod signal;
mod signed_var;
mod standing;
mod steps;
mod targets;
mod theorems;

pub use clause_step::ClauseStep;
pub use formula::Formula;
pub use rail::{Cube, Rail};
pub use rails::Rails;
pub use refutation::refuted;
pub use signal::Signal;
use signed_var::Rows;
pub use signed_var::SignedVar;
pub use theorems::{
    passing_cubes_exclude_detection, passing_cubes_refute, refuting_cubes_exclude_detection,
    toggle_has_its_formula,
};
