//! Three-valued logic: the values that a net can have, the kinds of gate, and what a gate makes of the values at its
//! pins.
//!
//! `Tern` is a value, `Kind` a kind of gate, `eval` the value of a gate, and `refines` says where one value tells all
//! that another tells. The tables are the strong three-valued logic of S. C. Kleene, "Introduction to Metamathematics",
//! 1952. What a gate makes of its operations is said once, for every domain of values: `GateOperations` has the
//! operations, for `Tern` and `bool`, and `eval_over` folds them, as `specs/Gate.antt` defines.
#![tactic(auto)]

mod gate;
mod operations;
mod tern;
mod theorems;

pub use gate::{Kind, eval, eval_over};
pub use operations::GateOperations;
pub use tern::{Tern, is_opposite, refines};
pub use theorems::{
    definite_arguments_give_the_two_valued_gate, refined_arguments_refine_the_value,
    two_valued_gates_stand_for_three_valued_ones,
};
