//! One frame of a circuit, over any domain of values.
//!
//! `Domain` says what a gate and a stuck line make of values; three values (`Tern`), two (`bool`) and sets of pairs
//! (`PairSet`) are domains. `settle` gives every net its value, each gate evaluated once and in order, and `capture` is
//! the clock edge: each flip-flop takes the value at its data pin. `gate_output`, `stem`, `gate_pin` and `data_pin` are
//! their parts, for frames that change in place, and `operate` is a step of a gate. None of them allocates. A machine
//! with a stuck line is the same code, given the fault.
#![tactic(auto)]

mod domain;
mod frame;
mod lines;
mod sets;

pub use domain::{Domain, operate};
pub use frame::{MAX_GATE_PINS, capture, gate_output, settle};
pub use lines::{data_pin, gate_pin, stem};
