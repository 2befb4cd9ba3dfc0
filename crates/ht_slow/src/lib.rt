//! Transition faults as stuck-at faults of an expanded circuit.
//!
//! A slow line is a line whose rise, or whose fall, comes to its loads one frame late (`specs/Slow.antt`: a machine that
//! has one value more than its latches, what the line carried in the frame before). `specs/Expanded.antt` has a circuit in
//! which the transition faults of chosen lines are stuck pins, and `specs/SlowDetection.antt` says where a list detects
//! them. The theorems say that the expanded circuit shows what the circuit shows, and that a listed fault is detected
//! exactly where the transition fault is.
#![tactic(auto)]

mod theorems;

pub use theorems::{
    expanded_circuits_are_well_formed, expanded_good_machine_shows_the_same,
    listed_faults_stand_alone, refutations_speak_of_transition_faults,
    the_line_of_an_expanded_circuit, transition_faults_are_detected_as_stuck_pins,
    transition_faults_are_stuck_pins,
};
