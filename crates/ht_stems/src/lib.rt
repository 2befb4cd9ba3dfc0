//! Where the effects of faults end within one frame.
//!
//! A fault of a machine whose latches are the good ones is in this frame one net of the good machine that is forced to
//! a value. Where that net has one load its effect goes one way, gate by gate: until it dies, or comes to one latch,
//! to one output, or to a stem with two loads or more (`Arrival`). `Arrivals` has for each net and each value where
//! it ends, by one pass back over the nets, and says so of a fault (`fault`). What the frame then shows stands in
//! `specs/ArrivedFrames.antt`; the theorems say the laws of forced nets.
#![tactic(auto)]

mod arrival;
mod arrivals;
mod net_ends;
mod net_loads;
mod pass;
mod theorems;

pub use arrival::Arrival;
pub use arrivals::Arrivals;
pub use theorems::{
    data_pin_fault_is_one_latch, effect_ends_at_one_place, fault_arrivals_tell_frames,
    faults_that_arrive_together_show_the_same, forced_net_comes_to_its_only_latch,
    forced_net_comes_to_its_only_output, forced_net_goes_on_through_its_only_gate,
    forced_net_without_load_changes_nothing, forced_stem_is_the_stem_fault,
    net_arrivals_tell_frames, own_value_changes_nothing, pin_fault_is_a_forced_net,
    stuck_line_with_its_value_changes_nothing,
};
