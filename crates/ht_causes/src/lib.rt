//! Why a list of vectors doesn't detect a fault.
//!
//! A fault that a list doesn't detect has one of five causes: a possible detection, a stored difference, an effect that
//! ends within each frame, a line that never carries the value opposite to the stuck one, or one that never carries a
//! definite value. `specs/Causes` has the table as a function, and `find_causes` gives each representative its row.
//! A fault that isn't excited changes nothing (`unexcited_faults_change_nothing`), and more vectors never move one down
//! the table (`causes_only_move_up`).
#![tactic(auto)]

mod assign;
mod cause;
mod causes;
mod causes_text;
mod compare;
mod lanes;
mod line;
mod run;
mod sightings;
mod theorems;
mod track;
mod words;

pub use cause::{Cause, LatchPlace};
pub use causes::find_causes;
pub use causes_text::{write_causes_body, write_causes_total};
pub use theorems::{
    causes_only_move_up, detected_faults_are_excited, first_detections_are_detections,
    members_have_one_sighting, unexcited_faults_change_nothing,
};
