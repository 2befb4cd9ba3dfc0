//! Diagnosis: which machines explain what was observed of a device while a list of vectors was applied to it.
//!
//! A machine is contradicted where it shows the opposite of an observed value; over its whole run from all-unknown it is
//! consistent where that is nowhere. `diagnose` gives the first contradiction of the good machine and of the
//! representative of each class (`specs/Diagnoses`). A machine whose two-valued run from some state shows all that was
//! observed is consistent (`explanations_are_consistent`); no clause says that a consistent fault is present.
//!
//! `specs/DiagnosisTexts` has the text of a diagnosis, `specs/ResponseTexts` that of an observation. What a machine shows
//! is written as the text that `diagnose` reads (`written_responses_are_read`). It contradicts neither the machine nor
//! the representative of its class (`responses_are_consistent`).
//!
//! `trace` gives the value of every net in each frame of a machine's run (`specs/Traces`), which is written in the same
//! way. At the outputs it is what the machine shows (`traces_show_outputs`).
#![tactic(auto)]

mod diagnosis;
mod diagnosis_text;
mod frames;
mod response_text;
mod response_theorems;
mod row_text;
mod theorems;
mod trace_theorems;

pub use diagnosis::{Diagnosis, diagnose};
pub use diagnosis_text::{write_diagnosis_body, write_diagnosis_total};
pub use frames::trace;
pub use response_text::{
    write_last_response, write_lines_total, write_response_body, write_response_total,
};
pub use response_theorems::{
    diagnoses_of_responses, members_respond_alike, responses_are_consistent, responses_are_read,
    written_responses_are_read,
};
pub use row_text::read_row;
pub use theorems::{
    explanations_are_consistent, first_wrong_response, members_are_contradicted_alike,
    texts_are_responses_or_malformed,
};
pub use trace_theorems::{traces_are_determined, traces_show_outputs};
