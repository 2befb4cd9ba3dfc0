//! The judging of files in parts, which go on side by side and together say what one run says.
//!
//! The classes of a circuit's faults are dealt out in turn to so many parts (`specs/Parts`). `specs/ValidInPart` says
//! when files are valid in a part: the form is that of valid files throughout, and what is said of the classes of the
//! part is justified. `specs/TroubleInPart` says what is wrong first with others. A `PartReportJudge` takes the lines of a
//! report for a part, and at its end claims of each class outside the part that nothing is to be shown of it; a
//! `ProofJudge` of `ht_judge` takes the proofs by these claims. The laws say that files are valid exactly where they are
//! valid in each part, that valid files have one report, and that parts of proofs justify together what each does
//! (`specs/PutTogether`); each is the contract of a function that does nothing.
#![tactic(auto)]

mod members;
mod part;
mod part_report_judge;
mod theorems;

pub use part::{MAX_PARTS, Part};
pub use part_report_judge::PartReportJudge;
pub use theorems::{
    each_class_is_in_one_part, files_judged_for_a_part_are_valid_in_it,
    parts_are_valid_where_files_are, parts_of_proofs_justify_together, valid_files_have_one_report,
};
