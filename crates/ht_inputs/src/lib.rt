//! The files that a job reads: what they say, which are refused and why, and their reading.
//!
//! A job reads its files one after the other, each whole before the next is opened. A module reads one: the netlist
//! (`netlist`), the start (`start_file`), the tests, or the vectors that `gen` is given (`vectors_file`), the list of
//! faults (`faults_file`), the responses (`responses_file`), the report (`report_file`) and the proofs (`proofs_file`);
//! each but the netlist is judged line by line (`judged_file`). `graded` has what `check` and `report` read before they
//! judge, and `listed` the faults of a circuit. Whatever ends a run without its work is a `RunError` (`run_error`).
//!
//! `specs/Jobs.antt` has the files of a job and the order in which it reads them, `specs/Inputs.antt` what they say, which
//! is the job's basis, and `specs/Refusals.antt` which texts it refuses. `specs/Errors.antt` has the status of each error,
//! `specs/Reading.antt` what the reading of one file after the other leaves, and why it ends a run; `specs/Judging.antt`
//! and `specs/Grading.antt` what the reading of files line by line, and that of the tests of `check`, leave. What a
//! command writes stands in the crate above.
#![tactic(auto)]

mod faults_file;
mod graded;
mod judged_file;
mod listed;
mod netlist;
mod proofs_file;
mod report_file;
mod responses_file;
mod run_error;
mod start_file;
mod vectors_file;

pub use faults_file::read_chosen;
pub use graded::{Graded, read_graded};
pub use listed::{Listed, list_faults};
pub use netlist::read_netlist;
pub use proofs_file::{read_proofs, read_verdicts};
pub use report_file::read_report;
pub use responses_file::read_responses;
pub use run_error::RunError;
pub use start_file::read_stated;
pub use vectors_file::{read_first, read_tests, read_tests_to_compact};
