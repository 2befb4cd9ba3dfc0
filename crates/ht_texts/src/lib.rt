//! The texts of vectors, of reports, of starts and of lists of faults: what they are, as definitions over bytes, and the
//! calls that write and read them.
//!
//! `specs/Pieces` says what a line of words, numbers and names is, and `specs/WrongLines` which line is the first wrong
//! one of a text. `specs/Numbers` says which bytes are a number; `specs/Tests` which are a list of vectors, and at which
//! line a text that is none goes wrong; `specs/Sites` names the lines of a circuit; `specs/Verdicts` has what is said of a
//! class,
//! `specs/Counts` of how many classes, and `specs/Reports` a report, line for line. `specs/SearchReports` says which
//! texts are the report of a search, and at which line another goes wrong. A `ReportReader` takes such a report line by
//! line: `specs/ReportReading` says how far it is read and what a line says, `specs/ReportStands` what the reader
//! keeps. `specs/LineLengths` says how long its lines are at most. `specs/StartTexts` says which texts are that of a
//! start, what each flip-flop holds before the first vector, and `specs/FaultListTexts` which are a list of faults.
#![tactic(auto)]

mod body;
mod character;
mod class_counts;
mod fault_line;
mod fault_number;
mod head;
mod item;
mod limits;
mod malformed_line;
mod number;
mod piece;
mod read_fault;
mod read_head;
mod read_line;
mod read_total;
mod read_verdict;
mod report_reader;
mod said;
mod site;
mod start_line;
mod strip;
mod theorems;
mod total;
mod vector;

pub use body::write_body;
pub use character::tern_character;
pub use class_counts::count_classes;
pub use fault_line::{push_fault, push_line_front, write_fault};
pub use fault_number::push_fault_number;
pub use head::write_head;
pub use item::Item;
pub use limits::MAX_LINE_BYTES;
pub use malformed_line::MalformedLine;
pub use number::{push_number, read_number};
pub use piece::{Piece, push_line, push_pieces};
pub use report_reader::ReportReader;
pub use said::{Said, saids_of};
pub use site::output_name;
pub use start_line::read_start;
pub use theorems::{
    fault_lists_are_read, first_wrong_report_line, report_fronts_are_read, report_lines_are_short,
    reports_are_read, reports_say_one_thing, tests_are_read, texts_are_fault_lists_or_malformed,
    texts_are_reports_or_malformed, texts_are_starts_or_malformed, texts_are_tests_or_malformed,
};
pub use total::{Sums, write_total};
pub use vector::{read_vector, write_vector};
