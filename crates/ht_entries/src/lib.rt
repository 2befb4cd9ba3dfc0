//! The proofs text: the entries of faults as lines, written and read.
//!
//! A text has one of three formats, which its first line names. The first has refutations and aborts, the second also
//! refutations from one named state (`specs/FromState`), and the third also faults that sets of pairs or forbidden
//! cubes show undetectable (`specs/BySets`, `specs/ByCubes`).
//!
//! `specs/ProofLines` has the text of one line, `specs/EntryLines` the lines of an entry and of a whole text, and
//! `specs/EntryTexts` says which entries have a text, and what the text doesn't show of them. A `ProofReader` takes a
//! text line by line: `specs/ProofReading` says where it stands after some lines, `specs/ProofSteps` what a further
//! line makes of that, and `specs/ReaderStands` what its calls owe. `specs/MalformedProofs` says at which line a text
//! that is none goes wrong.
#![tactic(auto)]

mod by_cubes;
mod by_sets;
mod entry_part;
mod entry_text;
mod format;
mod found;
mod from_state;
mod grow;
mod limits;
mod line_items;
mod numbered;
mod parse_line;
mod parse_vector;
mod parse_words;
mod proof_line;
mod push_item;
mod read_aim;
mod read_refutation;
mod read_sweep;
mod read_told;
mod reader;
mod reader_state;
mod take_line;
mod text_error;
mod theorems;
mod write_line;
mod write_lists;

pub use by_cubes::ByCubesLine;
pub use by_sets::BySetsLine;
pub use entry_text::write_entry;
pub use format::Format;
pub use from_state::FromStateLine;
pub use limits::MAX_PROOF_LINE_BYTES;
pub use numbered::Numbered;
pub use proof_line::ProofLine;
pub use reader::ProofReader;
pub use reader_state::Stand;
pub use text_error::TextError;
pub use theorems::{
    entries_are_read_back, first_wrong_proof_line, formats_have_entries, fronts_are_read,
    lines_have_one_reading, malformed_lines_are_unread, malformed_proofs_are_none,
    proof_lines_are_short, text_has_one_list, texts_are_proofs_or_malformed,
    written_entries_are_a_text,
};
pub use write_line::{end_line, head_line, push_counted, push_indexed, push_token};
pub use write_lists::push_lengths;
