//! One line of a netlist (ISCAS-89 format): its tokens, its form, and what it states.
//!
//! `read_line` gives what a line states, or the first cause why it is refused: bad line, bad name, bad kind, bad count.
//! `specs/Reading.antt` has the whole rule. What lines state together is ht_bench's.
//!
//! `push_input`, `push_output`, `push_dff` and `push_gate` write a statement as its normal line, and `kind_text` is the
//! word of a kind; `specs/StatementText.antt` has that text.
//!
//! `normal_text_is_read` and `stated_is_sound` are theorems: they run nothing, and their contracts hold of all lines.
#![tactic(auto)]

mod arguments;
mod element;
mod error;
mod first_token;
mod form;
mod name;
mod reading;
mod statement;
mod statement_text;
mod theorems;
mod token;

pub use error::{LineRefusal, StatementError};
pub use reading::read_line;
pub use statement::Statement;
pub use statement_text::{kind_text, push_dff, push_gate, push_input, push_output};
pub use theorems::{normal_text_is_read, stated_is_sound};
