//! The reader and the writer of netlists (ISCAS-89 bench format: F. Brglez, D. Bryan, K. Kozminski, "Combinational
//! Profiles of Sequential Benchmark Circuits", 1989).
//!
//! `read` gives the circuit of a netlist, or the one refusal of a text that is none. `specs/Text.antt` says which texts
//! are netlists of which circuits, and how every other text is refused. What one line states is ht_statement's.
//!
//! `write_refusal` writes a refusal's words on the port Err; `specs/RefusalText.antt` has them.
//!
//! `write` gives the normal text of a circuit, which `read` reads as that circuit. `specs/Normal.antt` has that text.
#![tactic(auto)]

mod add_error;
mod add_line;
mod error;
mod find_line;
mod lines;
mod mention;
mod reader;
mod refusal_text;
mod split;
mod theorems;
mod writer;

pub use error::BenchError;
pub use reader::read;
pub use refusal_text::write_refusal;
pub use theorems::{
    a_circuit_that_was_read_has_names_of_the_format, normal_text_is_a_netlist_of_its_circuit,
    normal_text_is_read_as_its_circuit, one_circuit_per_text, one_refusal_per_text,
};
pub use writer::write;
