//! Families of sets of pairs, found over what a fault may change alone.
//!
//! Outside the cone of a fault both machines show what the good machine does, so the family that closes for the good
//! machine holds there. It is found once (`FamilySearch::new`). For a fault the sets of the cone begin at the start, and
//! grow by events, each gate after those that it reads, until no flip-flop takes a further pair, or an output may show a
//! difference. So a fault costs what its cone does, where `ht_families::closing` takes frames of the whole circuit.
//!
//! The search is believed in nothing: a family that it finds is judged by `ht_families::closes_by_rows` before it is given
//! (`specs/Searches`). What is promised beside that is that a call evaluates no more gates than it may.
//!
//! | Module | Holds |
//! |---|---|
//! | `values` | the sets that nets show, gate by gate |
//! | `growth` | the sets of a cone, as they grow |
//! | `search` | what others call |
#![tactic(auto)]

mod growth;
mod search;
mod values;

pub use search::FamilySearch;
