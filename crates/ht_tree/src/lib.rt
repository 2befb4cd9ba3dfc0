//! Windows, walks and entries: what a search looks at and writes down, and what a checker judges.
//!
//! A search decides one variable of a window after the other and writes each step as a `Token`. The tokens are judged
//! from the left against a stack of nodes, each with the decisions that lead to it: `Walk` keeps that stack. A `Told`
//! is a frame in which the two machines differ for certain, an `Aim` says how the attempt at one ended, and an
//! `Entry` is the record of one fault.
//!
//! The definitions that search and checker share stand in `specs/`: `Walks` (nodes, tokens, complete and open walks),
//! `Windows` (the four windows and their cells), `Places`, `WindowStatus` and `Variables` (where a window shows what
//! is looked for, and what is left to decide), `Nodes` (the window of a node), `WalkBack` (the choice of variable),
//! `Searches` (how a search ends), `Counts` (how many tokens it can take), `FoundLists` and `Reached` (the lists that
//! a search finds, and what lists do), `ToldChains`, `SearchRecords`, `AimedAttempts` and `AbortRecords` (what is left
//! where none is found), `Budgets` (which are enough) and `Entries` (what an entry says). Of states that meet clauses
//! speak `Clauses` (which are met and broken), `ClauseWindows` and `ClauseSearches` (windows under them, and the choice
//! of variable there), `Invariants` (those that no frame leaves), `SealedInClauses`, `RefutationsFrom` (refutations
//! from one named state) and `ToldUnder`. Of sets of pairs speak `ClosedFamilies` (a set for each flip-flop that no
//! vector leads out of) and `FamilyRows` (those of an entry); of forbidden cubes speaks ht_cubes. What they are good for
//! stands in ht_records.
#![tactic(auto)]

mod aim;
mod clause;
mod entry;
mod family_row;
mod kind;
mod limits;
mod node;
mod stack;
mod token;
mod told;
mod walk;
mod window;

pub use aim::Aim;
pub use clause::{Clause, Literal};
pub use entry::Entry;
pub use family_row::FamilyRow;
pub use kind::EntryKind;
pub use limits::{BACK_LIMIT, FORWARD_FRAMES, MAX_BUDGET, MAX_CLAUSES};
pub use node::WalkNode;
pub use token::{Assign3, Choice, Status3, Token};
pub use told::{Assign, Told};
pub use walk::Walk;
pub use window::{Spot, Status, WindowPlace};
