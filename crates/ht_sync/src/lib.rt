//! Shortest synchronizing lists: lists of vectors after which every flip-flop has a definite value, whatever it held
//! before.
//!
//! `sync` searches the lists of 1 vector, 2 vectors and so on, with one budget for all. What it answers is exact
//! (`specs/SyncSearches`), and so is what that means: no shorter list synchronizes, and every run over the list ends in
//! the same state. Its windows are those of a sweep without a fault (`specs/SyncWindows`).
//!
//! | File | Holds |
//! |---|---|
//! | synchronizing | the lengths one after the other: `sync` |
//! | length | the search of one length |
//! | trial | a window as a problem of the search |
//! | final_state | the state in which a list leaves the circuit |
//! | sync_text | the text of the record |
#![tactic(auto)]

mod final_state;
mod length;
mod sync_text;
mod synchronizing;
mod trial;

pub use sync_text::{write_sync_body, write_sync_last, write_sync_said};
pub use synchronizing::{Synchronized, sync};
