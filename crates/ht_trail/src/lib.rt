//! Cells that remember what they held: each change puts the old value on a trail, and `undo` takes back the changes
//! made since a mark, exactly and at no other cost than theirs.
//!
//! A search decides and takes back thousands of times a second, so a window keeps its cells here. `specs/Trails.antt`
//! says what a trail takes back; `proofs/TrailLaws.antt` is the whole theory of undo.
#![tactic(auto)]

mod cells;

pub use cells::{Cells, Mark, Saved};
