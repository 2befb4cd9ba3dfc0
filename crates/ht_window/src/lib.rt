//! The windows of the search: some frames of the good and of the faulty machine over sets of pairs, under the decisions
//! that stand.
//!
//! A `Window` holds its decisions in order and the set of each net in each frame, in one array that is changed in
//! place: `decide` lets the cells follow by events (ht_events), and `undo` takes back exactly what was changed since a
//! mark (ht_trail). `status`, `pick` and `walk_back` read it. The definitions are ht_tree's: `specs/Windows.antt`,
//! `WindowStatus.antt` and `WalkBack.antt`.
//!
//! | File | Holds |
//! |---|---|
//! | start | what the latches of the first frame are |
//! | decisions | the decisions, and the value of each variable |
//! | frames | the sets of a whole window, frame by frame |
//! | held | the decisions and the cells: the plant of the events |
//! | window | `decide`, `mark`, `undo`, `cell`, `next_state` |
//! | setup, renew, base, bases | windows before their first decision, one made from another by events |
//! | restrict | which nets matter to a window of a fault: their cells alone are kept |
//! | places, cube, status | what the places and the latches of a cube show; `status`, `pick` |
//! | back | `walk_back` |
//! | trial, vectors | a window in which a difference is searched for: `explore` from its root, and the vectors read off |
//!
//! `specs/Shallow.antt` bounds how many windows stand one under the other, and `proofs/NodeLaws.antt` gives what a
//! problem has to promise of its node from a window that stands there.
#![tactic(auto)]

mod back;
mod base;
mod bases;
mod cube;
mod decisions;
mod frames;
mod held;
mod places;
mod renew;
mod restrict;
mod sets;
mod setup;
mod start;
mod status;
mod trial;
mod vectors;
mod window;

pub use bases::Bases;
pub use ht_events::MAX_FRAMES;
pub use ht_trail::Mark;
pub use start::{PairState, Start};
pub use trial::{Trial, explore, without_place};
pub use vectors::{list, vector};
pub use window::Window;
