//! What the checker of entries judges by: windows whose frames settle over sets of pairs at each node, from what the
//! path decided and nothing else. Whatever is kept from one node to the next is room, or a frame to settle from.
//!
//! `RecomputedWindow` is one of each kind: one frame with a set of flip-flops, some frames from all-unknown or from a pair
//! of states, and back from a cube; `RecomputedClauseWindow` is one frame from the states that meet some clauses. Each
//! answers as a `JudgedWindow`: what the decisions at a node make of it (`status`), and what may follow there. A window
//! has `KeptFrames` for its time, which go from one window to the next.
//!
//! No code of a search is used. So the frames have a loop of events of their own (`net_sets`), beside that of ht_events
//! in which the windows of a search change and go back: who doubts a verdict reads here, in one file and without cells,
//! trail or undo, how a net comes to its set. What the two share says nothing of values: the order of the gates and
//! what reads each net (`Schedule` of ht_events). The gates themselves are those of ht_frame and ht_pairs.
//!
//! Modules: `judged_window` (what a window answers), `recomputed_window` (a window of any kind), `clause_window` (a window
//! under clauses), `clauses` (which are met and broken), `window_start` (the first latches of a window), `frame_sets`
//! (one frame over sets), `kept_frames` (the nets of a window's frames), `net_sets` (those of one frame, by events),
//! `decisions` (what a path decides), `differences` (what places show), `cube` (what next states make of a cube).
#![tactic(auto)]

mod clause_window;
mod clauses;
mod cube;
mod decisions;
mod differences;
mod frame_sets;
mod judged_window;
mod kept_frames;
mod net_sets;
mod recomputed_window;
mod window_start;

pub use clause_window::RecomputedClauseWindow;
pub use cube::{decided_cube, wants_any};
pub use decisions::write_decisions;
pub use judged_window::JudgedWindow;
pub use kept_frames::KeptFrames;
pub use recomputed_window::RecomputedWindow;
