//! Evaluation by events (PROOFS 1992): an item that may disagree with what it reads is pending, and firing it makes it
//! agree and what reads it pending. None pending means that all agree, whatever order they were fired in.
//!
//! `ranking` gives the order of all that gets a value, sources and then gates, each after those that it reads, and the
//! rank of each there; which nets count as sources is the caller's to say. A `Schedule` has the order of the nets of
//! one frame, with the ranks of what reads each.
//!
//! Over the frames of a window, items are, frame by frame, the flip-flops and then the gates (`specs/Items.antt`). A
//! `Plant` keeps their cells, as a window of pair sets does; `Core` knows what is pending and nothing of cells.
//! `settle` fires the lowest frame and level first, so that it fires no item twice.
#![tactic(auto)]

mod event_core;
mod frame_length;
mod frame_plan;
mod pending_set;
mod plan;
mod plant;
mod rank_readers;
mod ranks;
mod readers;
mod schedule;

pub use event_core::Core;
pub use frame_plan::FramePlan;
pub use plan::MAX_FRAMES;
pub use plant::Plant;
pub use ranks::ranking;
pub use schedule::Schedule;
