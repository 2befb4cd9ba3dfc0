//! Which nets matter in a window of a fault.
//!
//! The places of a window are its outputs and, in a window of one frame, the next states that count. A place shows a
//! difference only where the fault can reach it, whatever is decided; so a search has to know the nets of these places
//! and what is read there, frame by frame back, and no others. `find_relevant` finds them. What they are good for stands
//! in `specs/Relevant.antt`, and how a number for each net says in which frames it matters in `specs/Near.antt`.
//!
//! | File | Holds |
//! |---|---|
//! | relevant | which nets matter |
//! | find | how they are found: back from the places in reach |
//! | away | how many frames a fault needs to reach each net |
//! | spread, follow | a search in breadth over nets, by frames of distance |
//! | distances, way | the numbers that it finds, and which way it goes |
//! | flags | flip-flops that are marked |
#![tactic(auto)]

mod away;
mod distances;
mod find;
mod flags;
mod follow;
mod relevant;
mod spread;
mod way;

pub use find::find_relevant;
pub use relevant::Relevant;
