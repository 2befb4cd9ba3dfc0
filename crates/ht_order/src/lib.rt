//! Which block of a full search goes next.
//!
//! A full search has several ways to decide faults, its blocks. Each works in chunks, and brings most at its beginning: so
//! the one that brought most for its work of late goes next. All is counted, and no clock is looked at: the same counts
//! give the same order on each machine. `Order` is told what each chunk brought (`note`), and says which block goes next
//! (`next`), until all are over. `specs/NextBlocks` has the rule, and `specs/Chunks` what a chunk changes.
//!
//! | Module | Holds |
//! |---|---|
//! | `block` | the blocks |
//! | `rate` | classes for work, and which of two is higher |
//! | `tally` | what is kept of a block |
//! | `order` | what is kept of all, and what a chunk changes |
//! | `next` | which block goes next |
#![tactic(auto)]

mod block;
mod next;
mod order;
mod rate;
mod tally;

pub use block::Block;
pub use order::{Chunk, Order};
pub use rate::{Rate, UNIT_OF_WORK};
