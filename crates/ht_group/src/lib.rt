//! Up to 256 faulty machines in one frame, evaluated by events (parallel fault simulation, as in PROOFS 1992).
//!
//! A `Group` has up to four words of 64 machines, one in each lane; machine 64 * w + k stands in lane k of word w. The
//! words share the good machine's frame, the schedule and the nets that are pending, so a net that an event reaches is
//! taken once for all of them. `start` runs the good machine, and every lane has its values; `add` gives the next lane
//! a fault and latches that differ in a few places; `settle` evaluates only the gates that a stuck line or a differing
//! latch reaches, each at most once for a word, in the order of the circuit. Then `opposite` tells at which outputs the
//! machines of a word differ for a tester, `shown` what they show there, `next` gives their latches after the frame, and
//! `clear` takes the machines away and puts back only the nets that they changed. Contracts see a group as a `GroupView`.
//!
//! `Diffs` holds, for one machine, the few latches whose value isn't the good machine's: the good state with these
//! differences is the faulty one (state differences, as in PROOFS 1992). Contracts see the list of them.
#![tactic(auto)]

mod diffs;
mod evaluate;
mod events;
mod four_words;
mod good_frame;
mod group;
mod machines;
mod overlay;
mod shared_frame;
mod stuck_lines;

pub use diffs::{Diff, Diffs};
pub use group::{Group, LANES, MAX_MACHINES};
