//! Given vectors and then bred ones, graded.
//!
//! `bred_vectors` applies vectors to the representatives of all classes of faults, breeds one burst after the other from
//! the state of the good machine (ht_breed), and applies each. All are graded by the simulator (ht_proofs), so what is
//! said of them is what it proves, whatever was bred. A search that breeds between other work calls `Bursts` itself: a
//! burst at a time, whose work is counted, with lists of its own as material; where it keeps the grader itself, it asks
//! for a burst (`breed`), applies it, and lets `learn` know. The same circuit, vectors, count and seed give the same
//! vectors: no clock is read.
#![tactic(auto)]

mod bred;
mod bred_text;
mod bursts;
mod live;
mod vectors;

pub use bred::{Bred, bred_vectors};
pub use bred_text::write_bred;
pub use bursts::{Bursts, Gain};
pub use vectors::append;
