//! Vectors that are bred: bursts of vectors that are likely to detect faults, found without a simulation of any fault.
//!
//! 64 candidate bursts at a time run on the good machine alone, from its present state, a lane each (`runs`). Paths that
//! are sensitized are traced back from the outputs over all frames of the burst, again in all lanes at once (`trace`), in
//! the manner of critical path tracing (M. Abramovici, P. R. Menon, D. T. Miller, "Critical Path Tracing: An Alternative
//! to Fault Simulation", 1983). So each candidate has an estimate: the faults that it detects, those whose effect comes to
//! a flip-flop, the values that nets show for the first time, the flip-flops that get a definite value (`estimate`).
//! Candidates are drawn (`fresh`), and generations bred by these estimates (`children`), as in CRIS (D. G. Saab, Y. G. Saab, J. A.
//! Abraham, 1992) and GATEST (E. M. Rudnick and others, 1994), which simulate faults for each candidate. Vectors of
//! bursts that detected something are material for later ones (`kept`), as the stored sequences of STRATEGATE (M. S.
//! Hsiao, E. M. Rudnick, J. H. Patel, 1997), and so are segments of any other vectors that did (`segments`).
//!
//! A `Breeder` gives one burst after the other, and learns what each detected. All its calls return on all arguments, and
//! what is promised of a burst is its width and its length, and nothing of what it detects: its vectors are simulated as
//! any vectors are. So what is read by a number is read by `get`, and what isn't there counts as nothing.
#![tactic(auto)]

mod breeder;
mod breeding;
mod burst;
mod candidates;
mod chance;
mod children;
mod counter;
mod estimate;
mod fresh;
mod gates;
mod hopes;
mod kept;
mod paths;
mod pins;
mod plan;
mod runs;
mod segments;
mod trace;
mod unseen;

pub use breeder::Breeder;
pub use burst::Burst;
pub use estimate::Parts;
pub use segments::Detected;
