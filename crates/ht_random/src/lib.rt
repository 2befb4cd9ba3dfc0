//! Random words, and the vectors that are drawn by them.
//!
//! The generator is PCG32 (M. E. O'Neill, "PCG: A Family of Simple Fast Space-Efficient Statistically Good Algorithms
//! for Random Number Generation", 2014), made from a seed, as the published crates `rand_pcg` and `rand_core` have it.
//! For each vector in order and each input in order one word is taken, and the input is 1 exactly where the word is
//! odd. Weighted vectors come in bursts, in each of which an input has a weight of its own (`WeightedVectors`).
//! `specs/Words.antt` has the generator and its words, `specs/RandomVectors.antt` and `specs/WeightedVectors.antt` the
//! vectors.
#![tactic(auto)]

mod weighted;
mod words;

pub use weighted::WeightedVectors;
pub use words::Words;
