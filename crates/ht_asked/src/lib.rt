//! What the words of a command line ask for: the definitions that the top call's contract cites, and their laws.
//!
//! `specs/Table` is the table of the commands, a row each, `specs/Commands` what words ask for by it, and `specs/Usage` the
//! usage line that is made of it. `specs/Asked` is what is asked for: a command, the names of its files by port, and its
//! numbers.
//! `specs/Forms` says which words have a command's form, and what they give to its positionals and options;
//! `specs/Numbers` is how a number in a range is read, `limits` has the ranges, and `specs/Ranges` says which numbers a
//! job has. `specs/ByClap` says the same as `specs/Commands` by `clap`'s own
//! definitions, and `proofs/FormByClap` proves for any form that both are one. There is no function but those that Rust
//! derives: ht_words reads the words, and its check is short so.
#![tactic(auto)]

mod depth;
mod limits;

pub use depth::Depth;
pub use limits::{
    DEFAULT_BRED, DEFAULT_BUDGET, DEFAULT_RANDOM, DEFAULT_SEED, DEFAULT_WORK, MAX_BRED, MAX_BUDGET,
    MAX_FAULT, MAX_RANDOM, MAX_RUN, MAX_SEED, MAX_SIZE, MAX_WORK, MIN_BUDGET, MIN_FAULT, MIN_RUN,
    MIN_SIZE, MIN_WORK,
};
