//! What scripts call in C's convention: those of `model/` to compare it with models, those of `bench/` to time it beside
//! plain Rust. No crate stands on it.
//!
//! `lift` has gates over sets of pairs, `window` decisions in a window, `families` families of sets that close, and
//! `entries` the writer, the readers and the checker of entries, and the reader of reports. They read a `netlist`, and
//! give an `answer` as a number.
#![tactic(auto)]

mod answer;
mod entries;
mod families;
mod lift;
mod netlist;
mod window;
