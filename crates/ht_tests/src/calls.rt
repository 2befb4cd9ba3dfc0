//! The tests: `run` has those of the program, and `doors` those of calls that no run makes.

mod doors;
mod run;
