//! Tests of public calls, at the top of the project.
//!
//! They show what no clause says: that calls succeed with ample memory, and that the definitions mean what a reader
//! expects, by worked examples whose answers come from outside. A run of the program is a row of a text of `calls/run`, and
//! shows the calls below it. A test that needs what is private stands in its own crate.
#![tactic(auto)]

#[cfg(test)]
mod calls;
