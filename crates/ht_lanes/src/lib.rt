//! Words of 64 three-valued lanes, and a gate over them: 64 machines evaluated at once (parallel fault simulation, as
//! in PROOFS 1992).
//!
//! `Word` keeps two bits for each lane, and contracts see it as the list of its lanes. It has the operations that gates
//! are made of, and `eval_word` is a gate's value in each lane. `eval_four` is the same of four words at a time, by
//! wide registers. The other calls read, write, stick and compare lanes.
#![tactic(auto)]

mod four;
mod gate;
mod word;

pub use four::eval_four;
pub use gate::eval_word;
pub use word::Word;
