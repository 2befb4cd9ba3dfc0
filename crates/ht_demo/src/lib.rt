//! The demonstration netlist of a size and a seed.
//!
//! It has sixteen inputs, as many gates as are asked for, a flip-flop for every sixteen of them and one more, and up to
//! sixteen outputs. All but the counts and the names is drawn by random words: the kinds and arguments of the gates,
//! then the data pins, then the outputs. `specs/Demo.antt` has the netlist, `specs/Draws.antt` what each word means.
//!
//! `netlist_text` writes its normal text. `demo_netlist_is_accepted` is a theorem: the text is never refused.
#![tactic(auto)]

mod counts;
mod gates;
mod kind;
mod lines;
mod netlist;
mod outputs;
mod theorems;

pub use counts::MAX_DEMO_SIZE;
pub use netlist::netlist_text;
pub use theorems::demo_netlist_is_accepted;
