//! A circuit as searches read it that nobody has to believe: its nets by rank, in flat rows.
//!
//! Inputs come first, then what flip-flops drive, and then what gates drive, each after the nets at its pins. `Wiring` has
//! the gate that drives a net, and what reads it; `Pending` the nets whose gates are still to be evaluated, from the
//! least rank on; `Cone` what a line may change. Nothing is promised but that each call returns: what stands nowhere is
//! harmless, and what a search finds is judged by others.
#![tactic(auto)]

mod cone;
mod line;
mod pending;
mod rows;
mod wiring;

pub use cone::Cone;
pub use line::Line;
pub use pending::Pending;
pub use wiring::{Gate, Wiring};
