//! What a window is made for.

use crate::start::Start;
use ht_net::Fault;

/// What a window is made for: its fault, how many frames it has, and how it starts.
#[derive(Drop)]
pub struct Setup<'s> {
    pub fault: Option<Fault>,
    pub frames: u32,
    pub start: &'s Start,
}
