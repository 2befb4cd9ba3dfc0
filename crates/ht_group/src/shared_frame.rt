//! What the words of a group share in a frame.
ghost use Rattle.std.specs.Prelude.{◌≡◌, ℕ, false, get_or, IfOk};
ghost use Rattle.ht_group.specs.SharedFrames.{IsSharedFrame};

use crate::good_frame::GoodFrame;
use ht_events::Schedule;
use ht_items::BitSet;
use ht_net::Circuit;
use std::alloc::{AllocError, Global};

/// A frame of a circuit as all words of a group have it: the good machine in it, and the events.
#[derive(Drop)]
pub struct SharedFrame<'c> {
    pub circuit: &'c Circuit,
    /// The order of the nets, and what reads each.
    pub schedule: Schedule,
    /// The good machine.
    pub good: GoodFrame,
    /// The ranks of the nets that may not have their value.
    pub pending: BitSet,
}

impl<'c> SharedFrame<'c> {
    /// The frame of an unknown vector and unknown latches, where no net is pending.
    ///
    /// # Errors
    /// Out of memory.
    pub fn new(alloc: Global, circuit: &'c Circuit) -> Result<SharedFrame<'c>, AllocError>
        ensures frame { IfOk result (λ frame. IsSharedFrame frame) }
        ensures circuit { IfOk result (λ frame. frame.circuit.now ≡ circuit.now) }
        ensures none { IfOk result (λ frame. (r : ℕ) → get_or frame.pending r false ≡ false) }
    {
        let schedule = Schedule::new(alloc, circuit)?;
        let good = GoodFrame::new(alloc, circuit)?;
        let pending = BitSet::new(alloc, circuit.nets())?;
        Ok(SharedFrame {
            circuit,
            schedule,
            good,
            pending,
        })
    }
}
