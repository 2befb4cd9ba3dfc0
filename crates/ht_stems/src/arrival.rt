//! Where an effect ends.
use ht_net::NetId;
use ht_tern::Tern;

/// Where the effect of a forced net or of a fault ends within a frame: what is left of it there. Flip-flops and outputs
/// count from 0.
#[derive(Clone, Copy, PartialEq, Eq, Debug)]
pub enum Arrival {
    /// Nowhere: the frame is the good one.
    Dies,
    /// At one flip-flop, which takes the value.
    AtLatch { dff: u32, value: Tern },
    /// At one output, which shows the value.
    AtOutput { output: u32, value: Tern },
    /// At a net with two loads or more: the frame is the good one with that net forced to the value.
    AtStem { net: NetId, value: Tern },
}
