//! Lines that faults stand on, by rank.

/// A line: a net, the data pin of a flip-flop, or a pin of the gate that drives a net.
#[derive(Clone, Copy, PartialEq, Eq, Debug)]
pub enum Line {
    Net(u32),
    Data { dff: u32 },
    Pin { net: u32, pin: usize },
}
