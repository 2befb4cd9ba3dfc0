//! Rails of flip-flops, and forbidden cubes of them.
use ht_items::Items;

/// What a rail says: the latch of a flip-flop, in the good or in the faulty machine, definitely holds the value.
/// Flip-flops count from 0.
#[derive(Clone, Copy, PartialEq, Eq, Debug)]
pub struct Rail {
    pub faulty: bool,
    pub dff: u32,
    pub value: bool,
}

/// A forbidden cube: rails that never hold together.
pub type Cube = Items<Rail>;
