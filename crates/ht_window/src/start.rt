//! What the latches of a window's first frame are.
ghost use Rattle.std.specs.Prelude.{◌≡◌, IsTrue, IfOk};
ghost use Rattle.ht_window.specs.Starts.{start_of};

use ht_items::Items;
use ht_tern::Tern;
use std::alloc::{AllocError, Global};

/// A three-valued state of the good machine and one of the faulty machine, with a value for each flip-flop in order.
#[derive(Drop)]
pub struct PairState {
    /// The good machine's state.
    pub good: Items<Tern>,
    /// The faulty machine's state.
    pub bad: Items<Tern>,
}

/// What the latches of a window's first frame are. Each list has an entry for each flip-flop, in order.
///
/// | Start | Latches of the first frame | Frames |
/// |---|---|---|
/// | `OneFrame` | outside the set `{00,11}`, in it all four two-valued pairs | 1 |
/// | `Unknown` | `{XX}` | any number |
/// | `Pair` | the given pair | any number |
/// | `Back` | `{00,11,XX}`, of the good machine only | 1 |
#[derive(Drop)]
pub enum Start {
    /// Two states that may differ at the flip-flops that are marked and nowhere else.
    OneFrame { z: Items<bool> },
    /// Every latch is unknown.
    Unknown,
    /// The given states.
    Pair { state: PairState },
    /// Any state of the good machine, for a cube of latch values that is wanted after the frame: it wants nothing of a
    /// latch where it is unknown. At most `limit` frames may lead to it.
    Back { cube: Items<Tern>, limit: u32 },
}

impl Start {
    /// The same start, in memory of its own.
    ///
    /// # Errors
    /// Out of memory.
    pub fn copied(&self, alloc: Global) -> Result<Start, AllocError>
        ensures { IfOk result (λ start. start_of start ≡ start_of self.now) }
    {
        Ok(match self {
            Start::OneFrame { z } => Start::OneFrame {
                z: Items::from_slice(alloc, z.as_slice())?,
            },
            Start::Unknown => Start::Unknown,
            Start::Pair { state } => Start::Pair {
                state: PairState {
                    good: Items::from_slice(alloc, state.good.as_slice())?,
                    bad: Items::from_slice(alloc, state.bad.as_slice())?,
                },
            },
            Start::Back { cube, limit } => Start::Back {
                cube: Items::from_slice(alloc, cube.as_slice())?,
                limit: *limit,
            },
        })
    }

    // Whether two starts are of the same kind.
    pub(crate) fn is_like(&self, other: &Start) -> bool {
        matches!(
            (self, other),
            (Start::OneFrame { z: _ }, Start::OneFrame { z: _ })
                | (Start::Unknown, Start::Unknown)
                | (Start::Pair { state: _ }, Start::Pair { state: _ })
                | (
                    Start::Back { cube: _, limit: _ },
                    Start::Back { cube: _, limit: _ }
                )
        )
    }

    // Whether another start is the same, of the kinds that windows of any number of frames may have.
    pub(crate) fn is_same(&self, other: &Start) -> bool
        ensures { IsTrue result → start_of self.now ≡ start_of other.now }
    {
        match (self, other) {
            (Start::Unknown, Start::Unknown) => true,
            (Start::Pair { state }, Start::Pair { state: others }) => {
                state.good.as_slice() == others.good.as_slice()
                    && state.bad.as_slice() == others.bad.as_slice()
            },
            _ => false,
        }
    }
}
