//! What is kept of a block.
ghost use Rattle.std.specs.Prelude.{◌≡◌};
ghost use Rattle.ht_order.specs.Tallies.{after_chunk, is_dry, new_tally};

use crate::rate::Rate;

// So many chunks in a row that decide nothing end a block.
pub const MAX_DRY: u32 = 3;

/// What is kept of a block.
#[derive(Clone, Copy, Debug)]
pub struct Tally {
    /// It had a chunk.
    pub tried: bool,
    /// What its last chunk brought in the end.
    pub rate: Rate,
    /// The work of all its chunks.
    pub work: u64,
    /// How many chunks in a row decided nothing.
    pub dry: u32,
    /// There is nothing left that it wasn't asked.
    pub done: bool,
}

impl Tally {
    /// Of a block that had no chunk.
    pub fn new() -> Tally
        ensures { result ≡ new_tally }
    {
        Tally {
            tried: false,
            rate: Rate {
                classes: 0,
                work: 0,
            },
            work: 0,
            dry: 0,
            done: false,
        }
    }

    /// Whether so many chunks in a row decided nothing that a block ends.
    pub fn is_dry(self) -> bool
        ensures { result ≡ is_dry self }
    {
        self.dry >= MAX_DRY
    }

    /// After a chunk that decided so many classes with so much work.
    pub fn after(self, classes: u32, work: u64, rate: Rate, done: bool) -> Tally
        ensures { result ≡ after_chunk self classes work rate done }
    {
        let dry = if classes == 0 {
            self.dry.saturating_add(1)
        } else {
            0
        };
        Tally {
            tried: true,
            rate,
            work: self.work.saturating_add(work),
            dry,
            done,
        }
    }
}
