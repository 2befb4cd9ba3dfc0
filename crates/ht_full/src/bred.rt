//! The block of bred vectors.
ghost use Rattle.std.specs.Prelude.{◌≡◌, ◌≤◌, IfOk, OnOk};
ghost use Rattle.ht_full.specs.Known.{AreOfOne, KnowsMore};

use crate::curve::Curve;
use crate::known::Known;
use crate::ran::Ran;
use std::alloc::{AllocError, Global};

// The work of the first chunk, and the most of a later one, each of which has half as much again as the one before.
const FIRST_CHUNK: u64 = 80_000_000;

const MAX_CHUNK: u64 = 600_000_000;

// So many bursts in a row without gain end a chunk.
const MAX_DRY: u32 = 40;

// The most vectors of a burst.
const MAX_BURST: u32 = 128;

/// The block of bred vectors: how much work its next chunk may take.
#[derive(Drop)]
pub struct BredBlock {
    alloc: Global,
    chunk: u64,
}

// What a chunk did so far.
#[derive(Drop)]
struct Rise {
    curve: Curve,
    spent: u64,
    detected: u32,
    dry: u32,
}

impl Rise {
    fn new(alloc: Global) -> Rise
        ensures { result.spent ≡ 0 }
    {
        Rise {
            curve: Curve::new(alloc),
            spent: 0,
            detected: 0,
            dry: 0,
        }
    }

    // Breeds a burst, and counts its work: at least 1, and no more than is left of `most`, where it took more.
    fn burst(&mut self, known: &mut Known, most: u64) -> Result<(), AllocError>
        requires { self.old.spent ≤ most }
        ensures spent { self.new.spent ≤ most }
        ensures known { OnOk result (KnowsMore known.old known.new) }
        ensures same { AreOfOne known.old known.new }
    {
        let gain = known.burst(MAX_BURST)?;
        self.spent = self.spent.saturating_add(gain.work.max(1)).min(most);
        let detected = u32::try_from(gain.detected).unwrap_or(u32::MAX);
        self.detected = self.detected.saturating_add(detected);
        self.dry = if detected > 0 {
            0
        } else {
            self.dry.saturating_add(1)
        };
        self.curve.add(self.spent, self.detected)
    }

    // Breeds bursts until this work is spent, there are many in a row without gain, or nothing is left to look for.
    #[tactic(auto, using(crate::proofs::KnownLaws::stays, crate::proofs::KnownLaws::goes_further))]
    fn bursts(&mut self, known: &mut Known, most: u64) -> Result<(), AllocError>
        requires { self.old.spent ≤ most }
        ensures spent { self.new.spent ≤ most }
        ensures known { OnOk result (KnowsMore known.old known.new) }
        ensures same { AreOfOne known.old known.new }
    {
        for _burst in 0..most {
            if self.spent >= most || self.dry >= MAX_DRY || known.are_bred() {
                return Ok(());
            }
            self.burst(known, most)?;
        }
        Ok(())
    }
}

impl BredBlock {
    /// Before its first chunk.
    pub fn new(alloc: Global) -> BredBlock {
        BredBlock {
            alloc,
            chunk: FIRST_CHUNK,
        }
    }

    /// A chunk, within the work that is left. A burst that took more than was left of it counts as what was left.
    ///
    /// # Errors
    /// Out of memory.
    pub fn run(&mut self, known: &mut Known, left: u64) -> Result<Ran, AllocError>
        ensures spent { IfOk result (λ ran. ran.spent ≤ left) }
        ensures known { OnOk result (KnowsMore known.old known.new) }
        ensures same { AreOfOne known.old known.new }
    {
        let mut rise = Rise::new(self.alloc);
        let most = self.chunk.min(left);
        rise.bursts(known, most)?;
        self.chunk = self.chunk.saturating_add(self.chunk / 2).min(MAX_CHUNK);
        Ok(Ran {
            spent: rise.spent,
            late: Some(rise.curve.late()),
            lists: rise.detected > 0,
            done: known.are_bred(),
        })
    }
}
