//! Differing latches in a short list.
ghost use Rattle.std.specs.Prelude.{◌≡◌, [], ◌∷◌, ◌++◌, IfOk, OnOk, OnErr};
ghost use Rattle.ht_group.specs.Differences.{held};

use ht_tern::Tern;
use smallvec::SmallVec;
use std::alloc::{AllocError, Global};
use std::marker::Model;

/// A latch that differs, by its flip-flop, from 0, and the value that it has.
#[derive(Clone, Copy, Debug)]
pub struct Diff {
    pub latch: u32,
    pub value: Tern,
}

// what stands in the unused room of a short list
impl Default for Diff {
    fn default() -> Diff {
        Diff {
            latch: 0,
            value: Tern::Unk,
        }
    }
}

/// The latches where a machine differs from the good one, with their values. Up to four need no allocation.
// They are all that is kept of a machine from one vector to the next, in place of its state (PROOFS 1992). A fault that
// isn't detected takes 110 to 120 bytes of the process in chains of gates (docs/MEASURED.md).
#[derive(Drop)]
pub struct Diffs {
    entries: SmallVec<Diff, 4>,
}

impl Model for Diffs {
    ghost use Rattle.std.specs.Prelude.{List};
    ghost use Rattle.ht_group.specs.declared.diffs.Diff.{Diff};

    ghost Value = { List Diff };

    ghost view = { λ a. a.entries.items };
}

impl Diffs {
    /// No differences.
    pub fn new(alloc: Global) -> Diffs
        ensures { result ≡ [] }
    {
        Diffs {
            entries: SmallVec::new(alloc),
        }
    }

    /// The differences, in their order.
    pub fn entries(&self) -> &[Diff]
        ensures { result.now ≡ self.now }
    {
        self.entries.as_slice()
    }

    /// The value held for a latch, or none where it has the good machine's.
    pub fn get(&self, latch: u32) -> Option<Tern>
        ensures { result ≡ held self.now latch }
    {
        for entry in self.entries.as_slice() {
            if entry.latch == latch {
                return Some(entry.value);
            }
        }
        None
    }

    /// Forgets all differences.
    pub fn clear(&mut self)
        ensures { self.new ≡ [] }
    {
        self.entries.clear();
    }

    /// Adds a difference at the end.
    ///
    /// # Errors
    /// Out of memory; the differences are as before.
    pub fn push(&mut self, diff: Diff) -> Result<(), AllocError>
        ensures ok { OnOk result (self.new ≡ self.old ++ diff ∷ []) }
        ensures err { OnErr result (self.new ≡ self.old) }
    {
        self.entries.push(diff)?;
        Ok(())
    }

    /// The same differences once more.
    ///
    /// # Errors
    /// Out of memory.
    pub fn copy(&self) -> Result<Diffs, AllocError>
        ensures { IfOk result (λ diffs. diffs ≡ self.now) }
    {
        let entries = SmallVec::from_slice(*self.entries.allocator(), self.entries.as_slice())?;
        Ok(Diffs { entries })
    }
}
