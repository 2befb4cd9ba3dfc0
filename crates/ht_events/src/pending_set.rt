//! Which positions have a pending item.
ghost use Rattle.std.specs.Prelude.{◌≡◌, ℕ, ◌<◌, ◌≤◌, true, false, length, get_or, replicate, set, IfOk, IfSome, IfNone};

use ht_items::BitSet;
use std::alloc::{AllocError, Global};
use std::marker::Model;

/// A mark for each position below a bound, or none. What is marked stands from `low` to `last`, so that the search for
/// a mark looks nowhere else.
#[derive(Drop)]
pub struct PendingSet {
    set: BitSet,
    low: u32,
    last: u32,
}

impl Model for PendingSet {
    ghost use Rattle.std.specs.Prelude.{List, Bool};
    ghost use Rattle.ht_events.specs.PendingSets.{IsPendingSet};

    ghost Value = { List Bool };

    ghost view = { λ a. a.set };

    ghost invariant = { IsPendingSet };
}

impl PendingSet {
    /// No mark, of positions below a bound.
    ///
    /// # Errors
    /// Out of memory.
    pub fn new(alloc: Global, bound: u32) -> Result<PendingSet, AllocError>
        ensures { IfOk result (λ marks. marks ≡ replicate bound false) }
    {
        Ok(PendingSet {
            set: BitSet::new(alloc, bound)?,
            low: u32::MAX,
            last: 0,
        })
    }

    /// Whether a position is marked.
    pub fn contains(&self, position: u32) -> bool
        requires { position < length self.now }
        ensures { result ≡ get_or self.now position false }
    {
        self.set.contains(position)
    }

    /// Marks a position.
    pub fn insert(&mut self, position: u32)
        requires { position < length self.old }
        ensures { self.new ≡ set self.old position true }
    {
        self.set.insert(position);
        self.low = self.low.min(position);
        self.last = self.last.max(position);
    }

    /// Takes the mark of a position away.
    pub fn remove(&mut self, position: u32)
        requires { position < length self.old }
        ensures { self.new ≡ set self.old position false }
    {
        self.set.remove(position);
        if self.low == position {
            self.low = position + 1;
        }
    }

    /// The least marked position that isn't below `from`.
    pub fn next(&mut self, from: u32) -> Option<u32>
        ensures same { self.new ≡ self.old }
        ensures from { IfSome result (λ p. from ≤ p) }
        ensures within { IfSome result (λ p. p < length self.old) }
        ensures marked { IfSome result (λ p. get_or self.old p false ≡ true) }
        ensures least { IfSome result
            (λ p. (q : ℕ) → from ≤ q → q < p → get_or self.old q false ≡ false) }
        ensures none { IfNone result ((q : ℕ) → from ≤ q → get_or self.old q false ≡ false) }
    {
        let start = self.low.max(from);
        let found = if start <= self.last {
            self.set.next(start)
        } else {
            None
        };
        if from <= self.low {
            self.narrow(found);
        }
        found
    }

    // The first mark is known, or that there is none.
    fn narrow(&mut self, first: Option<u32>)
        requires some { IfSome first (λ p. (q : ℕ) → q < p → get_or self.old q false ≡ false) }
        requires none { IfNone first ((q : ℕ) → get_or self.old q false ≡ false) }
        ensures { self.new ≡ self.old }
    {
        match first {
            Some(position) => self.low = position,
            None => {
                self.low = u32::MAX;
                self.last = 0;
            },
        }
    }
}
