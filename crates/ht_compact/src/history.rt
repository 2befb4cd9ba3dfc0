//! The latches of a fault's machine before vectors that follow one another.
ghost use Rattle.std.specs.Prelude.{◌≡◌, ◌≤◌, ◌<◌, ◌++◌, ◌∷◌, [], length, IfOk, OnOk, IsTrue};
ghost use Rattle.ht_compact.specs.Kept.{continued};
ghost use Rattle.ht_compact.specs.Moments.{differences_before};

use crate::replace::replace;
use ht_group::{Diff, Diffs};
use std::alloc::{AllocError, Global};
use std::marker::Model;

/// The latches of a fault's machine that differ from the good ones, before vectors that follow one another.
#[derive(Drop)]
pub struct History {
    entries: Vec<Diffs>,
}

impl Model for History {
    ghost use Rattle.std.specs.Prelude.{List};
    ghost use Rattle.ht_group.specs.declared.diffs.Diff.{Diff};

    ghost Value = { List (List Diff) };

    ghost view = { λ a. a.entries.items };
}

// Whether two differences are the same; where they are, a `true` says so.
fn is_same(one: Diff, other: Diff) -> bool
    ensures { IsTrue result → one ≡ other }
{
    one.latch == other.latch && one.value == other.value
}

// Whether these differences are the same, in one order; where they are, a `true` says so.
fn are_equal(some: &[Diff], others: &[Diff]) -> bool
    ensures { IsTrue result → some.now ≡ others.now }
{
    if some.len() != others.len() {
        return false;
    }
    for i in 0..some.len() {
        if !is_same(some[i], others[i]) {
            return false;
        }
    }
    true
}

impl History {
    /// Of no vector.
    pub fn new(alloc: Global) -> History
        ensures { result ≡ [] }
    {
        History {
            entries: Vec::new(alloc),
        }
    }

    /// How many vectors it is of.
    pub fn len(&self) -> usize
        ensures { result ≡ length self.now }
    {
        self.entries.len()
    }

    /// The differences before vector `t`, once more.
    ///
    /// # Errors
    ///
    /// `AllocError`: out of memory.
    pub fn at(&self, t: usize) -> Result<Diffs, AllocError>
        requires { t < length self.now }
        ensures { IfOk result (λ diffs. diffs ≡ differences_before self.now t) }
    {
        self.entries[t].copy()
    }

    /// Whether these are the differences before vector `t`; where they are, a `true` says so.
    pub fn holds(&self, t: usize, diffs: &Diffs) -> bool
        requires { t < length self.now }
        ensures { IsTrue result → differences_before self.now t ≡ diffs.now }
    {
        are_equal(self.entries[t].entries(), diffs.entries())
    }

    /// Adds the differences before one more vector.
    ///
    /// # Errors
    ///
    /// `AllocError`: out of memory.
    pub fn push(&mut self, diffs: Diffs) -> Result<(), AllocError>
        ensures { OnOk result (self.new ≡ self.old ++ diffs ∷ []) }
    {
        self.entries.push(diffs)?;
        Ok(())
    }

    /// Puts another history in place of what stands from vector `from` on before vector `rest`, or up to the end.
    ///
    /// # Errors
    ///
    /// `AllocError`: out of memory.
    pub fn continue_with(
        &mut self,
        from: usize,
        other: History,
        rest: usize,
    ) -> Result<(), AllocError>
        requires { from ≤ rest }
        ensures { OnOk result (self.new ≡ continued from self.old other rest) }
    {
        replace(&mut self.entries, from, other.entries, rest)
    }
}
