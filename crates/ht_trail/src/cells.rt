//! Cells with a trail of their old values.
ghost use Rattle.std.specs.Prelude.{◌≡◌, ◌↔◌, IsTrue, ℕ, ◌<◌, ◌≤◌, ◌+◌, [], ◌∷◌, ◌++◌, length, take, drop, set, replicate, get_or, IfOk, OnOk, OnErr};
ghost use Rattle.ht_trail.specs.Trails.{CellsState, restored, IsLater};

use std::alloc::{AllocError, Global};
use std::marker::Model;

/// A moment to which cells can be taken back: how many old values were on the trail then. It is valid until the cells
/// are taken back to an earlier one.
#[derive(Clone, Copy, PartialEq, Eq, Debug)]
pub struct Mark(pub u64);

/// What a cell held before it was changed.
#[derive(Clone, Copy)]
pub struct Saved<T> {
    /// The cell's index, from 0.
    pub index: u32,
    /// What it held.
    pub value: T,
}

// So many changes most searches of a window don't go beyond, so that the trail of one takes memory once.
const TRAIL_ROOM: usize = 64;

/// Cells, and a trail of what they held before each change, the last change last.
#[derive(Drop)]
pub struct Cells<T> {
    values: Vec<T>,
    trail: Vec<Saved<T>>,
}

impl<T> Model for Cells<T> {
    ghost use Rattle.std.specs.Prelude.{length};
    ghost use Rattle.ht_trail.specs.Trails.{CellsState};

    ghost Value = { CellsState T };

    ghost use Rattle.ht_trail.specs.Trails.{IsTrailBelow};

    ghost view = { λ a. record { values = a.values.items; trail = a.trail.items } };

    ghost invariant = { λ a. IsTrailBelow (length a.values.items) a.trail.items };
}

impl<T: Copy> Cells<T> {
    /// `count` cells that hold `value`, with an empty trail.
    ///
    /// # Errors
    /// Out of memory.
    pub fn new(alloc: Global, count: u32, value: T) -> Result<Cells<T>, AllocError>
        ensures { IfOk result
            (λ cells. cells ≡ record { values = replicate count value; trail = [] }) }
    {
        let mut values = Vec::with_capacity(alloc, count as usize)?;
        for _i in 0..count {
            values.push(value)?;
        }
        Ok(Cells {
            values,
            trail: Vec::new(alloc),
        })
    }

    /// Cells that hold these values, with an empty trail, which has room for the first changes.
    ///
    /// # Errors
    /// Out of memory.
    pub fn from_values(alloc: Global, values: Vec<T>) -> Result<Cells<T>, AllocError>
        ensures { IfOk result
            (λ cells. cells ≡ record { values = values.items; trail = [] }) }
    {
        let trail = Vec::with_capacity(alloc, TRAIL_ROOM)?;
        Ok(Cells { values, trail })
    }

    /// How many cells there are.
    pub fn len(&self) -> usize
        ensures { result ≡ length self.now.values }
    {
        self.values.len()
    }

    /// Whether there is no cell.
    pub fn is_empty(&self) -> bool
        ensures { IsTrue result ↔ (self.now.values ≡ []) }
    {
        self.values.is_empty()
    }

    /// What all cells hold.
    pub fn values(&self) -> &[T]
        ensures { result.now ≡ self.now.values }
    {
        &self.values
    }

    /// What cell `i` holds, from 0.
    pub fn get(&self, i: u32) -> T
        requires { i < length self.now.values }
        ensures { (d : T) → result ≡ get_or self.now.values i d }
    {
        self.values[i as usize]
    }

    /// Changes cell `i`, and puts what it held on the trail, also where that is the same.
    ///
    /// # Errors
    /// Out of memory; nothing is changed.
    #[inline(always)]
    pub fn set(&mut self, i: u32, value: T) -> Result<(), AllocError>
        requires { i < length self.old.values }
        ensures values { OnOk result (self.new.values ≡ set self.old.values i value) }
        ensures trail { OnOk result ((d : T) → self.new.trail
            ≡ self.old.trail ++ record { index = i; value = get_or self.old.values i d } ∷ []) }
        ensures count { OnOk result (length self.new.trail ≡ length self.old.trail + 1) }
        ensures later { IsLater self.old self.new }
        ensures err { OnErr result (self.new ≡ self.old) }
    {
        let old = self.values[i as usize];
        self.trail.push(Saved {
            index: i,
            value: old,
        })?;
        self.values[i as usize] = value;
        Ok(())
    }

    /// The present mark.
    pub fn mark(&self) -> Mark
        ensures { result.0 ≡ length self.now.trail }
    {
        Mark(self.trail.len() as u64)
    }

    /// Forgets what the cells held before: no change so far can be taken back.
    pub fn forget(&mut self)
        ensures { self.new ≡ record { values = self.old.values; trail = [] } }
    {
        self.trail.clear();
    }

    /// Takes back the changes made since a mark, the last first. It takes no memory, and writes as many cells as were
    /// changed since.
    pub fn undo(&mut self, mark: Mark)
        requires { mark.0 ≤ length self.old.trail }
        ensures values { self.new.values
            ≡ restored self.old.values (drop mark.0 self.old.trail) }
        ensures trail { self.new.trail ≡ take mark.0 self.old.trail }
        ensures exact { (a : CellsState T) → IsLater a self.old → mark.0 ≡ length a.trail
            → self.new ≡ a }
    {
        while self.trail.len() as u64 > mark.0 {
            if let Some(saved) = self.trail.pop() {
                self.values[saved.index as usize] = saved.value;
            }
        }
    }
}
