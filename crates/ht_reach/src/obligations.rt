//! Cubes that are still to be blocked (Een, Mishchenko and Brayton 2011, Efficient Implementation of Property Directed
//! Reachability).
use crate::cube::Cube;
use crate::predecessor::Predecessor;
use std::alloc::{AllocError, Global};

// A cube with the vector that leads from it to the cube of its parent, or to a difference where it has none.
#[derive(Drop)]
struct Obligation {
    from: Predecessor,
    parent: Option<usize>,
}

/// An obligation, by its number from 0, is to be blocked in a frame.
#[derive(Clone, Copy)]
pub struct Task {
    pub frame: usize,
    pub obligation: usize,
}

impl Task {
    fn is_before(self, other: Task) -> bool {
        self.frame < other.frame
            || (self.frame == other.frame && self.obligation < other.obligation)
    }
}

/// The obligations in the order in which they came, and what is to be blocked where.
#[derive(Drop)]
pub struct Obligations {
    alloc: Global,
    obligations: Vec<Obligation>,
    waiting: Vec<Task>,
}

impl Obligations {
    /// No obligation.
    pub fn new(alloc: Global) -> Obligations {
        Obligations {
            alloc,
            obligations: Vec::new(alloc),
            waiting: Vec::new(alloc),
        }
    }

    /// Adds an obligation; its number.
    ///
    /// # Errors
    /// Out of memory.
    pub fn add(&mut self, from: Predecessor, parent: Option<usize>) -> Result<usize, AllocError> {
        let number = self.obligations.len();
        self.obligations.push(Obligation { from, parent })?;
        Ok(number)
    }

    /// An obligation is to be blocked in a frame.
    ///
    /// # Errors
    /// Out of memory.
    pub fn put(&mut self, frame: usize, obligation: usize) -> Result<(), AllocError> {
        self.waiting.push(Task { frame, obligation })?;
        Ok(())
    }

    // Where the task of the lowest frame waits, of these that of the oldest obligation.
    fn first(&self) -> Option<usize> {
        let mut best = 0;
        let mut least = *self.waiting.first()?;
        for at in 0..self.waiting.len() {
            let task = self.waiting[at];
            if task.is_before(least) {
                best = at;
                least = task;
            }
        }
        Some(best)
    }

    /// Takes the task of the lowest frame, of these that of the oldest obligation: the newest first leaves faults open
    /// that this order decides at once.
    pub fn take(&mut self) -> Option<Task> {
        let at = self.first()?;
        if at < self.waiting.len() {
            Some(self.waiting.swap_remove(at))
        } else {
            None
        }
    }

    /// The cube of an obligation.
    pub fn cube(&self, obligation: usize) -> Option<&Cube> {
        match self.obligations.get(obligation) {
            Some(obligation) => Some(&obligation.from.cube),
            None => None,
        }
    }

    /// The vectors from the cube of an obligation to a difference, in order.
    ///
    /// # Errors
    /// Out of memory.
    pub fn vectors(&self, obligation: usize) -> Result<Vec<Vec<bool>>, AllocError> {
        let mut vectors = Vec::new(self.alloc);
        let mut at = Some(obligation);
        // a parent is older than its child
        for _ in 0..self.obligations.len() {
            let Some(number) = at else {
                break;
            };
            let Some(obligation) = self.obligations.get(number) else {
                break;
            };
            vectors.push(Vec::from_slice(self.alloc, &obligation.from.vector)?)?;
            at = obligation.parent;
        }
        Ok(vectors)
    }
}
