//! Cubes of faults that were refuted.
use ht_cubes::{Cube, Rail, Rails};
use ht_items::Items;
use ht_rails::candidate;
use ht_reach::Cube as Candidate;
use std::alloc::{AllocError, Global};

// A pool takes no more.
const MAX_POOL_CUBES: usize = 4096;

/// Cubes that refuted faults of one circuit: later ones are tried with them first. A cube of the good machine alone
/// that never comes about for one fault never does for another.
#[derive(Drop)]
pub struct Pool {
    alloc: Global,
    cubes: Vec<Cube>,
}

impl Pool {
    /// A pool with no cubes.
    pub fn new(alloc: Global) -> Pool {
        Pool {
            alloc,
            cubes: Vec::new(alloc),
        }
    }

    fn has(&self, cube: &[Rail]) -> bool {
        self.cubes.iter().any(|own| own.as_slice() == cube)
    }

    /// Adds cubes that the pool hasn't yet, as long as there is room.
    ///
    /// # Errors
    /// Out of memory; some of the cubes may be there.
    pub fn add(&mut self, cubes: &[Cube]) -> Result<(), AllocError> {
        for cube in cubes {
            if self.cubes.len() < MAX_POOL_CUBES && !self.has(cube.as_slice()) {
                let copy = Items::from_slice(self.alloc, cube.as_slice())?;
                self.cubes.push(copy)?;
            }
        }
        Ok(())
    }

    /// The newest cubes, so many at most, by the variables of a fault's rails.
    ///
    /// # Errors
    /// Out of memory.
    pub fn candidates(&self, rails: &Rails<'_>, most: usize) -> Result<Vec<Candidate>, AllocError> {
        let mut candidates = Vec::new(self.alloc);
        let older = self.cubes.len().saturating_sub(most);
        for cube in self.cubes.iter().skip(older) {
            candidates.push(candidate(self.alloc, rails, cube.as_slice())?)?;
        }
        Ok(candidates)
    }
}
