//! The faults that were lost in the latest trials.

use std::alloc::{AllocError, Global};

/// How many faults are kept.
const MAX_RECENT: usize = 32;

/// Faults that were lost when vectors were left out, by their places among the wanted ones: the latest is the last.
#[derive(Drop)]
pub struct Recent {
    places: Vec<usize>,
}

impl Recent {
    /// None yet.
    pub fn new(alloc: Global) -> Recent {
        Recent {
            places: Vec::new(alloc),
        }
    }

    /// The faults, the latest last.
    pub fn places(&self) -> &[usize] {
        self.places.as_slice()
    }

    /// One more, which is the latest now.
    ///
    /// # Errors
    ///
    /// `AllocError`: out of memory.
    pub fn note(&mut self, place: usize) -> Result<(), AllocError> {
        self.places.retain(|other| *other != place);
        if self.places.len() >= MAX_RECENT {
            self.places.remove(0);
        }
        self.places.push(place)?;
        Ok(())
    }
}
