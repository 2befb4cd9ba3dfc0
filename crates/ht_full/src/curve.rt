//! How detections rose in a chunk of bred vectors.
use ht_order::Rate;
use std::alloc::{AllocError, Global};

// What was detected with so much work.
#[derive(Clone, Copy)]
struct Point {
    work: u64,
    detected: u32,
}

/// What was detected after each burst.
#[derive(Drop)]
pub struct Curve {
    points: Vec<Point>,
}

impl Curve {
    /// Before any burst.
    pub fn new(alloc: Global) -> Curve {
        Curve {
            points: Vec::new(alloc),
        }
    }

    /// Adds what was detected so far with all work so far.
    ///
    /// # Errors
    /// Out of memory.
    pub fn add(&mut self, work: u64, detected: u32) -> Result<(), AllocError> {
        self.points.push(Point { work, detected })?;
        Ok(())
    }

    /// What the last quarter of the work brought; nothing where no burst ended before it.
    pub fn late(&self) -> Rate {
        let none = Rate {
            classes: 0,
            work: 0,
        };
        let Some(last) = self.points.last() else {
            return none;
        };
        let early = last.work - last.work / 4;
        match self.points.iter().rev().find(|point| point.work <= early) {
            Some(point) => Rate {
                classes: last.detected.saturating_sub(point.detected),
                work: last.work.saturating_sub(point.work),
            },
            None => none,
        }
    }
}
