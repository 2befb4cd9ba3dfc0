//! What bursts promise of faults, and how often it was false.
use crate::paths::Paths;
use crate::segments::Detected;
use std::alloc::{AllocError, Global};

// A fault is looked at while its false hopes are fewer, and that it is stored counts while these are.
const MAX_HOPES: u32 = 4;

const MAX_STORES: u32 = 12;

/// What a candidate promises of a fault: that it shows at an output, or that it comes to a flip-flop.
#[derive(Clone, Copy)]
pub struct Promise {
    hoped: bool,
    stored: bool,
}

/// What one lane promises of each fault that is looked at.
///
/// # Errors
/// Out of memory.
pub fn promises(alloc: Global, found: &[Paths], lane: u64) -> Result<Vec<Promise>, AllocError> {
    let mut promises = Vec::new(alloc);
    for paths in found {
        promises.push(Promise {
            hoped: paths.output & lane != 0,
            stored: paths.end & lane != 0,
        })?;
    }
    Ok(promises)
}

// How often a fault was hoped for, and stored, and then not detected.
#[derive(Clone, Copy)]
struct FalseHope {
    hoped: u32,
    stored: u32,
}

impl FalseHope {
    const NONE: FalseHope = FalseHope {
        hoped: 0,
        stored: 0,
    };
}

/// The faults, what is known of them, and the false hopes of each.
#[derive(Drop)]
pub struct Hopes {
    counts: Vec<FalseHope>,
    detected: Vec<bool>,
}

impl Hopes {
    /// Of so many faults, none detected.
    ///
    /// # Errors
    /// Out of memory.
    pub fn new(alloc: Global, faults: usize) -> Result<Hopes, AllocError> {
        Ok(Hopes {
            counts: vec![in alloc; FalseHope::NONE; faults]?,
            detected: vec![in alloc; false; faults]?,
        })
    }

    // The false hopes of a fault.
    fn count(&self, fault: u32) -> FalseHope {
        match self.counts.get(fault as usize) {
            Some(count) => *count,
            None => FalseHope::NONE,
        }
    }

    // Whether a fault is detected.
    fn is_detected(&self, fault: u32) -> bool {
        match self.detected.get(fault as usize) {
            Some(detected) => *detected,
            None => false,
        }
    }

    /// Whether it counts that a fault is stored.
    pub fn counts_stored(&self, fault: u32) -> bool {
        self.count(fault).stored < MAX_STORES
    }

    /// The faults to look at, rising: those that aren't detected and weren't hoped for too often.
    ///
    /// # Errors
    /// Out of memory.
    pub fn looked_at(&self, alloc: Global) -> Result<Vec<u32>, AllocError> {
        let mut looked = Vec::new(alloc);
        let mut fault: u32 = 0;
        for count in &self.counts {
            if count.hoped < MAX_HOPES && !self.is_detected(fault) {
                looked.push(fault)?;
            }
            fault = fault.saturating_add(1);
        }
        Ok(looked)
    }

    /// Notes that a fault is detected, or is to be left out as if it were.
    pub fn leave_out(&mut self, fault: u32) {
        if let Some(detected) = self.detected.get_mut(fault as usize) {
            *detected = true;
        }
    }

    /// Notes that these faults are detected.
    pub fn detect(&mut self, faults: &[Detected]) {
        for one in faults {
            self.leave_out(one.fault);
        }
    }

    /// Counts what was promised of the faults that were looked at, and isn't detected.
    pub fn note(&mut self, looked: &[u32], promises: &[Promise]) {
        for (i, fault) in looked.iter().enumerate() {
            if !self.is_detected(*fault)
                && let Some(promise) = promises.get(i)
                && let Some(count) = self.counts.get_mut(*fault as usize)
            {
                add_promise(count, *promise);
            }
        }
    }

    /// Forgets all false hopes.
    pub fn forget(&mut self) {
        self.counts.fill(FalseHope::NONE);
    }
}

// Counts a promise that was false.
fn add_promise(count: &mut FalseHope, promise: Promise) {
    if promise.hoped {
        count.hoped = count.hoped.saturating_add(1);
    } else if promise.stored {
        count.stored = count.stored.saturating_add(1);
    }
}
