//! Segments of vectors that were applied, which are kept where they detected something.
ghost use Rattle.std.specs.Prelude.{◌≡◌};

use crate::kept::KeptBursts;
use ht_net::Vectors;
use std::alloc::{AllocError, Global};

// So many vectors make a segment; the last one of a list may have fewer.
const SEGMENT: u64 = 32;

/// A fault by its number, and the vector of a list, from 0, at which it is detected first.
#[derive(Clone, Copy)]
pub struct Detected {
    pub fault: u32,
    pub vector: u64,
}

// How many faults each segment of so many vectors detected.
fn gains(alloc: Global, vectors: u64, detected: &[Detected]) -> Result<Vec<usize>, AllocError> {
    let mut gains = vec![in alloc; 0usize; vectors.div_ceil(SEGMENT) as usize]?;
    for one in detected {
        if let Some(gain) = gains.get_mut((one.vector / SEGMENT) as usize) {
            *gain = gain.saturating_add(1);
        }
    }
    Ok(gains)
}

// The segment that begins with vector `begin`, from 0.
fn segment(alloc: Global, width: u32, vectors: &Vectors, begin: u64) -> Result<Vectors, AllocError>
    requires { vectors.now.width ≡ width }
{
    let mut segment = Vectors::new(alloc, width);
    for t in begin..begin.saturating_add(SEGMENT).min(vectors.len()) {
        segment.push(vectors.get(t))?;
    }
    Ok(segment)
}

impl KeptBursts {
    /// Keeps the segments of some vectors that detected something, the first one first.
    ///
    /// # Errors
    /// Out of memory.
    pub fn keep_segments(
        &mut self,
        alloc: Global,
        width: u32,
        vectors: &Vectors,
        detected: &[Detected],
    ) -> Result<(), AllocError>
        requires { vectors.now.width ≡ width }
    {
        let mut begin: u64 = 0;
        for gain in gains(alloc, vectors.len(), detected)? {
            if gain > 0 {
                self.keep(segment(alloc, width, vectors, begin)?, gain)?;
            }
            begin = begin.saturating_add(SEGMENT);
        }
        Ok(())
    }
}
