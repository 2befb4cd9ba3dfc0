//! Bursts that are kept, since they detected something.
use crate::chance::below;
use ht_net::Vectors;
use ht_random::Words;
use std::alloc::{AllocError, Global};

// So many are kept, and of these so many of the last whatever they detected.
const MAX_KEPT: usize = 128;

const YOUNG: usize = 16;

// A burst, and how many faults it detected.
#[derive(Drop)]
struct Kept {
    vectors: Vectors,
    gain: usize,
}

/// The vectors of kept bursts, the oldest first.
#[derive(Drop)]
pub struct KeptBursts {
    bursts: Vec<Kept>,
}

impl KeptBursts {
    /// None.
    pub fn new(alloc: Global) -> KeptBursts {
        KeptBursts {
            bursts: Vec::new(alloc),
        }
    }

    /// Whether there is none.
    pub fn is_empty(&self) -> bool {
        self.bursts.is_empty()
    }

    /// How many vectors a burst has.
    pub fn len_of(&self, burst: usize) -> usize {
        match self.bursts.get(burst) {
            Some(kept) => kept.vectors.len() as usize,
            None => 0,
        }
    }

    /// One vector of a burst.
    pub fn vector(&self, burst: usize, t: usize) -> &[bool] {
        match self.bursts.get(burst) {
            Some(kept) => vector_at(&kept.vectors, t as u64),
            None => &[],
        }
    }

    // How many faults a burst detected.
    fn gain(&self, burst: usize) -> usize {
        match self.bursts.get(burst) {
            Some(kept) => kept.gain,
            None => 0,
        }
    }

    /// A burst that is drawn.
    pub fn draw(&self, words: &mut Words) -> usize {
        below(words, self.bursts.len())
    }

    /// The first of two bursts that are drawn, or, half of the time, the one with more gain.
    pub fn draw_good(&self, words: &mut Words) -> usize {
        let first = self.draw(words);
        let second = self.draw(words);
        if below(words, 2) == 0 && self.gain(second) > self.gain(first) {
            second
        } else {
            first
        }
    }

    // The burst of least gain among all but the last, of equals the oldest.
    fn worst(&self) -> usize {
        let mut worst = 0;
        for i in 0..self.bursts.len().saturating_sub(YOUNG) {
            if self.gain(i) < self.gain(worst) {
                worst = i;
            }
        }
        worst
    }

    /// Keeps one more burst. Where there are too many, the worst leaves.
    ///
    /// # Errors
    /// Out of memory.
    pub fn keep(&mut self, vectors: Vectors, gain: usize) -> Result<(), AllocError> {
        self.bursts.push(Kept { vectors, gain })?;
        if self.bursts.len() > MAX_KEPT {
            let worst = self.worst();
            if worst < self.bursts.len() {
                self.bursts.remove(worst);
            }
        }
        Ok(())
    }
}

// Vector t of a list, from 0, with no bits where there is none.
fn vector_at(vectors: &Vectors, t: u64) -> &[bool] {
    if t < vectors.len() {
        vectors.get(t)
    } else {
        &[]
    }
}
