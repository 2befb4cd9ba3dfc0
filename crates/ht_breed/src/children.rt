//! The next generation of candidates.
use crate::candidates::Candidates;
use crate::chance::{below, is_below, one_of};
use crate::counter::lane_set;
use crate::kept::KeptBursts;
use ht_random::Words;
use std::alloc::{AllocError, Global};

// Of 256 words so many flip a bit of a vector that is changed.
const VECTOR_RATES: [u32; 3] = [8, 32, 128];

// So many of the best go on unchanged, and so many are fresh.
const BEST: u32 = 4;

const FRESH: u32 = 4;

// What a child has of its parents, which are lanes: the first one's bits before input or frame `split`, the second one's
// from there on.
#[derive(Clone, Copy)]
struct Parents {
    first: u32,
    second: u32,
    by_input: bool,
    split: usize,
}

impl Candidates {
    /// Puts the next generation in the place of this one, by the lanes in their order, the best first.
    ///
    /// # Errors
    /// Out of memory.
    pub fn breed(
        &mut self,
        order: &[u32],
        words: &mut Words,
        kept: &KeptBursts,
    ) -> Result<(), AllocError> {
        let parents = self.all_parents(order, words)?;
        self.inherit(&parents)?;
        for lane in BEST..64 {
            self.vary(lane, words, kept);
        }
        Ok(())
    }

    // Changes a child, or begins it anew where it is one of the last.
    fn vary(&mut self, lane: u32, words: &mut Words, kept: &KeptBursts) {
        if lane < 64 - FRESH {
            self.change(lane_set(lane), words, kept);
        } else {
            self.renew(lane, words, kept);
        }
    }

    // The parents of all children, a lane each.
    fn all_parents(&self, order: &[u32], words: &mut Words) -> Result<Vec<Parents>, AllocError> {
        let mut parents = Vec::new(self.alloc);
        for lane in 0..64 {
            parents.push(self.parents(lane, order, words))?;
        }
        Ok(parents)
    }

    // The parents of a child: the best ones are their own, of the others both are drawn.
    fn parents(&self, lane: u32, order: &[u32], words: &mut Words) -> Parents {
        if lane < BEST {
            let parent = lane_at(order, lane as usize);
            return Parents {
                first: parent,
                second: parent,
                by_input: false,
                split: 0,
            };
        }
        let first = pick(order, words);
        let second = if below(words, 2) == 0 {
            first
        } else {
            pick(order, words)
        };
        let by_input = below(words, 4) == 3;
        let count = if by_input {
            self.inputs
        } else {
            self.rows.len()
        };
        Parents {
            first,
            second,
            by_input,
            split: below(words, count),
        }
    }

    // Gives each lane what its parents leave it.
    fn inherit(&mut self, parents: &[Parents]) -> Result<(), AllocError> {
        let mut rows = Vec::new(self.alloc);
        for frame in 0..self.rows.len() {
            rows.push(inherited_row(self.alloc, self.row(frame), parents, frame)?)?;
        }
        self.rows = rows;
        Ok(())
    }

    // Changes a child.
    fn change(&mut self, lanes: u64, words: &mut Words, kept: &KeptBursts) {
        match below(words, 4) {
            0 => self.flip_some(lanes, words),
            1 => self.hold_some(lanes, words),
            2 => self.flip_vector(lanes, words),
            _ => self.copy_vector(lanes, words, kept),
        }
    }

    // Flips 1 to 8 bits.
    fn flip_some(&mut self, lanes: u64, words: &mut Words) {
        let all = self.inputs.saturating_mul(self.rows.len());
        for _ in 0..below(words, 8).saturating_add(1) {
            let bit = below(words, all);
            if self.inputs > 0 {
                self.flip(bit / self.inputs, bit % self.inputs, lanes);
            }
        }
    }

    // Holds 1 or 2 inputs over some frames.
    fn hold_some(&mut self, lanes: u64, words: &mut Words) {
        for _ in 0..below(words, 2).saturating_add(1) {
            let frames = self.rows.len();
            let input = below(words, self.inputs);
            let from = below(words, frames);
            let length = below(words, frames).saturating_add(1);
            let to = from.saturating_add(length).min(frames);
            let bit = below(words, 2) == 0;
            self.hold(input, from, to, lanes, bit);
        }
    }

    // Flips some bits of one vector.
    fn flip_vector(&mut self, lanes: u64, words: &mut Words) {
        let frame = below(words, self.rows.len());
        let rate = one_of(words, &VECTOR_RATES);
        for input in 0..self.inputs {
            if is_below(words, rate) {
                self.flip(frame, input, lanes);
            }
        }
    }

    // Makes one vector that of a kept burst.
    fn copy_vector(&mut self, lanes: u64, words: &mut Words, kept: &KeptBursts) {
        if kept.is_empty() {
            return;
        }
        let frame = below(words, self.rows.len());
        let burst = kept.draw(words);
        let t = below(words, kept.len_of(burst));
        for (input, bit) in kept.vector(burst, t).iter().enumerate() {
            self.write(frame, input, lanes, *bit);
        }
    }
}

// The lane at a rank, from 0.
fn lane_at(order: &[u32], rank: usize) -> u32 {
    match order.get(rank) {
        Some(lane) => *lane,
        None => 0,
    }
}

// The best of three lanes that are drawn.
fn pick(order: &[u32], words: &mut Words) -> u32 {
    let first = below(words, 64);
    let second = below(words, 64);
    let third = below(words, 64);
    lane_at(order, first.min(second).min(third))
}

// A frame of the children.
fn inherited_row(
    alloc: Global,
    row: &[u64],
    parents: &[Parents],
    frame: usize,
) -> Result<Vec<u64>, AllocError> {
    let mut children = Vec::with_capacity(alloc, row.len())?;
    for (input, word) in row.iter().enumerate() {
        children.push(inherited(*word, parents, frame, input))?;
    }
    Ok(children)
}

// A word of the children, of whom there are 64: the first one's bit comes first, and ends as the lowest.
fn inherited(word: u64, parents: &[Parents], frame: usize, input: usize) -> u64 {
    let mut child: u64 = 0;
    for parents in parents {
        let at = if parents.by_input { input } else { frame };
        let parent = if at >= parents.split {
            parents.second
        } else {
            parents.first
        };
        child = (child >> 1) | (word.wrapping_shr(parent) << 63);
    }
    child
}
