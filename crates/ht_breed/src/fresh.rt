//! Fresh candidates: weighted bursts, and bursts of kept vectors.
use crate::candidates::Candidates;
use crate::chance::{below, is_below, one_of};
use crate::counter::lane_set;
use crate::kept::KeptBursts;
use ht_random::Words;
use std::alloc::{AllocError, Global};

// The weight of an input: of 256 words that differ in their lowest byte so many make it 1. How many frames it holds a bit.
const WEIGHTS: [u32; 7] = [0, 5, 26, 128, 230, 251, 256];

const HOLDS: [u32; 5] = [1, 1, 2, 4, 8];

// Of 256 words so many flip a bit of a vector that comes from a kept burst.
const RATES: [u32; 4] = [0, 2, 8, 24];

impl Candidates {
    /// 64 fresh bursts of so many vectors.
    ///
    /// # Errors
    /// Out of memory.
    pub fn fresh(
        alloc: Global,
        inputs: usize,
        frames: usize,
        words: &mut Words,
        kept: &KeptBursts,
    ) -> Result<Candidates, AllocError> {
        let mut all = Candidates::zeros(alloc, inputs, frames)?;
        for lane in 0..64 {
            all.renew(lane, words, kept);
        }
        Ok(all)
    }

    /// Puts a fresh burst into a lane.
    pub fn renew(&mut self, lane: u32, words: &mut Words, kept: &KeptBursts) {
        let kind = if kept.is_empty() { 0 } else { below(words, 4) };
        if kind == 0 {
            self.renew_weighted(lane_set(lane), words);
        } else {
            self.renew_from_kept(lane_set(lane), kind, words, kept);
        }
    }

    // A burst in which each input has a weight, and holds its bits.
    fn renew_weighted(&mut self, lanes: u64, words: &mut Words) {
        for input in 0..self.inputs {
            let weight = one_of(words, &WEIGHTS);
            let hold = one_of(words, &HOLDS);
            self.renew_input(input, weight, hold, lanes, words);
        }
    }

    // The bits of one input of such a burst.
    fn renew_input(&mut self, input: usize, weight: u32, hold: u32, lanes: u64, words: &mut Words) {
        let mut left = 0;
        let mut bit = false;
        for frame in 0..self.rows.len() {
            if left == 0 {
                bit = is_below(words, weight);
                left = hold;
            }
            if left > 0 {
                left -= 1;
            }
            self.write(frame, input, lanes, bit);
        }
    }

    // A burst of rows of kept bursts, which are drawn anew for each vector (kind 1), where a burst is at its end, and now
    // and then (kind 3).
    fn renew_from_kept(&mut self, lanes: u64, kind: usize, words: &mut Words, kept: &KeptBursts) {
        let rate = one_of(words, &RATES);
        let mut burst = 0;
        let mut t: usize = 0;
        for frame in 0..self.rows.len() {
            if frame == 0
                || kind == 1
                || t >= kept.len_of(burst)
                || (kind == 3 && below(words, 8) == 0)
            {
                burst = kept.draw_good(words);
                t = below(words, kept.len_of(burst));
            }
            self.copy_flipped(frame, kept.vector(burst, t), rate, lanes, words);
            t = t.saturating_add(1);
        }
    }

    // Writes a vector, of which so many bits of 256 are flipped.
    fn copy_flipped(
        &mut self,
        frame: usize,
        vector: &[bool],
        rate: u32,
        lanes: u64,
        words: &mut Words,
    ) {
        for input in 0..self.inputs {
            let flips = rate > 0 && is_below(words, rate);
            let bit = match vector.get(input) {
                Some(bit) => *bit,
                None => false,
            };
            self.write(frame, input, lanes, bit != flips);
        }
    }
}
