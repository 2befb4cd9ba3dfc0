//! 64 candidate bursts, a lane each.
ghost use Rattle.std.specs.Prelude.{◌≡◌, IfOk, length};
ghost use Rattle.ht_breed.specs.Bursts.{IsBurst};

use crate::counter::lane_set;
use ht_net::Vectors;
use std::alloc::{AllocError, Global};

/// For each frame, and there for each input, the lanes that have a 1.
#[derive(Drop)]
pub struct Candidates {
    pub alloc: Global,
    pub inputs: usize,
    pub rows: Vec<Vec<u64>>,
}

impl Candidates {
    /// Bursts of so many vectors of zeros.
    ///
    /// # Errors
    /// Out of memory.
    pub fn zeros(alloc: Global, inputs: usize, frames: usize) -> Result<Candidates, AllocError> {
        let mut rows = Vec::new(alloc);
        for _ in 0..frames {
            rows.push(vec![in alloc; 0; inputs]?)?;
        }
        Ok(Candidates {
            alloc,
            inputs,
            rows,
        })
    }

    /// How many vectors each has.
    pub fn frames(&self) -> usize {
        self.rows.len()
    }

    /// The lanes that have a 1 in a frame, by input.
    pub fn row(&self, frame: usize) -> &[u64] {
        match self.rows.get(frame) {
            Some(row) => row,
            None => &[],
        }
    }

    /// Writes a bit into a set of lanes.
    pub fn write(&mut self, frame: usize, input: usize, lanes: u64, bit: bool) {
        if let Some(row) = self.rows.get_mut(frame)
            && let Some(word) = row.get_mut(input)
        {
            if bit {
                *word |= lanes;
            } else {
                *word &= !lanes;
            }
        }
    }

    /// Flips a bit in a set of lanes.
    pub fn flip(&mut self, frame: usize, input: usize, lanes: u64) {
        if let Some(row) = self.rows.get_mut(frame)
            && let Some(word) = row.get_mut(input)
        {
            *word ^= lanes;
        }
    }

    /// Holds an input from a frame on, up to another.
    pub fn hold(&mut self, input: usize, from: usize, to: usize, lanes: u64, bit: bool) {
        for frame in from..to {
            self.write(frame, input, lanes, bit);
        }
    }

    /// The first vectors of a lane, at most so many, each of so many bits.
    ///
    /// # Errors
    /// Out of memory.
    pub fn burst(
        &self,
        alloc: Global,
        width: u32,
        most: u32,
        lane: u32,
    ) -> Result<Vectors, AllocError>
        ensures { IfOk result (IsBurst width most) }
    {
        let mut burst = Vectors::new(alloc, width);
        for frame in 0..self.rows.len().min(most as usize) {
            let vector = vector_of(alloc, self.row(frame), width, lane_set(lane))?;
            burst.push(&vector)?;
        }
        Ok(burst)
    }
}

// The vector of a lane, of so many bits.
fn vector_of(alloc: Global, row: &[u64], width: u32, lane: u64) -> Result<Vec<bool>, AllocError>
    ensures { IfOk result (λ vector. length vector.items ≡ width) }
{
    let mut vector = Vec::with_capacity(alloc, width as usize)?;
    for input in 0..width {
        let word = match row.get(input as usize) {
            Some(word) => *word,
            None => 0,
        };
        vector.push(word & lane != 0)?;
    }
    Ok(vector)
}
