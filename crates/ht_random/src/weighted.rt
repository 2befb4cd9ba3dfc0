//! Weighted vectors, in bursts.
ghost use Rattle.std.specs.Prelude.{◌≡◌, ◌≢◌, ◌%◌, ◌+◌, ◌-◌, ◌<◌, ◌^◌, IfOk, OnOk, OnErr, length};
ghost use Rattle.ht_random.specs.Words.{after_words};
ghost use Rattle.ht_random.specs.WeightedVectors.{burst_length, drawn_weights, vector_by, weight_numbered, weighted_vector};

use crate::words::Words;
use std::alloc::{AllocError, Global};
use std::marker::Model;

// How many vectors a burst has.
const BURST_LENGTH: u32 = 200;

// Of 256 words that differ in their lowest byte so many make an input 1.
const WEIGHTS: [u32; 5] = [5, 26, 128, 230, 251];

// The weight of a word.
fn weight(word: u32) -> u32
    ensures { result ≡ weight_numbered (word % 5) }
{
    WEIGHTS[(word % 5) as usize]
}

// Draws the weight of each input.
fn draw_weights(words: &mut Words, weights: &mut [u32])
    ensures weights { weights.new ≡ drawn_weights (length weights.old) words.old }
    ensures after { words.new ≡ after_words (length weights.old) words.old }
{
    for i in 0..weights.len() {
        weights[i] = weight(words.next());
    }
}

// Draws new weights where a burst begins, before the vector of a number.
fn begin_burst(words: &mut Words, weights: &mut [u32], number: u32)
    ensures begins { number % burst_length ≡ 0
        → (weights.new ≡ drawn_weights (length weights.old) words.old)
        × (words.new ≡ after_words (length weights.old) words.old) }
    ensures goes_on { number % burst_length ≢ 0
        → (weights.new ≡ weights.old) × (words.new ≡ words.old) }
{
    if number % BURST_LENGTH == 0 {
        draw_weights(words, weights);
    }
}

// Draws the bits of a vector.
fn draw_vector(words: &mut Words, weights: &[u32], vector: &mut [bool])
    requires { length weights.now ≡ length vector.old }
    ensures vector { vector.new ≡ vector_by weights.now (length vector.old) words.old }
    ensures after { words.new ≡ after_words (length vector.old) words.old }
{
    for i in 0..vector.len() {
        vector[i] = words.next() % 256 < weights[i];
    }
}

/// The weighted vectors of a seed. They come in bursts of 200, and in each burst an input has a weight of its own: a
/// reset that is high half of the time would keep a circuit near its reset state.
#[derive(Drop)]
pub struct WeightedVectors {
    words: Words,
    // for the proof: the words are those of this seed
    seed: u64,
    // how many vectors were drawn
    count: u32,
    // the weight of each input in this burst
    weights: Vec<u32>,
}

impl Model for WeightedVectors {
    ghost use Rattle.ht_random.specs.WeightedOf.{Drawn};

    ghost Value = { Drawn };

    ghost use Rattle.ht_random.specs.WeightedOf.{drawn_of, StandsAtCount};

    ghost view = { drawn_of };

    ghost invariant = { StandsAtCount };
}

impl WeightedVectors {
    /// The vectors of a seed, of `width` bits each, before the first one.
    ///
    /// # Errors
    /// Out of memory.
    pub fn new(alloc: Global, width: u32, seed: u64) -> Result<WeightedVectors, AllocError>
        ensures { IfOk result (λ vectors. vectors
            ≡ record { width = width; seed = seed; count = 0 }) }
    {
        Ok(WeightedVectors {
            words: Words::from_seed(seed),
            seed,
            count: 0,
            weights: vec![in alloc; 0; width as usize]?,
        })
    }

    /// The next vector.
    ///
    /// # Errors
    /// Out of memory; no vector is drawn.
    pub fn next(&mut self, alloc: Global) -> Result<Vec<bool>, AllocError>
        requires { self.old.count + 1 < 2 ^ 32 }
        ensures vector { IfOk result (λ vector. vector.items
            ≡ weighted_vector self.old.width self.old.count self.old.seed) }
        ensures after { OnOk result (self.new ≡ record self.old { count = self.old.count + 1 }) }
        ensures err { OnErr result (self.new ≡ self.old) }
    {
        let mut vector = vec![in alloc; false; self.weights.len()]?;
        begin_burst(&mut self.words, &mut self.weights, self.count);
        draw_vector(&mut self.words, &self.weights, &mut vector);
        self.count += 1;
        Ok(vector)
    }
}
