//! The generator of random words.
ghost use Rattle.std.specs.Prelude.{◌≡◌, ◌%◌, ◌==◌, IfOk, OnOk, OnErr};
ghost use Rattle.ht_random.specs.Words.{generator_of, next_word, after_word, after_words};
ghost use Rattle.ht_random.specs.RandomVectors.{is_odd, random_vector};

use rand_core::SeedableRng;
use rand_core::utils::NextWord;
use rand_pcg::Pcg32;
use std::alloc::{AllocError, Global};
use std::marker::Model;

/// A generator of random words: PCG32 of the crate `rand_pcg`. The same seed gives the same words.
#[derive(Drop)]
pub struct Words {
    generator: Pcg32,
}

impl Model for Words {
    ghost use Rattle.rand_pcg.specs.Lcg.{Lcg};

    ghost Value = { Lcg };

    ghost view = { λ a. a.generator };
}

impl Words {
    /// The generator of a seed.
    #[tactic(auto, unfolding(crate::specs::Words::generator_of))]
    pub fn from_seed(seed: u64) -> Words
        ensures { result ≡ generator_of seed }
    {
        Words {
            generator: Pcg32::seed_from_u64(seed),
        }
    }

    /// The next word.
    pub fn next(&mut self) -> u32
        ensures word { result ≡ next_word self.old }
        ensures after { self.new ≡ after_word self.old }
    {
        self.generator.next_word()
    }

    /// The next vector of `width` bits, for which one word is taken for each bit in order.
    ///
    /// # Errors
    /// Out of memory; no word is taken.
    pub fn vector(&mut self, alloc: Global, width: u32) -> Result<Vec<bool>, AllocError>
        ensures vector { IfOk result (λ vector. vector.items ≡ random_vector width self.old) }
        ensures after { OnOk result (self.new ≡ after_words width self.old) }
        ensures err { OnErr result (self.new ≡ self.old) }
    {
        let mut vector = Vec::with_capacity(alloc, width as usize)?;
        for _bit in 0..width {
            vector.push(is_odd(self.next()))?;
        }
        Ok(vector)
    }
}

// The bit of a word.
fn is_odd(word: u32) -> bool
    ensures { result ≡ is_odd word }
{
    word % 2 == 1
}
