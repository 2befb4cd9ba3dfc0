//! A set of numbers below a bound, in words of 64 bits.
ghost use Rattle.std.specs.Prelude.{◌≡◌, ◌<◌, ◌≤◌, ◌*◌, ◌^◌, ℕ, true, false, length, get_or, replicate, set, All, IfOk, IfSome, IfNone};
ghost use Rattle.std.specs.List.{Contains};
ghost use Rattle.ht_items.specs.BitSets.{IsFirstMark, is_marked};

use crate::bits::{has_bit, with_bit};
use std::alloc::{AllocError, Global};
use std::marker::Model;

/// A set of numbers below a bound. Contracts see it as a mark for each of these numbers.
#[derive(Drop)]
pub struct BitSet {
    words: Vec<u64>,
    bound: u32,
}

impl Model for BitSet {
    ghost use Rattle.std.specs.Prelude.{List, Bool};
    ghost use Rattle.ht_items.specs.BitSets.{IsBitSet, marks_of};

    ghost Value = { List Bool };

    ghost view = { λ a. marks_of a.bound a.words.items };

    ghost invariant = { IsBitSet };
}

// The first number that is marked in the words from `at` on.
fn next_word_mark(words: &[u64], at: usize) -> Option<usize>
    requires { length words.now < 2 ^ 32 }
    ensures found { IfSome result (λ i. IsFirstMark words.now (64 * at) i) }
    ensures none { IfNone result ((q : ℕ) → 64 * at ≤ q → q < 64 * length words.now
        → is_marked words.now q ≡ false) }
{
    for w in at..words.len() {
        let word = words[w];
        if word != 0 {
            return Some(64 * w + word.trailing_zeros() as usize);
        }
    }
    None
}

// The first number that is marked, from `from` on.
fn next_mark(words: &[u64], from: usize) -> Option<usize>
    requires few { length words.now < 2 ^ 32 }
    requires inside { from < 64 * length words.now }
    ensures found { IfSome result (λ i. IsFirstMark words.now from i) }
    ensures none { IfNone result ((q : ℕ) → from ≤ q → q < 64 * length words.now
        → is_marked words.now q ≡ false) }
{
    let at = from / 64;
    let rest = words[at] >> (from % 64);
    if rest != 0 {
        return Some(from + rest.trailing_zeros() as usize);
    }
    next_word_mark(words, at + 1)
}

impl BitSet {
    /// No numbers, of those below a bound.
    ///
    /// # Errors
    /// Out of memory.
    pub fn new(alloc: Global, bound: u32) -> Result<BitSet, AllocError>
        ensures { IfOk result (λ empty. empty ≡ replicate bound false) }
    {
        let words = (bound as usize + 63) / 64;
        Ok(BitSet {
            words: vec![in alloc; 0; words]?,
            bound,
        })
    }

    // Marks a number, or doesn't.
    fn write(&mut self, i: u32, mark: bool)
        requires { i < length self.old }
        ensures { self.new ≡ set self.old i mark }
    {
        let w = (i / 64) as usize;
        self.words[w] = with_bit(self.words[w], i % 64, mark);
    }

    /// Whether a number is in the set.
    pub fn contains(&self, i: u32) -> bool
        requires { i < length self.now }
        ensures { result ≡ get_or self.now i false }
    {
        has_bit(self.words[(i / 64) as usize], i % 64)
    }

    /// Adds a number.
    pub fn insert(&mut self, i: u32)
        requires { i < length self.old }
        ensures { self.new ≡ set self.old i true }
    {
        self.write(i, true);
    }

    /// Adds numbers.
    pub fn insert_all(&mut self, numbers: &[u32])
        requires { All (λ i. i < length self.old) numbers.now }
        ensures count { length self.new ≡ length self.old }
        ensures all { (i : ℕ) → Contains numbers.now i → get_or self.new i false ≡ true }
        ensures more { (i : ℕ) → get_or self.old i false ≡ true
            → get_or self.new i false ≡ true }
        ensures rest { (i : ℕ) → ¬ Contains numbers.now i
            → get_or self.new i false ≡ get_or self.old i false }
    {
        for number in numbers {
            self.insert(*number);
        }
    }

    /// Takes a number away.
    pub fn remove(&mut self, i: u32)
        requires { i < length self.old }
        ensures { self.new ≡ set self.old i false }
    {
        self.write(i, false);
    }

    /// Takes all numbers away.
    pub fn clear(&mut self)
        ensures { self.new ≡ replicate (length self.old) false }
    {
        self.words.fill(0);
    }

    /// The least number of the set that isn't below `from`.
    pub fn next(&self, from: u32) -> Option<u32>
        ensures from { IfSome result (λ i. from ≤ i) }
        ensures within { IfSome result (λ i. i < length self.now) }
        ensures marked { IfSome result (λ i. get_or self.now i false ≡ true) }
        ensures least { IfSome result
            (λ i. (q : ℕ) → from ≤ q → q < i → get_or self.now q false ≡ false) }
        ensures none { IfNone result ((q : ℕ) → from ≤ q → get_or self.now q false ≡ false) }
    {
        if from >= self.bound {
            return None;
        }
        match next_mark(&self.words, from as usize) {
            Some(i) => Some(i as u32),
            None => None,
        }
    }
}
