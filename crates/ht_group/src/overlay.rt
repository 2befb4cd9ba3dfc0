//! Words that lie over values of the good machine.
ghost use Rattle.std.specs.Prelude.{◌≡◌, ◌<◌, ◌^◌, ℕ, false, length, get_or, set, IfOk};
ghost use Rattle.ht_group.specs.LaneRules.{in_lane};
ghost use Rattle.ht_group.specs.Overlays.{IsGoodWord, IsSpread, OverlayView};

use ht_items::BitSet;
use ht_lanes::Word;
use ht_tern::Tern;
use std::alloc::{AllocError, Global};
use std::marker::Model;

/// Values of the good machine, and for each a word, which has the value in every lane until it is written.
#[derive(Drop)]
pub struct Overlay {
    good: Vec<Tern>,
    words: Vec<Word>,
    // the words that were written
    written: BitSet,
}

impl Model for Overlay {
    ghost use Rattle.ht_group.specs.Overlays.{OverlayView};

    ghost Value = { OverlayView };

    ghost use Rattle.ht_group.specs.OverlayOf.{IsOverlay};

    ghost view = { λ a. record { good = a.good.items; words = a.words.items } };

    ghost invariant = { IsOverlay };
}

// Gives each word its good value in every lane.
fn splat_all(good: &[Tern], words: &mut [Word])
    requires { length words.old ≡ length good.now }
    ensures { (k : ℕ) → k < 64 → in_lane k words.new ≡ good.now }
{
    for x in 0..good.len() {
        words[x] = Word::splat(good[x]);
    }
}

// The same where only the words that were written have other lanes.
fn splat_written(good: &[Tern], written: &BitSet, words: &mut [Word])
    requires count { length words.old ≡ length good.now }
    requires marks { length written.now ≡ length good.now }
    requires few { length good.now < 2 ^ 32 }
    requires rest { (x : ℕ) → x < length good.now → get_or written.now x false ≡ false
        → IsGoodWord good.now words.old x }
    ensures { (k : ℕ) → k < 64 → in_lane k words.new ≡ good.now }
{
    let mut from = 0;
    while let Some(x) = written.next(from) {
        words[x as usize] = Word::splat(good[x as usize]);
        from = x + 1;
    }
}

impl Overlay {
    /// Words over these values.
    ///
    /// # Errors
    /// Out of memory.
    pub fn new(alloc: Global, good: &[Tern]) -> Result<Overlay, AllocError>
        requires { length good.now < 2 ^ 32 }
        ensures { IfOk result (λ overlay. IsSpread good.now overlay) }
    {
        let written = BitSet::new(alloc, good.len() as u32)?;
        let mut words = vec![in alloc; Word::splat(Tern::Unk); good.len()]?;
        splat_all(good, &mut words);
        Ok(Overlay {
            good: Vec::from_slice(alloc, good)?,
            words,
            written,
        })
    }

    /// The values of the good machine.
    pub fn good(&self) -> &[Tern]
        ensures { result.now ≡ self.now.good }
    {
        &self.good
    }

    /// The words.
    pub fn words(&self) -> &[Word]
        ensures words { result.now ≡ self.now.words }
        ensures count { length result.now ≡ length self.now.good }
    {
        &self.words
    }

    /// Lays words over other values, as many.
    pub fn reset(&mut self, good: &[Tern])
        requires { length good.now ≡ length self.old.good }
        ensures { IsSpread good.now self.new }
    {
        self.good.copy_from_slice(good);
        splat_all(good, &mut self.words);
        self.written.clear();
    }

    /// Puts back the words that were written.
    pub fn restore(&mut self)
        ensures { IsSpread self.old.good self.new }
    {
        splat_written(&self.good, &self.written, &mut self.words);
        self.written.clear();
    }

    /// Writes a word.
    pub fn set(&mut self, x: u32, word: Word)
        requires { x < length self.old.good }
        ensures { self.new ≡ record self.old { words = set self.old.words x word } }
    {
        self.words[x as usize] = word;
        self.written.insert(x);
    }
}
