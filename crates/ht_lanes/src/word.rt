//! Words of 64 three-valued lanes: how one is made, read, written, stuck and compared.
ghost use Rattle.std.specs.Prelude.{◌≡◌, ◌≢◌, ◌<◌, ◌↔◌, ℕ, IsTrue};
ghost use Rattle.ht_tern.specs.Opposite.{are_opposite};
ghost use Rattle.ht_lanes.specs.Four.{AreEachApart, AreFourRows};
ghost use Rattle.ht_items.specs.Bits.{is_set};
ghost use Rattle.ht_lanes.specs.Lanes.{every_lane, lane, lane_operations, stuck_lanes, with_lane};
ghost use Rattle.ht_lanes.specs.Rows.{AreApart, lanes_of};

use ht_items::has_bit;
use ht_tern::{GateOperations, Tern};
use std::marker::Model;
use std::simd::u64x4;

/// 64 three-valued values, one in each lane. Lanes count from 0; a set of lanes is a number with a bit for each.
// Two words of bits, one for Zero and one for One, make AND and OR two operations for 64 machines and the complement an
// exchange.
#[derive(Clone, Copy, Debug)]
pub struct Word {
    /// A bit for each lane that is Zero.
    zero: u64,
    /// A bit for each lane that is One. An unknown lane has neither bit.
    one: u64,
}

impl Model for Word {
    ghost use Rattle.ht_lanes.specs.Lanes.{Lanes};
    ghost use Rattle.ht_lanes.specs.Rows.{AreApart, lanes_of, one_bits_of, zero_bits_of};
    ghost use Rattle.ht_lanes.specs.Inverse.{word_back};

    ghost Value = { Lanes };

    ghost view = { λ w. lanes_of w.zero w.one };

    ghost invariant = { λ w. AreApart w.zero w.one };

    ghost inverse = { λ w. record { zero = zero_bits_of w; one = one_bits_of w } };

    ghost inverse_ok = { λ w apart i. record {
      zero = (word_back w.zero w.one apart).0 i;
      one = (word_back w.zero w.one apart).1 i;
    } };
}

/// Three values in each lane (Kleene logic).
impl GateOperations for Word {
    ghost operations = { lane_operations };

    fn complement(self) -> Word {
        Word {
            zero: self.one,
            one: self.zero,
        }
    }

    fn conjunction(self, other: Word) -> Word {
        Word {
            zero: self.zero | other.zero,
            one: self.one & other.one,
        }
    }

    fn disjunction(self, other: Word) -> Word {
        Word {
            zero: self.zero & other.zero,
            one: self.one | other.one,
        }
    }

    fn parity(self, other: Word) -> Word {
        Word {
            zero: self.zero & other.zero | self.one & other.one,
            one: self.zero & other.one | self.one & other.zero,
        }
    }
}

impl Word {
    /// The word with one value in every lane.
    pub fn splat(value: Tern) -> Word
        ensures { result ≡ every_lane value }
    {
        match value {
            Tern::Zero => Word {
                zero: u64::MAX,
                one: 0,
            },
            Tern::One => Word {
                zero: 0,
                one: u64::MAX,
            },
            Tern::Unk => Word { zero: 0, one: 0 },
        }
    }

    /// The value of lane `k`.
    pub fn lane(self, k: u32) -> Tern
        requires { k < 64 }
        ensures { result ≡ lane self k }
    {
        if has_bit(self.zero, k) {
            Tern::Zero
        } else if has_bit(self.one, k) {
            Tern::One
        } else {
            Tern::Unk
        }
    }

    /// The word with another value in lane `k`.
    pub fn with(self, k: u32, value: Tern) -> Word
        requires { k < 64 }
        ensures { result ≡ with_lane self k value }
    {
        let bit = 1u64 << k;
        match value {
            Tern::Zero => Word {
                zero: self.zero | bit,
                one: self.one & !bit,
            },
            Tern::One => Word {
                zero: self.zero & !bit,
                one: self.one | bit,
            },
            Tern::Unk => Word {
                zero: self.zero & !bit,
                one: self.one & !bit,
            },
        }
    }

    /// The word with a set of lanes stuck, each at its bit of `bits`.
    pub fn stick(self, lanes: u64, bits: u64) -> Word
        ensures { result ≡ stuck_lanes lanes bits self }
    {
        // most lines have no stuck lane
        if lanes == 0 {
            return self;
        }
        Word {
            zero: self.zero & !lanes | lanes & !bits,
            one: self.one & !lanes | lanes & bits,
        }
    }

    /// The set of lanes that are definite and opposite to a value.
    pub fn opposite(self, value: Tern) -> u64
        ensures { (k : ℕ) → k < 64 → is_set result k ≡ are_opposite value (lane self k) }
    {
        match value {
            Tern::Zero => self.one,
            Tern::One => self.zero,
            Tern::Unk => 0,
        }
    }

    /// The set of lanes that have another value than this.
    pub fn other_than(self, value: Tern) -> u64
        ensures { (k : ℕ) → k < 64 → (IsTrue (is_set result k) ↔ (lane self k ≢ value)) }
    {
        match value {
            Tern::Zero => !self.zero,
            Tern::One => !self.one,
            Tern::Unk => self.zero | self.one,
        }
    }

    /// Whether two words have the same value in each lane.
    pub fn same(self, other: Word) -> bool
        ensures { IsTrue result ↔ (self ≡ other) }
    {
        self.zero == other.zero && self.one == other.one
    }
}

// The lanes that are Zero, and those that are One, of each of four words.
pub(crate) fn four_rows(four: &[Word; 4]) -> (u64x4, u64x4)
    ensures { AreFourRows four.now result.0 result.1 }
{
    let [a, b, c, d] = *four;
    (
        u64x4::from_array([a.zero, b.zero, c.zero, d.zero]),
        u64x4::from_array([a.one, b.one, c.one, d.one]),
    )
}

// The word of two rows of bits.
#[inline(always)]
fn by_rows(zero: u64, one: u64) -> Word
    requires { AreApart zero one }
    ensures { result ≡ lanes_of zero one }
{
    Word { zero, one }
}

// The four words of such rows of bits.
pub(crate) fn four_words(zeros: u64x4, ones: u64x4) -> [Word; 4]
    requires { AreEachApart zeros ones }
    ensures { AreFourRows result zeros ones }
{
    let zero = zeros.to_array();
    let one = ones.to_array();
    [
        by_rows(zero[0], one[0]),
        by_rows(zero[1], one[1]),
        by_rows(zero[2], one[2]),
        by_rows(zero[3], one[3]),
    ]
}
