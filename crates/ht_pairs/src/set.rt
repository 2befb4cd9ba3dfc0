//! Sets of pairs: how one is made, what it may be asked, and the stuck line.
ghost use Rattle.std.specs.Prelude.{◌≡◌, ◌+◌, ◌*◌, ◌<◌, ◌≤◌, ◌⊎◌, ◌↔◌, IsTrue, [], ◌∷◌, length, Some, None};
ghost use Rattle.std.specs.List.{list_all, list_any};
ghost use Rattle.ht_tern.specs.declared.tern.Tern.TheVariants.{Zero, One, Unk};
ghost use Rattle.ht_pairs.specs.Pairs.{IsMember, MayDiffer, MustDiffer, differs, pair, set_of, stuck_set};
ghost use Rattle.ht_pairs.specs.Members.{bit_of, tern_index};
ghost use Rattle.ht_pairs.specs.Decided.{each_pair, same_pairs};
ghost use Rattle.ht_pairs.specs.Included.{Includes, joined_set};

use crate::moves::stuck;
use ht_tern::Tern;
use std::marker::Model;

/// A nonempty set of pairs of a good and a faulty value, in two bytes.
// C's layout, so that `bench/lift` may time a gate over sets from outside.
#[repr(C)]
#[derive(Clone, Copy, Debug)]
pub struct PairSet {
    /// A bit for each pair, in the order of the members, the lowest for 00.
    pub(crate) bits: u16,
}

impl Model for PairSet {
    ghost use Rattle.std.specs.Prelude.{◌<◌, List};
    ghost use Rattle.std.proofs.Common.{ap};
    ghost use Rattle.ht_pairs.specs.Pairs.{Pair};
    ghost use Rattle.ht_pairs.specs.Members.{members_of, bits_of, bits_of-members_of};

    ghost Value = { List Pair };

    ghost view = { λ s. members_of s.bits };

    ghost invariant = { λ s. (0 < s.bits) × (s.bits < 512) };

    ghost inverse = { λ pairs. record { bits = bits_of pairs } };

    ghost inverse_ok = { λ s valid.
        ap (λ n. record { bits = n }) (bits_of-members_of s.bits valid.1) };
}

/// Two sets are equal exactly where they have the same members.
impl PartialEq for PairSet {
    ghost use Rattle.std.specs.Prelude.{◌≡◌, ◌==◌, ◌↔◌, IsTrue};
    ghost use Rattle.std.specs.Cmp.{nat_eq_equiv, on_equiv, partial_equiv_from_equiv};
    ghost use Rattle.ht_pairs.specs.Members.{bits_of};

    ghost eq = { λ a b. bits_of a == bits_of b };

    ghost laws = { partial_equiv_from_equiv (on_equiv bits_of nat_eq_equiv) };

    fn eq(&self, other: &PairSet) -> bool
        ensures same_members { IsTrue result ↔ (self.now ≡ other.now) }
        ensures same_bits { result ≡ (bits_of self.now == bits_of other.now) }
    {
        self.bits == other.bits
    }
}

impl Eq for PairSet {
    ghost use Rattle.std.specs.Cmp.{nat_eq_equiv, on_equiv};
    ghost use Rattle.ht_pairs.specs.Members.{bits_of};

    ghost laws = { on_equiv bits_of nat_eq_equiv };
}

// 01 and 10: two definite values that are opposite.
const OPPOSITE: u16 = 0b000_001_010;

// 00 and 11.
const BOTH_SAME: u16 = 0b000_010_001;

// 00, 11 and XX.
const SAME_OR_UNKNOWN: u16 = 0b100_010_001;

// 00, 01, 10 and 11.
const TWO_VALUED: u16 = 0b000_011_011;

// A good half that is 0, and a faulty half that is 0 or 1: 00 and 01. Three bits up the good half is 1, six up X.
const OPEN_FAULTY: u16 = 0b000_000_011;

// A good half that is 0 or 1, and a faulty half that is 0: 00 and 10. One bit up the faulty half is 1, two up X.
const OPEN_GOOD: u16 = 0b000_001_001;

// The index of a value among the three.
fn index(value: Tern) -> u32
    ensures { result ≡ tern_index value }
{
    match value {
        Tern::Zero => 0,
        Tern::One => 1,
        Tern::Unk => 2,
    }
}

// The index of a pair's bit, among the nine.
fn bit_of(good: Tern, faulty: Tern) -> u32
    ensures bit { result ≡ bit_of (pair good faulty) }
    ensures within { result < 9 }
{
    3 * index(good) + index(faulty)
}

impl PairSet {
    /// The set of one pair.
    pub fn single(good: Tern, faulty: Tern) -> PairSet
        ensures { result ≡ pair good faulty ∷ [] }
    {
        PairSet {
            bits: 1 << bit_of(good, faulty),
        }
    }

    /// A definite value that is the same in both machines: {00, 11}, an undecided input.
    pub fn both_same() -> PairSet
        ensures { result ≡ pair Zero Zero ∷ pair One One ∷ [] }
    {
        PairSet { bits: BOTH_SAME }
    }

    /// A value that is the same in both machines: {00, 11, XX}, an undecided latch of the good machine.
    pub fn same_or_unknown() -> PairSet
        ensures { result ≡ pair Zero Zero ∷ pair One One ∷ pair Unk Unk ∷ [] }
    {
        PairSet {
            bits: SAME_OR_UNKNOWN,
        }
    }

    /// The four pairs of two definite values.
    pub fn any_two_valued() -> PairSet
        ensures { result ≡ pair Zero Zero ∷ pair Zero One ∷ pair One Zero ∷ pair One One ∷ [] }
    {
        PairSet { bits: TWO_VALUED }
    }

    /// A value that is the same in both machines: the decided one, or 0 or 1 where none is decided.
    pub fn same(value: Option<Tern>) -> PairSet
        ensures { result ≡ same_pairs value }
    {
        match value {
            None => PairSet::both_same(),
            Some(value) => PairSet::single(value, value),
        }
    }

    // A decided good half, and a faulty half that is open.
    fn with_good(good: Tern) -> PairSet
        ensures { result ≡ each_pair (Some good) None }
    {
        PairSet {
            bits: OPEN_FAULTY << (3 * index(good)),
        }
    }

    // A good half that is open, and a decided faulty half.
    fn with_faulty(faulty: Tern) -> PairSet
        ensures { result ≡ each_pair None (Some faulty) }
    {
        PairSet {
            bits: OPEN_GOOD << index(faulty),
        }
    }

    /// A value that each machine has by itself: in each half the decided one, or 0 or 1 where none is decided.
    pub fn independent(good: Option<Tern>, faulty: Option<Tern>) -> PairSet
        ensures { result ≡ each_pair good faulty }
    {
        match (good, faulty) {
            (Some(good), Some(faulty)) => PairSet::single(good, faulty),
            (Some(good), None) => PairSet::with_good(good),
            (None, Some(faulty)) => PairSet::with_faulty(faulty),
            (None, None) => PairSet::any_two_valued(),
        }
    }

    /// The set with the faulty half of each member stuck at a value.
    pub fn stick(self, value: bool) -> PairSet
        ensures { result ≡ stuck_set value self }
    {
        PairSet {
            bits: stuck(self.bits, value),
        }
    }

    /// Whether the set holds a pair.
    #[tactic(auto, using(crate::proofs::QueryLaws::has_tells))]
    pub fn has(self, good: Tern, faulty: Tern) -> bool
        ensures { IsTrue result ↔ IsMember (pair good faulty) self }
    {
        (self.bits >> bit_of(good, faulty)) & 1 == 1
    }

    /// Whether the set holds only one pair. No set is empty, as the second clause says.
    #[tactic(auto, using(crate::proofs::QueryLaws::single_tells))]
    pub fn is_single(self) -> bool
        ensures single { IsTrue result ↔ (length self ≡ 1) }
        ensures nonempty { 0 < length self }
    {
        self.bits & (self.bits - 1) == 0
    }

    /// Whether each member of another set is a member of this one.
    pub fn includes(self, other: PairSet) -> bool
        ensures { IsTrue result ↔ Includes self other }
    {
        self.bits | other.bits == self.bits
    }

    /// The union of two sets: no more than nine pairs, and more than this set has unless it includes the other.
    pub fn join(self, other: PairSet) -> PairSet
        ensures members { result ≡ joined_set self other }
        ensures grows { (result ≡ self) ⊎ (length self < length result) }
        ensures few { length result ≤ 9 }
    {
        PairSet {
            bits: self.bits | other.bits,
        }
    }

    /// A law: a set lists each of its members once, in the order of all pairs. So a set has one list, and no other set
    /// has that list.
    pub fn is_listed_in_order(self)
        ensures { self ≡ set_of self }
    {
        // for the proof: the bits say in which order the members stand
        let _ = &self.bits;
    }

    /// Whether some member has opposite definite values.
    #[tactic(auto, using(crate::proofs::QueryLaws::may_differ_tells))]
    pub fn may_differ(self) -> bool
        ensures some { IsTrue result ↔ MayDiffer self }
        ensures value { result ≡ list_any differs self }
    {
        self.bits & OPPOSITE != 0
    }

    /// Whether each member has opposite definite values; then some member has, since the set is not empty.
    #[tactic(auto, using(crate::proofs::QueryLaws::must_differ_tells))]
    pub fn must_differ(self) -> bool
        ensures each { IsTrue result ↔ MustDiffer self }
        ensures value { result ≡ list_all differs self }
        ensures nonempty { 0 < length self }
    {
        self.bits | OPPOSITE == OPPOSITE
    }
}
