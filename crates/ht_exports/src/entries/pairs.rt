//! Sets of pairs by the numbers of their members: from 0, in the order of the text.
use ht_pairs::PairSet;
use ht_tern::Tern;

// The value of a number from 0: 0, 1 and X.
fn value_of(number: u64) -> Tern {
    match number {
        0 => Tern::Zero,
        1 => Tern::One,
        _ => Tern::Unk,
    }
}

/// The set of the pair of a number.
pub fn single(pair: u64) -> PairSet {
    PairSet::single(value_of(pair / 3), value_of(pair % 3))
}

/// Whether a set holds the pair of a number.
pub fn holds(set: PairSet, pair: u64) -> bool {
    set.has(value_of(pair / 3), value_of(pair % 3))
}

/// How many pairs a set has.
pub fn count(set: PairSet) -> u64 {
    let mut count = 0;
    for pair in 0..9 {
        if holds(set, pair) {
            count += 1;
        }
    }
    count
}
