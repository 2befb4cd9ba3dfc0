//! The sets of inputs and latches.
ghost use Rattle.std.specs.Prelude.{◌≡◌, map};
ghost use Rattle.ht_pairs.specs.Pairs.{pair};
ghost use Rattle.ht_tree.specs.Window.Decisions.{latch_pairs, latch_values_left};

use ht_pairs::PairSet;
use ht_tern::Tern;

/// The set of a value that is the same in both machines, and may also be unknown.
pub fn same_or_unknown(value: Option<Tern>) -> PairSet
    ensures { result ≡ map (λ v. pair v v) (latch_values_left value) }
{
    match value {
        None => PairSet::same_or_unknown(),
        Some(value) => PairSet::single(value, value),
    }
}

/// The set of a latch: a value that each machine has by itself, or the good machine's in both.
pub fn latch(halves: bool, good: Option<Tern>, faulty: Option<Tern>) -> PairSet
    ensures { result ≡ latch_pairs halves good faulty }
{
    if halves {
        PairSet::independent(good, faulty)
    } else {
        PairSet::same(good)
    }
}
