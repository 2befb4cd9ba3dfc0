//! Families as lists of sets.
ghost use Rattle.std.specs.Prelude.{◌≡◌, ◌↔◌, ◌⊎◌, ◌<◌, ◌≤◌, ◌*◌, [], ℕ, IsTrue, length, get_or, IfOk};
ghost use Rattle.ht_pairs.specs.Included.{joined_set};
ghost use Rattle.ht_tree.specs.Record.ClosedFamilies.{HoldsState, IncludesEach};
ghost use Rattle.ht_families.specs.Families.{start_family};
ghost use Rattle.ht_families.specs.FamilyFrames.{size_of};

use crate::Family;
use ht_pairs::PairSet;
use ht_tern::Tern;
use std::alloc::{AllocError, Global};

/// The family of a start alone.
///
/// # Errors
/// Out of memory.
pub fn start_family(alloc: Global, start: &[Tern]) -> Result<Family, AllocError>
    ensures { IfOk result (λ family. family.items ≡ start_family start.now) }
{
    start.iter().map(|v| PairSet::single(*v, *v)).collect(alloc)
}

/// Whether both machines' latches may hold a state.
pub fn holds_state(family: &[PairSet], state: &[Tern]) -> bool
    requires { length family.now ≡ length state.now }
    ensures { IsTrue result ↔ HoldsState family.now state.now }
{
    for (j, value) in state.iter().enumerate() {
        if !family[j].has(*value, *value) {
            return false;
        }
    }
    true
}

/// Whether each set of a family includes that of another.
pub fn includes_each(family: &[PairSet], other: &[PairSet]) -> bool
    requires { length family.now ≡ length other.now }
    ensures { IsTrue result ↔ IncludesEach family.now other.now }
{
    for (j, set) in other.iter().enumerate() {
        if !family[j].includes(*set) {
            return false;
        }
    }
    true
}

/// Adds to each set the members of another.
pub fn join_each(family: &mut [PairSet], other: &[PairSet])
    requires { length family.old ≡ length other.now }
    ensures joined { (j : ℕ) → j < length family.old → get_or family.new j []
        ≡ joined_set (get_or family.old j []) (get_or other.now j []) }
    ensures grows { IncludesEach family.old other.now ⊎ (size_of family.old < size_of family.new) }
    ensures few { size_of family.new ≤ 9 * length family.old }
{
    for j in 0..family.len() {
        family[j] = family[j].join(other[j]);
    }
}
