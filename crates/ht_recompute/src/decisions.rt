//! What a path has decided, and the sets of inputs under it.
ghost use Rattle.std.specs.Prelude.{◌≡◌, ◌<◌, ◌≤◌, ◌+◌, ℕ, [], length, get_or, None};
ghost use Rattle.ht_pairs.specs.Decided.{same_pairs};
ghost use Rattle.ht_recompute.specs.Written.{IsWritten};

use ht_pairs::PairSet;
use ht_tern::Tern;
use ht_tree::Assign3;

/// Writes what a path has decided for each variable that there is room for.
pub fn write_decisions(decisions: &mut [Option<Tern>], path: &[Assign3])
    ensures written { IsWritten decisions.new path.now }
    ensures room { length decisions.new ≡ length decisions.old }
{
    decisions.fill(None);
    for decision in path {
        let var = decision.var as usize;
        if var < decisions.len() {
            decisions[var] = Some(decision.value);
        }
    }
}

/// Gives each input its set. The inputs have the variables from `first` on.
pub fn write_inputs(decisions: &[Option<Tern>], first: usize, vector: &mut [PairSet])
    requires { first + length vector.old ≤ length decisions.now }
    ensures { (i : ℕ) → i < length vector.old → get_or vector.new i []
        ≡ same_pairs (get_or decisions.now (first + i) None) }
{
    for i in 0..vector.len() {
        vector[i] = PairSet::same(decisions[first + i]);
    }
}
