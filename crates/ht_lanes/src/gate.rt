//! A gate over words.
ghost use Rattle.std.specs.Prelude.{◌≡◌, ℕ, ◌<◌, length, map};
ghost use Rattle.ht_tern.specs.Gate.{HasArity, gate_value};
ghost use Rattle.ht_lanes.specs.Lanes.{gate_lanes, lane};

use crate::Word;
use ht_tern::{Kind, eval_over};

/// The value of a gate in each lane, from the words at its pins, in the order of the pins (Kleene logic).
pub fn eval_word(kind: Kind, args: &[Word]) -> Word
    requires { HasArity kind (length args.now) }
    ensures lanes { (k : ℕ) → k < 64
        → lane result k ≡ gate_value kind (map (λ w. lane w k) args.now) }
    ensures value { result ≡ gate_lanes kind args.now }
{
    eval_over(kind, args)
}
