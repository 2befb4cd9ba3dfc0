//! The bits of a word of 64.
ghost use Rattle.std.specs.Prelude.{◌≡◌, ◌<◌};
ghost use Rattle.ht_items.specs.Bits.{is_set, with_bit};

/// Whether bit `k` is 1.
#[tactic(auto, using(crate::proofs::WordLaws::test_is_set))]
pub fn has_bit(bits: u64, k: u32) -> bool
    requires { k < 64 }
    ensures { result ≡ is_set bits k }
{
    (bits >> k) & 1 == 1
}

/// The bits with bit `k` as given.
pub fn with_bit(bits: u64, k: u32, bit: bool) -> u64
    requires { k < 64 }
    ensures { result ≡ with_bit bits k bit }
{
    if bit { bits | 1 << k } else { bits & !(1 << k) }
}
