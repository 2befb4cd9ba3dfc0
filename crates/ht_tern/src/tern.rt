//! The three values and their operations.
ghost use Rattle.std.specs.Prelude.{◌≡◌, IsTrue, ◌↔◌};
ghost use Rattle.ht_tern.specs.Gate.{Refines, tern_of, tern_operations};
ghost use Rattle.ht_tern.specs.Opposite.{Opposite, are_opposite};

use crate::GateOperations;

/// A value of a net: Zero and One are definite, Unk is unknown (Kleene logic).
#[derive(Clone, Copy, PartialEq, Eq, Debug)]
pub enum Tern {
    Zero,
    One,
    Unk,
}

/// The definite value of a bit.
impl From<bool> for Tern {
    ghost from_gives = { λ bit v. v ≡ tern_of bit };

    fn from(bit: bool) -> Tern {
        if bit { Tern::One } else { Tern::Zero }
    }
}

/// Three values (Kleene logic).
impl GateOperations for Tern {
    ghost operations = { tern_operations };

    /// The complement: an unknown value stays unknown.
    fn complement(self) -> Tern {
        match self {
            Tern::Zero => Tern::One,
            Tern::One => Tern::Zero,
            Tern::Unk => Tern::Unk,
        }
    }

    /// Zero where a value is Zero, else unknown where a value is.
    fn conjunction(self, other: Tern) -> Tern {
        match (self, other) {
            (Tern::Zero, _) | (_, Tern::Zero) => Tern::Zero,
            (Tern::One, Tern::One) => Tern::One,
            _ => Tern::Unk,
        }
    }

    /// One where a value is One, else unknown where a value is.
    fn disjunction(self, other: Tern) -> Tern {
        match self {
            Tern::One => Tern::One,
            Tern::Zero => other,
            Tern::Unk => match other {
                Tern::One => Tern::One,
                _ => Tern::Unk,
            },
        }
    }

    /// Unknown where a value is, else the parity.
    fn parity(self, other: Tern) -> Tern {
        match self {
            Tern::Unk => Tern::Unk,
            Tern::Zero => other,
            Tern::One => other.complement(),
        }
    }
}

/// Whether `a` tells all that `b` tells: `b` is unknown, or they are equal.
pub fn refines(a: Tern, b: Tern) -> bool
    ensures { IsTrue result ↔ Refines a b }
{
    match b {
        Tern::Unk => true,
        _ => a == b,
    }
}

/// Whether a tester tells the two values apart: both are definite, and they are opposite (one observation time, as in
/// PROOFS 1992).
#[tactic(auto, using(crate::proofs::OppositeLaws::opposite_tested))]
pub fn is_opposite(good: Tern, faulty: Tern) -> bool
    ensures fact { IsTrue result ↔ Opposite good faulty }
    ensures value { result ≡ are_opposite good faulty }
{
    match good {
        Tern::Zero => faulty == Tern::One,
        Tern::One => faulty == Tern::Zero,
        Tern::Unk => false,
    }
}
