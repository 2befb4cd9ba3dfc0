//! Variables of the formula with a sign.
ghost use Rattle.std.specs.Prelude.{◌≡◌};
ghost use Rattle.ht_cubes.specs.Formula.{complement, constant};

use ht_items::FlatRows;

/// A variable of the formula, or its negation: the variable has this value. Variables count from 1; while clauses are
/// made, 0 is the constant true.
#[derive(Clone, Copy, PartialEq, Eq, Debug)]
pub struct SignedVar {
    pub variable: u32,
    pub value: bool,
}

/// Rows of signed variables: clauses, or targets.
pub(crate) type Rows = FlatRows<SignedVar>;

impl SignedVar {
    /// The signed variable that says the opposite.
    pub fn complement(self) -> SignedVar
        ensures { result ≡ complement self }
    {
        SignedVar {
            variable: self.variable,
            value: !self.value,
        }
    }

    // The constant that is true where the bit is.
    pub(crate) fn constant(bit: bool) -> SignedVar
        ensures { result ≡ constant bit }
    {
        SignedVar {
            variable: 0,
            value: bit,
        }
    }
}
