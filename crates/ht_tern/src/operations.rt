//! The operations of a domain of values, from which every gate is made.
ghost use Rattle.std.specs.Prelude.{◌≡◌};
ghost use Rattle.ht_tern.specs.Gate.{Operations, bool_operations};

/// A domain of values with the four operations that every gate is made of.
pub trait GateOperations: Copy {
    // what the four operations give
    ghost operations: { Operations Self };

    /// The complement.
    fn complement(self) -> Self
        ensures { result ≡ operations.complement self };

    /// The operation that AND folds over its arguments.
    fn conjunction(self, other: Self) -> Self
        ensures { result ≡ operations.conjunction self other };

    /// The operation that OR folds over its arguments.
    fn disjunction(self, other: Self) -> Self
        ensures { result ≡ operations.disjunction self other };

    /// The operation that XOR folds over its arguments.
    fn parity(self, other: Self) -> Self
        ensures { result ≡ operations.parity self other };
}

/// Two values: Boolean logic.
impl GateOperations for bool {
    ghost operations = { bool_operations };

    fn complement(self) -> bool {
        !self
    }

    fn conjunction(self, other: bool) -> bool {
        self & other
    }

    fn disjunction(self, other: bool) -> bool {
        self | other
    }

    fn parity(self, other: bool) -> bool {
        self ^ other
    }
}
