//! The kinds of gate, and the value of a gate.
ghost use Rattle.std.specs.Prelude.{◌≡◌, ◌<◌, length};
ghost use Rattle.ht_tern.specs.Gate.{HasArity, gate_value, gate_value_over, has_arity, inverts};

use crate::{GateOperations, Tern};

/// A kind of gate (ISCAS-89 format). Not and Buf have one argument, the others one or more.
#[derive(Clone, Copy, PartialEq, Eq, Debug)]
pub enum Kind {
    And,
    Nand,
    Or,
    Nor,
    Xor,
    Xnor,
    Not,
    Buf,
}

impl Kind {
    /// Whether a gate gives the complement of what it folds: NAND, NOR, XNOR and NOT.
    pub fn inverts(self) -> bool
        ensures { result ≡ inverts self }
    {
        matches!(self, Kind::Nand | Kind::Nor | Kind::Xnor | Kind::Not)
    }

    /// Whether a gate may have so many arguments: one for NOT and BUFF, else one or more (ISCAS-89 format).
    pub fn has_arity(self, count: usize) -> bool
        ensures { result ≡ has_arity self count }
    {
        match self {
            Kind::Not | Kind::Buf => count == 1,
            _ => count > 0,
        }
    }
}

/// The value of a gate over any domain, from the values at its pins, in the order of the pins: AND, OR and XOR fold
/// their operation over the arguments, and NAND, NOR, XNOR and NOT are the complements of AND, OR, XOR and BUFF.
pub fn eval_over<V: GateOperations>(kind: Kind, args: &[V]) -> V
    requires { HasArity kind (length args.now) }
    ensures { (blank : V) → result ≡ gate_value_over V.operations blank kind args.now }
{
    let mut value = args[0];
    for arg in &args[1..] {
        value = match kind {
            Kind::And | Kind::Nand => value.conjunction(*arg),
            Kind::Or | Kind::Nor => value.disjunction(*arg),
            Kind::Xor | Kind::Xnor => value.parity(*arg),
            Kind::Not | Kind::Buf => value,
        };
    }
    if kind.inverts() {
        value.complement()
    } else {
        value
    }
}

/// The value of a gate over three values, from those at its pins, in the order of the pins (Kleene logic).
pub fn eval(kind: Kind, args: &[Tern]) -> Tern
    requires { HasArity kind (length args.now) }
    ensures { result ≡ gate_value kind args.now }
{
    eval_over(kind, args)
}
