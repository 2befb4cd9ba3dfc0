//! The table of equivalent faults at a gate.
//!
//! An input fault and an output fault of a gate are equivalent in these cases and no other:
//!
//! | Kind | Pins | Input stuck at | Output stuck at |
//! |---|---|---|---|
//! | AND | 2 or more | 0 | 0 |
//! | NAND | 2 or more | 0 | 1 |
//! | OR | 2 or more | 1 | 1 |
//! | NOR | 2 or more | 1 | 0 |
//! | BUFF, AND, OR, XOR | 1 | either value | the same |
//! | NOT, NAND, NOR, XNOR | 1 | either value | the complement |
ghost use Rattle.std.specs.Prelude.{◌≡◌};
ghost use Rattle.ht_faults.specs.Table.{controlled_output, single_output, equivalent_output};

use ht_tern::Kind;

// What a controlling value at one of two or more pins gives the output, if the value is controlling.
fn controlled(kind: Kind, value: bool) -> Option<bool>
    ensures { result ≡ controlled_output kind value }
{
    match (kind, value) {
        (Kind::And, false) | (Kind::Nor, true) => Some(false),
        (Kind::Nand, false) | (Kind::Or, true) => Some(true),
        _ => None,
    }
}

// What a gate of one pin gives.
fn single(kind: Kind, value: bool) -> bool
    ensures { result ≡ single_output kind value }
{
    if kind.inverts() { !value } else { value }
}

// The value that the output of a gate is stuck at, where an input is stuck at `value` and the two faults are
// equivalent.
#[tactic(auto, unfolding(crate::specs::Table::equivalent_output))]
pub(crate) fn output_of(kind: Kind, pins: usize, value: bool) -> Option<bool>
    ensures { result ≡ equivalent_output kind pins value }
{
    if pins == 1 {
        Some(single(kind, value))
    } else {
        controlled(kind, value)
    }
}
