//! `lift`, which `bench/lift` times.
ghost use Rattle.std.specs.Prelude.{◌≡◌, length};
ghost use Rattle.ht_tern.specs.Gate.{HasArity};
ghost use Rattle.ht_pairs.specs.Pairs.{lifted_set};
ghost use Rattle.ht_exports.specs.Numbers.{kind_of};

use ht_pairs::{PairSet, lift};
use ht_tern::Kind;

// The kinds of any number of arguments, numbered: AND, NAND, OR, NOR, XOR, and then XNOR.
fn kind_numbered(number: u8) -> Kind
    ensures { result ≡ kind_of number }
{
    match number {
        0 => Kind::And,
        1 => Kind::Nand,
        2 => Kind::Or,
        3 => Kind::Nor,
        4 => Kind::Xor,
        _ => Kind::Xnor,
    }
}

/// The set of a gate of a numbered kind, as its bits. Each argument has the bits of a set: some of the lowest nine.
#[unsafe(no_mangle)]
pub extern "C" fn ht_pairs_lift(kind: u8, args: &[PairSet]) -> PairSet
    requires { HasArity (kind_of kind) (length args.now) }
    ensures { result ≡ lifted_set (kind_of kind) args.now }
{
    lift(kind_numbered(kind), args)
}
