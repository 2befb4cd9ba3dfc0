//! The kinds of gates, by words.
ghost use Rattle.std.specs.Prelude.{◌≡◌};
ghost use Rattle.ht_demo.specs.Draws.{kind_by_word, is_unary};

use ht_tern::Kind;

const KINDS: [Kind; 8] = [
    Kind::And,
    Kind::Nand,
    Kind::Or,
    Kind::Nor,
    Kind::Xor,
    Kind::Xnor,
    Kind::Not,
    Kind::Buf,
];

/// The kind that a word gives.
pub fn kind_by_word(word: u32) -> Kind
    ensures { result ≡ kind_by_word word }
{
    KINDS[(word % 8) as usize]
}

/// Whether a gate of this kind has one argument and not two.
pub fn is_unary(kind: Kind) -> bool
    ensures { result ≡ is_unary kind }
{
    matches!(kind, Kind::Not | Kind::Buf)
}
