//! The character of a value.
ghost use Rattle.std.specs.Prelude.{◌≡◌};
ghost use Rattle.ht_texts.specs.Tests.{tern_code};

use ht_tern::Tern;

/// The character of a three-valued value, `0`, `1`, or `X` for unknown.
pub fn tern_character(value: Tern) -> u8
    ensures { result ≡ tern_code value }
{
    match value {
        Tern::Zero => b'0',
        Tern::One => b'1',
        Tern::Unk => b'X',
    }
}
