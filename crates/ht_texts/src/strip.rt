//! Words, numbers and pieces at the front of a text, taken off one after the other. Where one isn't there, no rest is left.
ghost use Rattle.std.specs.Fmt.{decimal};
ghost use Rattle.ht_texts.specs.Fronts.{Strips};
ghost use Rattle.ht_texts.specs.Pieces.{pieces_text};
ghost use Rattle.ht_texts.specs.PiecesOf.{pieces_of};

use crate::piece::Piece;
use itoa::Buffer;

// What follows a word.
pub fn strip_word<'t>(text: Option<&'t [u8]>, word: &[u8]) -> Option<&'t [u8]>
    ensures { Strips word.now text.entry result }
{
    let Some(text) = text else {
        return None;
    };
    text.strip_prefix(word)
}

// What follows a number.
pub fn strip_number(text: Option<&[u8]>, number: u64) -> Option<&[u8]>
    ensures { Strips (decimal number) text.entry result }
{
    let mut buffer = Buffer::new();
    strip_word(text, buffer.format(number).as_bytes())
}

// What follows pieces.
pub fn strip_pieces<'t>(text: Option<&'t [u8]>, pieces: &[Piece<'_>]) -> Option<&'t [u8]>
    ensures { Strips (pieces_text (pieces_of pieces.now)) text.entry result }
{
    let mut rest = text;
    for piece in pieces {
        rest = match piece {
            Piece::Word(bytes) | Piece::Name(bytes) => strip_word(rest, bytes),
            Piece::Number(number) => strip_number(rest, *number),
        };
    }
    rest
}
