//! Lines that are written in pieces.
ghost use Rattle.std.specs.Prelude.{◌≡◌, ◌++◌, OnOk};
ghost use Rattle.ht_texts.specs.Lines.{with_lf};
ghost use Rattle.ht_texts.specs.Pieces.{add_pieces, pieces_text};
ghost use Rattle.ht_texts.specs.PiecesOf.{pieces_of};

use crate::number::push_number;
use std::alloc::AllocError;

/// A piece of a line.
#[derive(Clone, Copy, PartialEq, Eq, Debug)]
pub enum Piece<'t> {
    /// A word of the line's form, with the spaces around it.
    Word(&'t [u8]),
    /// A number, in decimal without leading zeros.
    Number(u64),
    /// A name of the circuit's.
    Name(&'t [u8]),
}

/// Appends pieces, one after the other.
///
/// # Errors
///
/// `AllocError`: out of memory. The text may hold a part of the pieces.
pub fn push_pieces(text: &mut Vec<u8>, pieces: &[Piece<'_>]) -> Result<(), AllocError>
    ensures { OnOk result (text.new.items ≡ add_pieces text.old.items (pieces_of pieces.now)) }
{
    for piece in pieces {
        match piece {
            Piece::Word(bytes) | Piece::Name(bytes) => text.extend_from_slice(bytes)?,
            Piece::Number(number) => push_number(text, *number)?,
        }
    }
    Ok(())
}

/// Appends a line of pieces and its LF.
///
/// # Errors
///
/// `AllocError`: out of memory. The text may hold a part of the line.
pub fn push_line(text: &mut Vec<u8>, pieces: &[Piece<'_>]) -> Result<(), AllocError>
    ensures { OnOk result
        (text.new.items ≡ text.old.items ++ with_lf (pieces_text (pieces_of pieces.now))) }
{
    push_pieces(text, pieces)?;
    text.extend_from_slice(b"\n")?;
    Ok(())
}
