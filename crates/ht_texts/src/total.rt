//! The sums of a report, and its total line.
ghost use Rattle.std.specs.Prelude.{◌≡◌, IfOk, OnOk};
ghost use Rattle.ht_texts.specs.Lines.{with_lf};
ghost use Rattle.ht_texts.specs.Pieces.{add_pieces};
ghost use Rattle.ht_texts.specs.PiecesOf.{pieces_of};
ghost use Rattle.ht_texts.specs.Reports.{answer_sums, class_sums, search_sums, some_pieces, total_line};

use crate::piece::{Piece, push_pieces};
use std::alloc::{AllocError, Global};

/// The sums of a report: how many classes of faults there are, and of how many of them each verdict is said.
#[derive(Clone, Copy, PartialEq, Eq, Debug)]
pub struct Sums {
    pub classes: u32,
    pub detected: u32,
    pub untestable: u32,
    pub aborted: u32,
    pub undetectable: u32,
    pub undetected: u32,
    /// Whether faults were searched for, and not only simulated: only then the total says how many classes have
    /// the other verdicts.
    pub search: bool,
}

/// The last line of a report, with its LF: `total 32 detected 2`, and of a search
/// `total 32 detected 30 untestable 1 aborted 1`. Where classes are undetectable or undetected, a search's ends with
/// their numbers too, as in `total 6 detected 0 untestable 1 aborted 0 undetectable 2 undetected 3`.
///
/// # Errors
///
/// `AllocError`: out of memory.
pub fn write_total(alloc: Global, sums: Sums) -> Result<Vec<u8>, AllocError>
    ensures { IfOk result (λ line. line.items ≡ with_lf (total_line sums)) }
{
    let mut line = Vec::new(alloc);
    push_pieces(&mut line, &class_sums(sums))?;
    if sums.search {
        push_search(&mut line, sums)?;
    }
    line.extend_from_slice(b"\n")?;
    Ok(line)
}

// How many classes there are, and how many are detected.
pub fn class_sums(sums: Sums) -> [Piece<'static>; 4]
    ensures { pieces_of result ≡ class_sums sums }
{
    [
        Piece::Word(b"total "),
        Piece::Number(u64::from(sums.classes)),
        Piece::Word(b" detected "),
        Piece::Number(u64::from(sums.detected)),
    ]
}

// How many a search answered without a test, and how many it gave up.
pub fn answer_sums(sums: Sums) -> [Piece<'static>; 4]
    ensures { pieces_of result ≡ answer_sums sums }
{
    [
        Piece::Word(b" untestable "),
        Piece::Number(u64::from(sums.untestable)),
        Piece::Word(b" aborted "),
        Piece::Number(u64::from(sums.aborted)),
    ]
}

// Appends what only a search counts.
fn push_search(text: &mut Vec<u8>, sums: Sums) -> Result<(), AllocError>
    ensures { OnOk result (text.new.items ≡ add_pieces text.old.items (search_sums sums)) }
{
    push_pieces(text, &answer_sums(sums))?;
    push_some(text, b" undetectable ", sums.undetectable)?;
    push_some(text, b" undetected ", sums.undetected)
}

// Appends a word and how many there are, if there are any.
fn push_some(text: &mut Vec<u8>, word: &[u8], count: u32) -> Result<(), AllocError>
    ensures { OnOk result
        (text.new.items ≡ add_pieces text.old.items (some_pieces word.now count)) }
{
    if count == 0 {
        return Ok(());
    }
    push_pieces(text, &[Piece::Word(word), Piece::Number(u64::from(count))])
}
