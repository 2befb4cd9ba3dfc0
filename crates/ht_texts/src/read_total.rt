//! The total line of a report, read.
ghost use Rattle.std.specs.Prelude.{◌≡◌, ◌↔◌, IsTrue};
ghost use Rattle.ht_texts.specs.Fronts.{Strips};
ghost use Rattle.ht_texts.specs.Pieces.{pieces_text};
ghost use Rattle.ht_texts.specs.Reports.{search_sums, some_pieces, total_line};

use crate::piece::Piece;
use crate::strip::strip_pieces;
use crate::total::{Sums, answer_sums, class_sums};

// Whether this is the total line with these sums.
pub fn is_total(line: &[u8], sums: Sums) -> bool
    ensures { IsTrue result ↔ (line.now ≡ total_line sums) }
{
    let Some(rest) = strip_total(Some(line), sums) else {
        return false;
    };
    rest.is_empty()
}

// What follows the total line.
fn strip_total(text: Option<&[u8]>, sums: Sums) -> Option<&[u8]>
    ensures { Strips (total_line sums) text.entry result }
{
    let rest = strip_pieces(text, &class_sums(sums));
    if sums.search {
        strip_search(rest, sums)
    } else {
        rest
    }
}

// What follows the sums that only a search counts.
fn strip_search(text: Option<&[u8]>, sums: Sums) -> Option<&[u8]>
    ensures { Strips (pieces_text (search_sums sums)) text.entry result }
{
    let rest = strip_pieces(text, &answer_sums(sums));
    let rest = strip_some(rest, b" undetectable ", sums.undetectable);
    strip_some(rest, b" undetected ", sums.undetected)
}

// What follows a word and how many there are, if there are any.
fn strip_some<'t>(text: Option<&'t [u8]>, word: &[u8], count: u32) -> Option<&'t [u8]>
    ensures { Strips (pieces_text (some_pieces word.now count)) text.entry result }
{
    if count == 0 {
        return text;
    }
    strip_pieces(text, &[Piece::Word(word), Piece::Number(u64::from(count))])
}
