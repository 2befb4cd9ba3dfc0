//! The text of responses.
ghost use Rattle.std.specs.Prelude.{◌≡◌, ◌++◌, IfOk, codes};
ghost use Rattle.std.specs.Fmt.{decimal};
ghost use Rattle.ht_texts.specs.Lines.{with_lf};
ghost use Rattle.ht_dictionary.specs.ResponseTexts.{row_text};
ghost use Rattle.ht_dictionary.specs.Responses.{last_row, lines_line, response_text, responses_line};
ghost use Rattle.ht_dictionary.specs.Responses.{rows_but_last};

use ht_serial::Observation;
use ht_tern::Tern;
use ht_texts::{push_number, tern_character};
use std::alloc::{AllocError, Global};

/// The text of responses without its last line: the line of each row but the last, as `10X`, with its LF. Without rows
/// it is empty.
///
/// # Errors
///
/// `AllocError`: out of memory.
pub fn write_response_body(alloc: Global, shown: &Observation) -> Result<Vec<u8>, AllocError>
    ensures { IfOk result (λ body. body.items ≡ response_text (rows_but_last shown.now.rows)) }
{
    let mut body = Vec::new(alloc);
    for t in 0..shown.len().saturating_sub(1) {
        let line = write_row(alloc, shown.get(t))?;
        body.extend_from_slice(&line)?;
    }
    Ok(body)
}

/// The last line of the text of responses, with its LF. Without rows it is empty.
///
/// # Errors
///
/// `AllocError`: out of memory.
pub fn write_last_response(alloc: Global, shown: &Observation) -> Result<Vec<u8>, AllocError>
    ensures { IfOk result (λ line. line.items ≡ response_text (last_row shown.now.rows)) }
{
    if shown.len() == 0 {
        return Ok(Vec::new(alloc));
    }
    write_row(alloc, shown.get(shown.len() - 1))
}

/// The line, with its LF, that says how many vectors there were and how many outputs: `responses vectors 3 outputs 1`.
///
/// # Errors
///
/// `AllocError`: out of memory.
pub fn write_response_total(
    alloc: Global,
    vectors: u64,
    outputs: u32,
) -> Result<Vec<u8>, AllocError>
    ensures { IfOk result (λ line. line.items ≡ with_lf (responses_line vectors outputs)) }
{
    write_counts(alloc, vectors, b" outputs ", outputs)
}

/// The line, with its LF, that says how many vectors there were and how many nets: `responses vectors 3 lines 17`.
///
/// # Errors
///
/// `AllocError`: out of memory.
pub fn write_lines_total(alloc: Global, vectors: u64, nets: u32) -> Result<Vec<u8>, AllocError>
    ensures { IfOk result (λ line. line.items ≡ with_lf (lines_line vectors nets)) }
{
    write_counts(alloc, vectors, b" lines ", nets)
}

// The line, with its LF, of how many vectors there were and how many of what was shown at each.
fn write_counts(
    alloc: Global,
    vectors: u64,
    shown: &[u8],
    count: u32,
) -> Result<Vec<u8>, AllocError>
    ensures { IfOk result (λ line. line.items ≡ with_lf
        (codes "responses vectors " ++ decimal vectors ++ shown.now ++ decimal count)) }
{
    let mut line = Vec::new(alloc);
    line.extend_from_slice(b"responses vectors ")?;
    push_number(&mut line, vectors)?;
    line.extend_from_slice(shown)?;
    push_number(&mut line, u64::from(count))?;
    line.extend_from_slice(b"\n")?;
    Ok(line)
}

// The line of a row, with its LF: a character for each output, in their order.
fn write_row(alloc: Global, row: &[Tern]) -> Result<Vec<u8>, AllocError>
    ensures { IfOk result (λ line. line.items ≡ with_lf (row_text row.now)) }
{
    let mut line: Vec<u8> = row
        .iter()
        .map(|value| tern_character(*value))
        .collect(alloc)?;
    line.extend_from_slice(b"\n")?;
    Ok(line)
}
