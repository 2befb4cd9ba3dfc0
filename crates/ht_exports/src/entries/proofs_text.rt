//! Proofs, read line by line, as rows of numbers.
use crate::entries::lines::{RowReader, take_lines};
use crate::entries::numbers::{push_end, push_entry};
use ht_entries::{Numbered, ProofReader, TextError};
use std::alloc::{AllocError, Global};

// The line that ended an entry, the entry's number, and its parts.
fn push_numbered(row: &mut Vec<u64>, line: usize, numbered: &Numbered) -> Result<(), AllocError> {
    row.push(line as u64)?;
    row.push(u64::from(numbered.number))?;
    push_entry(row, &numbered.entry)
}

impl RowReader for ProofReader {
    ghost is_live = { λ reader. reader.live };

    fn take_line(
        &mut self,
        number: usize,
        line: &[u8],
        row: &mut Vec<u64>,
    ) -> Result<bool, AllocError> {
        match self.line(line) {
            Ok(None) => Ok(true),
            Ok(Some(numbered)) => {
                push_numbered(row, number, &numbered)?;
                Ok(true)
            }
            Err(TextError::BadText { line }) => {
                push_end(row, line)?;
                Ok(false)
            }
            Err(TextError::NoMemory) => Err(AllocError),
        }
    }

    fn take_end(&mut self, row: &mut Vec<u64>) -> Result<(), AllocError> {
        match self.end() {
            Ok(()) => push_end(row, 0),
            Err(TextError::BadText { line }) => push_end(row, line),
            Err(TextError::NoMemory) => Err(AllocError),
        }
    }
}

/// For each entry of a proofs text the line that ends it, its number and its parts, and then 0 and the malformed line
/// or 0.
pub fn proofs_row(alloc: Global, text: &[u8], ends: &[usize]) -> Result<Vec<u64>, AllocError> {
    let mut reader = ProofReader::new(alloc);
    let mut row = Vec::new(alloc);
    take_lines(&mut reader, text, ends, &mut row)?;
    Ok(row)
}
