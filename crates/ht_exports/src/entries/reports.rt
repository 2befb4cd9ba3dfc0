//! Reports as rows of numbers.
use crate::entries::lines::{RowReader, take_lines};
use crate::entries::numbers::push_end;
use crate::netlist::read_circuit;
use ht_faults::{collapse, list};
use ht_texts::{Item, ReportReader, Said};
use std::alloc::{AllocError, Global};

// A fault, the kind of its verdict from 0, and the vector and the output of a detection or 0.
fn push_verdict(row: &mut Vec<u64>, fault: u32, said: Said) -> Result<(), AllocError> {
    let (kind, vector, output) = match said {
        Said::Detected(place) => (0, place.vector, place.output),
        Said::Untestable => (1, 0, 0),
        Said::Aborted => (2, 0, 0),
        Said::Undetectable => (3, 0, 0),
        Said::Undetected => (4, 0, 0),
    };
    for number in [2, u64::from(fault), kind, vector, u64::from(output)] {
        row.push(number)?;
    }
    Ok(())
}

fn push_two(row: &mut Vec<u64>, kind: u64, number: u64) -> Result<(), AllocError> {
    row.push(kind)?;
    row.push(number)?;
    Ok(())
}

// What a line says: 1 and a budget, 2 and a verdict, 3 and a fault that another one represents, or 4.
fn push_item(row: &mut Vec<u64>, item: Item) -> Result<(), AllocError> {
    match item {
        Item::Head { budget } => push_two(row, 1, budget),
        Item::Verdict { fault, said } => push_verdict(row, fault, said),
        Item::Member { fault } => push_two(row, 3, u64::from(fault)),
        Item::Total => {
            row.push(4)?;
            Ok(())
        }
    }
}

impl<'c> RowReader for ReportReader<'c> {
    ghost is_live = { λ reader. reader.live };

    fn take_line(&mut self, _: usize, line: &[u8], row: &mut Vec<u64>) -> Result<bool, AllocError> {
        match self.line(line) {
            Ok(item) => {
                push_item(row, item)?;
                Ok(true)
            }
            Err(error) => {
                push_end(row, error.line)?;
                Ok(false)
            }
        }
    }

    fn take_end(&mut self, row: &mut Vec<u64>) -> Result<(), AllocError> {
        match self.end() {
            Ok(()) => push_end(row, 0),
            Err(error) => push_end(row, error.line),
        }
    }
}

/// What each line of a report of this netlist says, and 0 and the malformed line or 0; out of memory also where the
/// netlist is refused.
pub fn report_row(
    alloc: Global,
    netlist: &[u8],
    text: &[u8],
    ends: &[usize],
) -> Result<Vec<u64>, AllocError> {
    let Some(circuit) = read_circuit(alloc, netlist) else {
        return Err(AllocError);
    };
    let faults = list(alloc, &circuit)?;
    let classes = collapse(alloc, &circuit, &faults)?;
    let mut reader = ReportReader::new(&circuit, &faults, &classes);
    let mut row = Vec::new(alloc);
    take_lines(&mut reader, text, ends, &mut row)?;
    Ok(row)
}
