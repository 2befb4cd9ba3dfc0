//! The writer, the readers and the checker of entries, and the reader of reports, which `model/entries` and `model/passes`
//! compare.
//!
//! An entry crosses as a row of numbers: each list by its length and its members, each choice by its number from 0.
mod lines;
mod numbers;
mod pairs;
mod passes;
mod proofs_text;
mod reports;
mod row;

use crate::answer::numbered;
use crate::entries::passes::{passes, written};
use crate::entries::proofs_text::proofs_row;
use crate::entries::reports::report_row;
use std::alloc::Global;

// Puts an answer at the front of a row; its length, or the greatest number where there is none or no room.
fn put<T: Copy>(row: &mut [T], answer: Option<Vec<T>>) -> u64 {
    let Some(members) = answer else {
        return u64::MAX;
    };
    if members.len() > row.len() {
        return u64::MAX;
    }
    row[..members.len()].copy_from_slice(&members);
    members.len() as u64
}

/// The entries of a proofs text, each line given by where it ends in the text, without its LF, and its malformed line.
/// How many numbers were put into the row; the greatest number where they don't fit or memory ran out.
#[unsafe(no_mangle)]
pub extern "C" fn ht_entries_proofs(
    alloc: Global,
    text: &[u8],
    ends: &[usize],
    row: &mut [u64],
) -> u64 {
    put(row, proofs_row(alloc, text, ends).ok())
}

/// What the lines of a report of a netlist's search say, each line given by where it ends in the text, without its LF.
/// How many numbers were put into the row; the greatest number where they don't fit, the netlist is refused, or memory
/// ran out.
#[unsafe(no_mangle)]
pub extern "C" fn ht_entries_report(
    alloc: Global,
    netlist: &[u8],
    text: &[u8],
    ends: &[usize],
    row: &mut [u64],
) -> u64 {
    put(row, report_row(alloc, netlist, text, ends).ok())
}

/// The text of an entry, by its fault's number from 1. How many bytes were put into the text; the greatest number where
/// they don't fit, there is no such entry, or memory ran out.
#[unsafe(no_mangle)]
pub extern "C" fn ht_entries_written(
    alloc: Global,
    number: u32,
    numbers: &[u64],
    text: &mut [u8],
) -> u64 {
    put(text, written(alloc, number, numbers).ok())
}

/// Whether an entry passes for the fault of this number from 0: 1 where it does, 0 where it doesn't, and 2 where the
/// netlist is refused, the budget is too great, there is no such fault or entry, or memory ran out.
#[unsafe(no_mangle)]
pub extern "C" fn ht_entries_passes(
    alloc: Global,
    netlist: &[u8],
    fault: u32,
    budget: u64,
    numbers: &[u64],
) -> u8 {
    numbered(passes(alloc, netlist, fault, budget, numbers))
}
