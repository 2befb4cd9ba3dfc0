//! Entries from rows of numbers, judged and written.
use crate::entries::row::{Row, take_entry};
use crate::netlist::read_circuit;
use ht_check::entry;
use ht_entries::write_entry;
use ht_faults::list;
use ht_net::unknown_start;
use ht_tree::MAX_BUDGET;
use std::alloc::{AllocError, Global};

/// Whether the entry of a row passes from all-unknown for a fault of a netlist, by its number from 0; none where the
/// netlist is refused, the budget is too great, there is no such fault or entry, or memory ran out.
pub fn passes(
    alloc: Global,
    netlist: &[u8],
    fault: u32,
    budget: u64,
    numbers: &[u64],
) -> Option<bool> {
    if budget > MAX_BUDGET {
        return None;
    }
    let circuit = read_circuit(alloc, netlist)?;
    let faults = list(alloc, &circuit).ok()?;
    if fault >= faults.len() {
        return None;
    }
    let mut row = Row::new(numbers);
    let judged = take_entry(alloc, &mut row).ok()?;
    let start = unknown_start(alloc, &circuit).ok()?;
    // for the proof: a start has a value for each flip-flop
    if start.len() != circuit.dffs() as usize {
        return None;
    }
    entry(alloc, &circuit, &start, faults.get(fault), budget, &judged).ok()
}

/// The text of the entry of a row.
pub fn written(alloc: Global, number: u32, numbers: &[u64]) -> Result<Vec<u8>, AllocError> {
    let mut row = Row::new(numbers);
    let entry = take_entry(alloc, &mut row)?;
    write_entry(alloc, number, &entry)
}
