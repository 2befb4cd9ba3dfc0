//! Families that close, which `model/families` compares and `bench/families` times.
//!
//! A start crosses as a number for each flip-flop: 0, 1, or 2 for unknown. A family crosses as the bits of its sets.
ghost use Rattle.std.specs.Prelude.{◌≡◌, length, IfOk, IfSome};
ghost use Rattle.ht_net.specs.Detect.Detection.{IsStart};

use crate::answer::numbered;
use crate::netlist::read_circuit;
use ht_families::{closes, closing};
use ht_faults::list;
use ht_net::{Circuit, Fault};
use ht_pairs::PairSet;
use ht_tern::Tern;
use std::alloc::{AllocError, Global};

// A value by its number.
fn value(number: u8) -> Tern {
    match number {
        0 => Tern::Zero,
        1 => Tern::One,
        _ => Tern::Unk,
    }
}

// A start by its numbers.
fn start_of(alloc: Global, numbers: &[u8]) -> Result<Vec<Tern>, AllocError>
    ensures { IfOk result (λ start. length start.items ≡ length numbers.now) }
{
    numbers.iter().map(|number| value(*number)).collect(alloc)
}

// What is asked about: a circuit, one of its faults, and a start.
#[derive(Drop)]
struct Question {
    circuit: Circuit,
    fault: Fault,
    start: Vec<Tern>,
}

// What is asked, unless the netlist is refused, there is no such fault or start, there isn't a set for each flip-flop, or
// memory ran out.
fn asked(alloc: Global, netlist: &[u8], fault: u32, numbers: &[u8], sets: usize) -> Option<Question>
    ensures start { IfSome result (λ asked. IsStart asked.circuit asked.start.items) }
    ensures sets { IfSome result (λ asked. sets ≡ length asked.circuit.dffs) }
{
    let circuit = read_circuit(alloc, netlist)?;
    let faults = list(alloc, &circuit).ok()?;
    let start = start_of(alloc, numbers).ok()?;
    let width = circuit.dffs() as usize;
    if fault >= faults.len() || start.len() != width || sets != width {
        return None;
    }
    Some(Question {
        circuit,
        fault: faults.get(fault),
        start,
    })
}

// Puts the least family that closes for a fault into the sets, if there is one.
fn find(
    alloc: Global,
    netlist: &[u8],
    fault: u32,
    numbers: &[u8],
    sets: &mut [PairSet],
) -> Option<bool> {
    let question = asked(alloc, netlist, fault, numbers, sets.len())?;
    match closing(alloc, &question.circuit, question.fault, &question.start).ok()? {
        Some(family) => {
            sets.copy_from_slice(&family);
            Some(true)
        }
        None => Some(false),
    }
}

// Whether the sets close for a fault.
fn judge(
    alloc: Global,
    netlist: &[u8],
    fault: u32,
    numbers: &[u8],
    sets: &[PairSet],
) -> Option<bool> {
    let question = asked(alloc, netlist, fault, numbers, sets.len())?;
    closes(
        alloc,
        &question.circuit,
        question.fault,
        &question.start,
        sets,
    )
    .ok()
}

// How many listed faults have a family that closes, from all-unknown.
fn count(alloc: Global, netlist: &[u8]) -> Option<u64> {
    let circuit = read_circuit(alloc, netlist)?;
    let faults = list(alloc, &circuit).ok()?;
    let start = vec![in alloc; Tern::Unk; circuit.dffs() as usize].ok()?;
    let mut closed = 0;
    for i in 0..faults.len() {
        let found = closing(alloc, &circuit, faults.get(i), &start).ok()?;
        if found.is_some() {
            closed += 1;
        }
    }
    Some(closed)
}

/// Whether a family closes for a fault, by its number from 0, and a start; the least one is put into the sets. It is 2
/// where the netlist is refused, there is no such fault or start, there is not a set for each flip-flop, or memory ran
/// out.
#[unsafe(no_mangle)]
pub extern "C" fn ht_families_closing(
    alloc: Global,
    netlist: &[u8],
    fault: u32,
    start: &[u8],
    sets: &mut [PairSet],
) -> u8 {
    numbered(find(alloc, netlist, fault, start, sets))
}

/// Whether these sets close for a fault and a start, and 2 as above.
#[unsafe(no_mangle)]
pub extern "C" fn ht_families_closes(
    alloc: Global,
    netlist: &[u8],
    fault: u32,
    start: &[u8],
    sets: &[PairSet],
) -> u8 {
    numbered(judge(alloc, netlist, fault, start, sets))
}

/// How many listed faults of a netlist have a family that closes, from all-unknown; the greatest number where the netlist
/// is refused or memory ran out.
#[unsafe(no_mangle)]
pub extern "C" fn ht_families_count(alloc: Global, netlist: &[u8]) -> u64 {
    count(alloc, netlist).unwrap_or(u64::MAX)
}
