//! A program for scripts: closes faults of a netlist, one after the other, and writes what it finds.
//!
//! `ht_closer NETLIST FAULTS LIMIT TESTS PROOFS [START]`: FAULTS has the number of a fault a line. Each may take LIMIT
//! conflicts and as many propagations. TESTS gets the lists of vectors that detect faults, one after the other, and
//! PROOFS the entries of those that cubes refute; `tools/join` takes both. START has the line of a start; it is
//! all-unknown where that is left out. A line a fault on standard output says what became of it, and one on standard
//! error what it took: conflicts, propagations and processor seconds in microseconds.
//!
//! `bench/close` times it. Its words are those of a script: a wrong one ends it with an error.
#![tactic(auto)]

mod asked;
mod found;

use anyhow::{Result, bail};
use asked::{Asked, read_asked};
use found::Found;
use ht_close::{Shared, close};
use ht_net::Fault;
use std::time::CpuClock;
use std::{env, fs};

// Closes one fault by its number from 1, and tells of it.
fn close_one(
    rt: &HostRuntime,
    asked: &Asked,
    number: u32,
    fault: Fault,
    shared: &mut Shared,
    found: &mut Found,
) -> Result<()> {
    let (circuit, start) = (&asked.circuit, asked.start.as_slice());
    // for the proof: a start has a value for each flip-flop
    if start.len() != circuit.dffs() as usize {
        bail!("the start has another width");
    }
    let mut left = asked.effort();
    let began = rt.process_cpu_time()?;
    let closed = close(rt.alloc(), circuit, fault, start, shared, &mut left)?;
    let verdict = found.add(rt.alloc(), number, closed)?;
    let took = rt.process_cpu_time()?.saturating_sub(began).as_micros();
    let conflicts = asked.limit.saturating_sub(left.conflicts);
    let propagations = asked.limit.saturating_sub(left.propagations);
    eprintln!(rt; "{number} {conflicts} {propagations} {took}")?;
    println!(rt; "{number} {verdict}")?;
    Ok(())
}

// Closes the faults of a list, one after the other.
fn close_all(rt: &HostRuntime, asked: &Asked, found: &mut Found) -> Result<()> {
    let mut shared = Shared::new(rt.alloc(), &asked.circuit)?;
    for number in &asked.numbers {
        let Some(fault) = asked.fault(*number) else {
            bail!("there is no fault {number}");
        };
        close_one(rt, asked, *number, fault, &mut shared, found)?;
    }
    Ok(())
}

// Does what the words ask.
fn run(rt: &HostRuntime, words: &[String], found: &mut Found) -> Result<()> {
    let asked = read_asked(rt, words)?;
    let closed = close_all(rt, &asked, found);
    drop(asked);
    closed
}

// Writes the texts.
fn write(rt: &HostRuntime, words: &[String], found: &mut Found) -> Result<()> {
    if let [_, _, _, tests, proofs, ..] = words {
        fs::write(rt, tests.as_str(), found.tests())?;
        fs::write(rt, proofs.as_str(), found.proofs()?)?;
    }
    Ok(())
}

fn run_and_write(rt: &HostRuntime, words: &[String]) -> Result<()> {
    let mut found = Found::new(rt.alloc())?;
    run(rt, words, &mut found)?;
    write(rt, words, &mut found)
}

fn main(rt: HostRuntime) -> Result<()> {
    let mut words = Vec::new(rt.alloc());
    for word in env::args(&rt)?.skip(1) {
        words.push(word)?;
    }
    run_and_write(&rt, &words)
}
