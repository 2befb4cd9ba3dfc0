//! What is asked: a circuit, a start, the numbers of faults, and a limit.
use anyhow::{Result, bail};
use ht_bench::read;
use ht_faults::{FaultList, list};
use ht_net::{Circuit, Fault, unknown_start};
use ht_solver::Effort;
use ht_tern::Tern;
use ht_texts::read_start;
use std::fs;

// The most bytes of a netlist.
const MAX_BYTES: usize = 16_777_216;

/// What is asked.
#[derive(Drop)]
pub struct Asked {
    pub circuit: Circuit,
    pub start: Vec<Tern>,
    pub numbers: Vec<u32>,
    pub limit: u64,
    faults: FaultList,
}

impl Asked {
    /// What each fault may take.
    pub fn effort(&self) -> Effort {
        Effort {
            conflicts: self.limit,
            propagations: self.limit,
        }
    }

    /// A fault by its number, from 1.
    pub fn fault(&self, number: u32) -> Option<Fault> {
        let place = number.checked_sub(1)?;
        if place < self.faults.len() {
            Some(self.faults.get(place))
        } else {
            None
        }
    }
}

// The circuit of a netlist.
fn read_circuit(rt: &HostRuntime, path: &str) -> Result<Circuit> {
    let text = fs::read_to_string(rt, path)?;
    let bytes = text.as_str().as_bytes();
    if bytes.len() > MAX_BYTES {
        bail!("the netlist is too long");
    }
    match read(rt.alloc(), bytes) {
        Ok(circuit) => Ok(circuit),
        Err(_) => bail!("the netlist is refused"),
    }
}

// The numbers of a list, one a line.
fn read_numbers(rt: &HostRuntime, path: &str) -> Result<Vec<u32>> {
    let text = fs::read_to_string(rt, path)?;
    let mut numbers = Vec::new(rt.alloc());
    for line in text.as_str().lines() {
        numbers.push(line.trim().parse::<u32>()?)?;
    }
    Ok(numbers)
}

// The start of a file, or all-unknown where none is named.
fn start_of(rt: &HostRuntime, circuit: &Circuit, path: Option<&str>) -> Result<Vec<Tern>> {
    let Some(path) = path else {
        return Ok(unknown_start(rt.alloc(), circuit)?);
    };
    let text = fs::read_to_string(rt, path)?;
    let line = text.as_str().trim().as_bytes();
    match read_start(rt.alloc(), line, circuit.dffs())? {
        Some(start) => Ok(start),
        None => bail!("the start is malformed"),
    }
}

/// What the program's words ask.
///
/// # Errors
/// There are fewer than five words, a file can't be read or says nothing of this kind, or out of memory.
pub fn read_asked(rt: &HostRuntime, words: &[String]) -> Result<Asked> {
    let [netlist, list_path, limit, _, _, rest @ ..] = words else {
        bail!("closer NETLIST FAULTS LIMIT TESTS PROOFS [START]");
    };
    let circuit = read_circuit(rt, netlist.as_str())?;
    let start = start_of(rt, &circuit, rest.first().map(|path| path.as_str()))?;
    Ok(Asked {
        start,
        numbers: read_numbers(rt, list_path.as_str())?,
        limit: limit.as_str().parse::<u64>()?,
        faults: list(rt.alloc(), &circuit)?,
        circuit,
    })
}
