//! What the judges say of what a search found.
ghost use Rattle.std.specs.Prelude.{◌≡◌, IfOk};
ghost use Rattle.ht_net.specs.Detect.Detection.{IsStart};
ghost use Rattle.ht_tree.specs.Record.Reached.{AreVectors};
ghost use Rattle.ht_close.specs.ClosedFaults.{ClosedHolds};

use crate::closed::Closed;
use crate::short::are_short;
use crate::steps::Refutation;
use ht_cubes::refuted;
use ht_net::{Circuit, Fault, Vectors};
use ht_serial::first;
use ht_tern::Tern;
use std::alloc::{AllocError, Global};

/// What the checker of cubes says of a refutation from a start: where it doesn't pass, or can't be written, the fault
/// stays open.
///
/// # Errors
/// Out of memory, or 2^32 or more that stands in clauses.
pub fn judge_cubes(
    alloc: Global,
    circuit: &Circuit,
    fault: Fault,
    start: &[Tern],
    refutation: Refutation,
) -> Result<Closed, AllocError>
    requires { IsStart circuit.now start.now }
    ensures { IfOk result (ClosedHolds circuit.now fault start.now) }
{
    let cubes = refutation.cubes.as_slice();
    let steps = refutation.steps.as_slice();
    let passes = refuted(alloc, circuit, fault, start, cubes, steps)?;
    if !passes {
        return Ok(Closed::Open);
    }
    let short = are_short(cubes, steps);
    if !short {
        return Ok(Closed::Open);
    }
    Ok(Closed::Refuted {
        cubes: refutation.cubes,
        steps: refutation.steps,
    })
}

// The vectors that have a bit for each input, as a list.
fn list_of(alloc: Global, circuit: &Circuit, vectors: &[Vec<bool>]) -> Result<Vectors, AllocError>
    ensures width { IfOk result (λ list. list.width ≡ circuit.now.inputs) }
    ensures wide { IfOk result (λ list. AreVectors circuit.now list.list) }
{
    let mut list = Vectors::new(alloc, circuit.inputs());
    for vector in vectors {
        if vector.len() == circuit.inputs() as usize {
            list.push(vector)?;
        }
    }
    Ok(list)
}

// What a serial run says of vectors: where they don't detect the fault, it stays open.
fn judge_whole(
    alloc: Global,
    circuit: &Circuit,
    fault: Fault,
    start: &[Tern],
    vectors: &[Vec<bool>],
) -> Result<Closed, AllocError>
    ensures { IfOk result (ClosedHolds circuit.now fault start.now) }
{
    let list = list_of(alloc, circuit, vectors)?;
    match first(alloc, circuit, fault, &list)? {
        Some(_) => Ok(Closed::Detected(list)),
        None => Ok(Closed::Open),
    }
}

/// What a serial run says of vectors from all-unknown: where they don't detect the fault, it stays open. What stands
/// after the vector that detects it is left out.
///
/// # Errors
/// Out of memory.
pub fn judge_list(
    alloc: Global,
    circuit: &Circuit,
    fault: Fault,
    start: &[Tern],
    vectors: &[Vec<bool>],
) -> Result<Closed, AllocError>
    ensures { IfOk result (ClosedHolds circuit.now fault start.now) }
{
    let list = list_of(alloc, circuit, vectors)?;
    let Some(place) = first(alloc, circuit, fault, &list)? else {
        return Ok(Closed::Open);
    };
    let count = (place.vector as usize).saturating_add(1).min(vectors.len());
    judge_whole(alloc, circuit, fault, start, &vectors[..count])
}
