//! The first contradiction of one machine with an observation.
ghost use Rattle.std.specs.Prelude.{◌≡◌, length, IfOk};
ghost use Rattle.std.specs.Option.{ForSome};
ghost use Rattle.ht_net.specs.Detect.Detection.{IsPlace};
ghost use Rattle.ht_serial.specs.Contradictions.{IsFirstContradiction, IsObservedOver};
ghost use Rattle.ht_serial.specs.Opposites.{IsFirstOpposite};

use crate::machine::Machine;
use crate::observation::Observation;
use ht_net::{Circuit, Fault, Place, Vectors};
use ht_tern::{Tern, is_opposite};
use std::alloc::{AllocError, Global};

// The least output where the machine shows the opposite of what was observed.
fn first_opposite(row: &[Tern], machine: &Machine) -> Option<u32>
    requires { length row.now ≡ length machine.now.circuit.outputs }
    ensures { IsFirstOpposite row.now machine.now.outputs result }
{
    for o in 0..machine.output_count() {
        if is_opposite(row[o as usize], machine.output(o)) {
            return Some(o);
        }
    }
    None
}

/// The first place where a machine contradicts an observation, or `None` where it is consistent: the least vector, and
/// there the least output, where what it shows in its run from all-unknown and what was observed are opposite definite
/// values. Without a fault it is the good machine.
///
/// A detection is a contradiction of what the good machine shows, so this one loop finds both.
///
/// # Errors
/// Out of memory.
pub fn first_contradiction(
    alloc: Global,
    circuit: &Circuit,
    fault: Option<Fault>,
    list: &Vectors,
    observation: &Observation,
) -> Result<Option<Place>, AllocError>
    requires { IsObservedOver circuit.now list.now observation.now }
    ensures first { IfOk result (λ place. IsFirstContradiction circuit.now fault
        list.now.list observation.now.rows place) }
    ensures place { IfOk result (λ place. ForSome place (IsPlace circuit.now)) }
{
    let mut machine = Machine::start(alloc, circuit, fault)?;
    for t in 0..list.len() {
        machine.step(list.get(t));
        if let Some(output) = first_opposite(observation.get(t), &machine) {
            return Ok(Some(Place { vector: t, output }));
        }
    }
    Ok(None)
}
