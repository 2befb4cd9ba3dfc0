//! What one machine shows over a list of vectors.
ghost use Rattle.std.specs.Prelude.{◌≡◌, length, IfOk};
ghost use Rattle.ht_net.specs.Detect.Detection.{IsStart, outputs_from};

use crate::machine::Machine;
use crate::observation::Observation;
use ht_net::{Circuit, Fault, Vectors};
use ht_tern::Tern;
use std::alloc::{AllocError, Global};

/// What a machine shows over a list of vectors: a row for each vector, in order, with a value for each output, which is
/// unknown where the machine's is. Its flip-flops hold `start` before the first vector, a value for each. Without a
/// fault it is the good machine.
///
/// # Errors
/// Out of memory.
pub fn respond(
    alloc: Global,
    circuit: &Circuit,
    fault: Option<Fault>,
    start: &[Tern],
    list: &Vectors,
) -> Result<Observation, AllocError>
    requires start { IsStart circuit.now start.now }
    requires inputs { list.now.width ≡ circuit.now.inputs }
    ensures { IfOk result (λ shown. shown ≡ record {
      width = length circuit.now.outputs;
      rows = outputs_from circuit.now fault start.now list.now.list;
    }) }
{
    let mut machine = Machine::start_from(alloc, circuit, fault, start)?;
    let mut shown = Observation::new(alloc, circuit.outputs());
    for t in 0..list.len() {
        machine.step(list.get(t));
        let row = machine.output_row(alloc)?;
        shown.push(row)?;
    }
    Ok(shown)
}
