//! The value of every net in each frame of a machine's run.
ghost use Rattle.std.specs.Prelude.{◌≡◌, length, replicate, IfOk, OnOk};
ghost use Rattle.ht_tern.specs.declared.tern.Tern.TheVariants as tern;
ghost use Rattle.ht_net.specs.Circuit.Netlist.{net_count};
ghost use Rattle.ht_net.specs.Frames.Faults.{tern_rules};
ghost use Rattle.ht_net.specs.Frames.Frame.{next_state};
ghost use Rattle.ht_net.specs.Detect.Detection.{IsStart, terns_of};
ghost use Rattle.ht_dictionary.specs.Traces.{AreNetValues, IsTrace};

use ht_frame::{MAX_GATE_PINS, capture, settle};
use ht_net::{Circuit, Fault, Vectors};
use ht_serial::Observation;
use ht_tern::Tern;
use std::alloc::{AllocError, Global};

// So many unknown values.
fn unknown_values(alloc: Global, count: usize) -> Result<Vec<Tern>, AllocError>
    ensures { IfOk result (λ values. values.items ≡ replicate count tern.Unk) }
{
    let mut values = Vec::new(alloc);
    values.resize(count, Tern::Unk)?;
    Ok(values)
}

// The bits as definite values.
fn definite_values(alloc: Global, bits: &[bool]) -> Result<Vec<Tern>, AllocError>
    ensures { IfOk result (λ values. values.items ≡ terns_of bits.now) }
{
    bits.iter().map(|bit| Tern::from(*bit)).collect(alloc)
}

// Runs one frame, and gives the value of each net in it. `pins` is room for the pins of one gate.
fn run_frame(
    alloc: Global,
    circuit: &Circuit,
    fault: Option<Fault>,
    bits: &[bool],
    latches: &mut [Tern],
    pins: &mut [Tern],
) -> Result<Vec<Tern>, AllocError>
    requires bits { length bits.now ≡ circuit.now.inputs }
    requires latches { length latches.old ≡ length circuit.now.dffs }
    requires room { length pins.old ≡ MAX_GATE_PINS }
    ensures values { IfOk result
        (λ row. AreNetValues circuit.now fault (terns_of bits.now) latches.old row.items) }
    ensures next { OnOk result (latches.new
        ≡ next_state circuit.now (tern_rules fault) (terns_of bits.now) latches.old) }
{
    let vector = definite_values(alloc, bits)?;
    let mut values = unknown_values(alloc, circuit.nets() as usize)?;
    settle(circuit, fault, &vector, latches, &mut values, pins);
    capture(circuit, fault, &values, latches);
    Ok(values)
}

/// The trace of a machine's run over a list of vectors: a row for each vector, in order, with the value of each net in
/// its frame, in the order of the nets' numbers. Its flip-flops hold `start` before the first vector, a value for each.
/// Without a fault it is the good machine. A value is what the net's stem carries.
///
/// # Errors
/// Out of memory.
pub fn trace(
    alloc: Global,
    circuit: &Circuit,
    fault: Option<Fault>,
    start: &[Tern],
    list: &Vectors,
) -> Result<Observation, AllocError>
    requires start { IsStart circuit.now start.now }
    requires inputs { list.now.width ≡ circuit.now.inputs }
    ensures width { IfOk result (λ shown. shown.width ≡ net_count circuit.now) }
    ensures trace { IfOk result
        (λ shown. IsTrace circuit.now fault start.now list.now.list shown.rows) }
{
    let mut latches = Vec::from_slice(alloc, start)?;
    let mut pins = unknown_values(alloc, MAX_GATE_PINS)?;
    let mut shown = Observation::new(alloc, circuit.nets());
    for t in 0..list.len() {
        let row = run_frame(alloc, circuit, fault, list.get(t), &mut latches, &mut pins)?;
        shown.push(row)?;
    }
    Ok(shown)
}
