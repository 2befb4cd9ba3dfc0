//! The netlist, from its file to its circuit.
ghost use Rattle.std.specs.Prelude.{◌≡◌, ◌≤◌, List, ℕ, length, Some, IfOk, IfErr};
ghost use Rattle.ht_ports.specs.Desk.{InCall};
ghost use Rattle.ht_ports.specs.declared.ports.InPort.TheVariants as in_port;
ghost use Rattle.ht_bench.specs.Text.{max_netlist_bytes};
ghost use Rattle.ht_asked.specs.Asked.{Asked};
ghost use Rattle.ht_inputs.specs.Inputs.{HasNetlist, IsGoodNetlist, IsStated, JobBasis, SaysBasis, WasRead};
ghost use Rattle.ht_inputs.specs.Jobs.{input_name};
ghost use Rattle.ht_inputs.specs.Reading.{EndsReading, HasReadTo, ReadStops};

use crate::run_error::RunError;
use ht_bench::read;
use ht_net::Circuit;
use ht_ports::{Desk, Failed, InPort, ReadFault, read_all};
use std::alloc::Global;

/// The greatest number of bytes of a netlist.
const MAX_NETLIST_BYTES: u64 = 16_777_216;

// The whole text of the netlist.
fn read_text<D: Desk>(alloc: Global, desk: &mut D, name: &str) -> Result<Vec<u8>, RunError>
    ensures frame { InCall in_port.Netlist (D.view desk.old) (D.view desk.new) }
    ensures within { IfOk result (λ v. length v.items ≤ max_netlist_bytes) }
    ensures read { IfOk result
        (λ v. WasRead in_port.Netlist name.now (λ text. v.items ≡ text) (D.view desk.old)) }
    ensures stops { (job : Asked) (basis : JobBasis) → IfErr result
        (ReadStops job basis in_port.Netlist name.now (D.view desk.old) (D.view desk.new)) }
{
    if let Err(Failed) = desk.open(InPort::Netlist, name) {
        return Err(RunError::ReadFault);
    }
    match read_all(alloc, desk, InPort::Netlist, MAX_NETLIST_BYTES) {
        Ok(text) => Ok(text),
        Err(ReadFault::Failed) => Err(RunError::ReadFault),
        Err(ReadFault::TooLong { limit: _ }) => Err(RunError::TooLong),
        Err(ReadFault::NoMemory) => Err(RunError::NoMemory),
    }
}

/// Opens the netlist, reads it whole, and makes its circuit.
///
/// # Errors
/// - `ReadFault`: the desk counted a fault.
/// - `TooLong`: the netlist has more than 16,777,216 bytes.
/// - `Refused`: it is the netlist of no circuit.
/// - `NoMemory`: out of memory.
pub fn read_netlist<D: Desk>(alloc: Global, desk: &mut D, name: &str) -> Result<Circuit, RunError>
    ensures frame { InCall in_port.Netlist (D.view desk.old) (D.view desk.new) }
    ensures netlist { IfOk result HasNetlist }
    ensures read { (job : Asked) (basis : JobBasis) → input_name job in_port.Netlist ≡ Some name.now
        → IsStated job basis → IfOk result
        (λ c. basis.circuit ≡ c → ((text : List ℕ) → IsGoodNetlist text c
        → SaysBasis job basis in_port.Netlist text)
        → HasReadTo job basis 1 (D.view desk.old) (D.view desk.new)) }
    ensures stops { (job : Asked) → input_name job in_port.Netlist ≡ Some name.now
        → IfErr result (EndsReading job (D.view desk.old) (D.view desk.new)) }
{
    let text = read_text(alloc, desk, name)?;
    let circuit = read(alloc, &text)?;
    Ok(circuit)
}
