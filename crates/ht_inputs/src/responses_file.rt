//! The responses, from their file to an observation.
ghost use Rattle.std.specs.Prelude.{◌≡◌, ◌+◌, ◌≤◌, ◌<◌, ◌++◌, ◌∷◌, [], length, List, IfOk, IfErr, MatchBool, false};
ghost use Rattle.ht_ports.specs.Desk.{InCall};
ghost use Rattle.ht_ports.specs.declared.ports.InPort.TheVariants as in_port;
ghost use Rattle.ht_tern.specs.declared.tern.Tern.{Tern};
ghost use Rattle.ht_net.specs.Circuit.Netlist.{max_nets};
ghost use Rattle.ht_dictionary.specs.ResponseTexts.{IsResponseText, IsRowText};
ghost use Rattle.ht_inputs.specs.declared.run_error.RunError.TheVariants as error;
ghost use Rattle.ht_asked.specs.Asked.{Asked};
ghost use Rattle.ht_inputs.specs.Inputs.{JobBasis, WasRead};
ghost use Rattle.ht_inputs.specs.Jobs.{may_state_start};
ghost use Rattle.ht_inputs.specs.Reading.{ReadStops};

use crate::judged_file::{LineJudge, read_lines};
use crate::run_error::RunError;
use ht_dictionary::read_row;
use ht_ports::{Desk, InPort};
use ht_serial::Observation;
use std::alloc::{AllocError, Global};

// Adds the row whose text the line is; false where no row has it.
fn push_row(
    alloc: Global,
    observation: &mut Observation,
    width: u32,
    line: &[u8],
) -> Result<bool, AllocError>
    requires { observation.old.width ≡ width }
    ensures width { observation.new.width ≡ observation.old.width }
    ensures added { IfOk result (λ is_row. MatchBool is_row
        ((row : List Tern) × IsRowText width line.now row
        × (observation.new.rows ≡ observation.old.rows ++ row ∷ []))
        ((observation.new ≡ observation.old)
        × ((row : List Tern) → ¬ IsRowText width line.now row))) }
{
    let Some(row) = read_row(alloc, line, width)? else {
        return Ok(false);
    };
    observation.push(row)?;
    Ok(true)
}

// The observation where it has a row for each vector, and the first missing line where it hasn't.
fn whole(observation: Observation, vectors: u64) -> Result<Observation, RunError>
    requires { length observation.rows ≤ vectors }
    ensures same { IfOk result (λ all. all ≡ observation) }
    ensures each { IfOk result (λ all. length all.rows ≡ vectors) }
    ensures missing { IfErr result (λ e. (length observation.rows < vectors)
        × (e ≡ error.BadResponses (length observation.rows + 1))) }
{
    if observation.len() < vectors {
        return Err(RunError::BadResponses {
            line: observation.len() + 1,
        });
    }
    Ok(observation)
}

// Reads responses, line by line.
#[derive(Drop)]
struct ResponsesReader {
    alloc: Global,
    observation: Observation,
    width: u32,
    vectors: u64,
}

impl LineJudge for ResponsesReader {
    ghost use Rattle.ht_inputs.specs.declared.run_error.RunError.TheVariants.{BadResponses};
    ghost use Rattle.ht_inputs.specs.Judging.{StandsForResponses};

    ghost most_bytes = { max_nets };

    ghost live = { λ reader. reader.observation.width ≡ reader.width };

    ghost stands = { λ reader basis lines. (reader.width ≡ length basis.circuit.outputs)
        × (reader.vectors ≡ length basis.content.list)
        × StandsForResponses reader.observation basis lines };

    // no row has the line as its text, or there is no vector for it
    ghost is_wrong = { λ basis before line error. (error ≡ BadResponses (length before + 1))
        × ((row : List Tern) → IsRowText (length basis.circuit.outputs) line row
        → length basis.content.list ≤ length before) };

    ghost error_at = { BadResponses };

    fn take(&mut self, number: u64, line: &[u8]) -> Result<(), RunError> {
        if number > self.vectors
            || !push_row(self.alloc, &mut self.observation, self.width, line)?
        {
            return Err(RunError::BadResponses { line: number });
        }
        Ok(())
    }

    fn longest(&self) -> u32 {
        // a circuit has at most so many outputs
        65_535
    }

    fn too_long(&self, line: u64) -> RunError {
        RunError::BadResponses { line }
    }
}

/// Opens the responses and reads a row of `width` values for each of so many vectors.
///
/// # Errors
/// - `ReadFault`: the desk counted a fault.
/// - `BadResponses`: a line is no row, has no vector or is missing.
/// - `NoMemory`: out of memory.
pub fn read_responses<D: Desk>(
    alloc: Global,
    desk: &mut D,
    name: &str,
    width: u32,
    vectors: u64,
) -> Result<Observation, RunError>
    requires { width ≤ max_nets }
    ensures frame { InCall in_port.Extra (D.view desk.old) (D.view desk.new) }
    ensures width { IfOk result (λ observation. observation.width ≡ width) }
    ensures each { IfOk result (λ observation. length observation.rows ≡ vectors) }
    ensures read { IfOk result (λ observation. WasRead in_port.Extra name.now
        (λ text. IsResponseText width vectors text observation.rows) (D.view desk.old)) }
    ensures stops { (job : Asked) (basis : JobBasis) → may_state_start job ≡ false
        → length basis.circuit.outputs ≡ width → length basis.content.list ≡ vectors
        → IfErr result (ReadStops job basis in_port.Extra name.now
        (D.view desk.old) (D.view desk.new)) }
{
    let mut reader = ResponsesReader {
        alloc,
        observation: Observation::new(alloc, width),
        width,
        vectors,
    };
    read_lines(alloc, desk, InPort::Extra, name, u64::MAX, &mut reader)?;
    whole(reader.observation, vectors)
}
