//! The list of faults that are worked on, from its file to their numbers.
ghost use Rattle.std.specs.Prelude.{◌≡◌, ◌+◌, ◌++◌, ◌∷◌, [], length, List, ℕ, IfOk, IfErr, is_some, option_map};
ghost use Rattle.ht_ports.specs.Desk.{DeskView, InCall};
ghost use Rattle.ht_ports.specs.declared.ports.InPort.TheVariants as in_port;
ghost use Rattle.ht_net.specs.Circuit.Netlist.{Netlist};
ghost use Rattle.ht_faults.specs.Sites.{faults_of};
ghost use Rattle.ht_texts.specs.FaultListTexts.{AreFaultLines, IsFaultListText};
ghost use Rattle.ht_asked.specs.Asked.{Asked};
ghost use Rattle.ht_inputs.specs.Inputs.{HasFault, JobBasis, WasRead};
ghost use Rattle.ht_inputs.specs.Jobs.{input_name};
ghost use Rattle.ht_inputs.specs.Reading.{EndsReading, HasReadTo, ReadStops};

use crate::judged_file::{LineJudge, read_lines};
use crate::run_error::RunError;
use ht_items::Items;
use ht_ports::{Desk, InPort};
use ht_texts::{MAX_LINE_BYTES, push_fault_number};
use ht_words::FileName;
use std::alloc::Global;

// Reads a list of faults, line by line.
#[derive(Drop)]
struct FaultsReader {
    numbers: Vec<u32>,
    count: u32,
}

impl LineJudge for FaultsReader {
    ghost use Rattle.ht_texts.specs.declared.limits.TheConstants.{MAX_LINE_BYTES};
    ghost use Rattle.ht_inputs.specs.declared.run_error.RunError.TheVariants.{BadFaults};

    ghost most_bytes = { MAX_LINE_BYTES };

    ghost live = { λ reader. Unit {0} };

    ghost stands = { λ reader basis lines. (reader.count ≡ length (faults_of basis.circuit))
        × AreFaultLines reader.count lines reader.numbers.items };

    // no list of faults goes on with the line
    ghost is_wrong = { λ basis before line error. (error ≡ BadFaults (length before + 1))
        × ((numbers : List ℕ) → ¬ AreFaultLines (length (faults_of basis.circuit))
        (before ++ line ∷ []) numbers) };

    ghost error_at = { BadFaults };

    fn take(&mut self, number: u64, line: &[u8]) -> Result<(), RunError> {
        if !push_fault_number(&mut self.numbers, self.count, line)? {
            return Err(RunError::BadFaults { line: number });
        }
        Ok(())
    }

    fn longest(&self) -> u32 {
        MAX_LINE_BYTES
    }

    fn too_long(&self, line: u64) -> RunError {
        RunError::BadFaults { line }
    }
}

// Opens the list of faults and reads the numbers, from 1 to `count`.
fn read_fault_list<D: Desk>(
    alloc: Global,
    desk: &mut D,
    name: &str,
    count: u32,
) -> Result<Items<u32>, RunError>
    ensures frame { InCall in_port.Faults (D.view desk.old) (D.view desk.new) }
    ensures read { (c : Netlist) → length (faults_of c) ≡ count
        → IfOk result (λ numbers. WasRead in_port.Faults name.now
        (λ text. IsFaultListText count text numbers) (D.view desk.old)) }
    ensures stops { (job : Asked) (basis : JobBasis) → length (faults_of basis.circuit) ≡ count
        → IfErr result (ReadStops job basis in_port.Faults name.now (D.view desk.old)
        (D.view desk.new)) }
{
    let mut reader = FaultsReader {
        numbers: Vec::new(alloc),
        count,
    };
    read_lines(alloc, desk, InPort::Faults, name, u64::MAX, &mut reader)?;
    Ok(Items::from_vec(reader.numbers))
}

/// The numbers of the faults, from 1 to `count`, that are worked on, read from their file; without one the desk isn't
/// called.
///
/// # Errors
/// - `ReadFault`: the desk counted a fault.
/// - `BadFaults`: the text is no list of faults.
/// - `NoMemory`: out of memory.
pub fn read_chosen<D: Desk>(
    alloc: Global,
    desk: &mut D,
    count: u32,
    name: &Option<FileName>,
) -> Result<Option<Items<u32>>, RunError>
    ensures read { (job : Asked) (basis : JobBasis) (first : DeskView)
        → input_name job in_port.Faults ≡ name.now → length (faults_of basis.circuit) ≡ count
        → HasReadTo job basis 5 first (D.view desk.old) → IfOk result
        (λ chosen. chosen ≡ option_map (λ _. basis.chosen) name.now
        → HasReadTo job basis 6 first (D.view desk.new)) }
    ensures named { IfOk result (λ chosen. is_some chosen ≡ is_some name.now) }
    ensures stopped { (job : Asked) (basis : JobBasis) (first : DeskView)
        → input_name job in_port.Faults ≡ name.now → length (faults_of basis.circuit) ≡ count
        → HasFault job basis.circuit → HasReadTo job basis 5 first (D.view desk.old)
        → IfErr result (EndsReading job first (D.view desk.new)) }
{
    match name {
        Some(name) => Ok(Some(read_fault_list(alloc, desk, name.as_str(), count)?)),
        None => Ok(None),
    }
}
