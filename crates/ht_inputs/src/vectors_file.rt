//! The tests, from their file to a list of vectors.
ghost use Rattle.std.specs.Prelude.{◌≡◌, ◌≤◌, ◌+◌, ◌++◌, ◌∷◌, [], length, List, Bool, IfOk, IfErr, MatchBool, None, true};
ghost use Rattle.ht_ports.specs.Desk.{DeskView, InCall};
ghost use Rattle.ht_ports.specs.LineRule.{max_text_bytes};
ghost use Rattle.ht_ports.specs.declared.ports.InPort.TheVariants as in_port;
ghost use Rattle.ht_net.specs.Circuit.Netlist.{IsCircuit};
ghost use Rattle.ht_texts.specs.Tests.{IsTextOf};
ghost use Rattle.ht_compact.specs.TestsToCompact.{IsTestTextToCompact};
ghost use Rattle.ht_asked.specs.Asked.{Asked};
ghost use Rattle.ht_asked.specs.Table.{compact, gen};
ghost use Rattle.ht_inputs.specs.Inputs.{AreTests, AreVectorsOf, HasFault, JobBasis, WasRead};
ghost use Rattle.ht_inputs.specs.Jobs.{input_name, takes_few};
ghost use Rattle.ht_inputs.specs.Reading.{AreVectorsUpTo, EndsReading, HasReadTo, ReadStops, TestsStop};

use crate::judged_file::{LineJudge, read_lines};
use crate::run_error::RunError;
use ht_compact::MAX_COMPACTED;
use ht_net::{Circuit, Vectors};
use ht_ports::{Desk, InPort};
use ht_texts::read_vector;
use ht_words::FileName;
use std::alloc::{AllocError, Global};

// Adds the vector whose text the line is; false where no vector has it.
fn push_line(alloc: Global, list: &mut Vectors, width: u32, line: &[u8]) -> Result<bool, AllocError>
    requires { list.old.width ≡ width }
    ensures width { list.new.width ≡ list.old.width }
    ensures added { IfOk result (λ is_vector. MatchBool is_vector
        ((vector : List Bool) × IsTextOf list.old.width line.now vector
        × (list.new.list ≡ list.old.list ++ vector ∷ []))
        ((list.new ≡ list.old)
        × ((vector : List Bool) → ¬ IsTextOf list.old.width line.now vector))) }
{
    let Some(vector) = read_vector(alloc, line, width)? else {
        return Ok(false);
    };
    list.push(&vector)?;
    Ok(true)
}

// Reads tests, line by line.
#[derive(Drop)]
struct TestsReader {
    alloc: Global,
    list: Vectors,
    width: u32,
}

impl LineJudge for TestsReader {
    ghost use Rattle.ht_net.specs.Circuit.Netlist.{max_inputs};
    ghost use Rattle.ht_inputs.specs.declared.run_error.RunError.TheVariants.{BadTests};
    ghost use Rattle.ht_inputs.specs.Judging.{StandsForTests};

    ghost most_bytes = { max_inputs };

    ghost live = { λ reader. reader.list.width ≡ reader.width };

    ghost stands = { λ reader basis lines. StandsForTests reader.list basis lines };

    // no vector has the line as its text
    ghost is_wrong = { λ basis before line error. (error ≡ BadTests (length before + 1))
        × ((vector : List Bool) → ¬ IsTextOf basis.circuit.inputs line vector) };

    ghost error_at = { BadTests };

    fn take(&mut self, number: u64, line: &[u8]) -> Result<(), RunError> {
        if !push_line(self.alloc, &mut self.list, self.width, line)? {
            return Err(RunError::BadTests { line: number });
        }
        Ok(())
    }

    fn longest(&self) -> u32 {
        // a circuit has at most so many inputs
        4_096
    }

    fn too_long(&self, line: u64) -> RunError {
        RunError::BadTests { line }
    }
}

/// Opens the tests and reads the vectors of the first `most` lines, up to the first line that is none.
///
/// # Errors
/// - `ReadFault`: the desk counted a fault.
/// - `BadTests`: a line is no vector.
/// - `NoMemory`: out of memory.
pub fn read_tests<D: Desk>(
    alloc: Global,
    desk: &mut D,
    name: &str,
    circuit: &Circuit,
    most: u64,
) -> Result<Vectors, RunError>
    requires { IsCircuit circuit.now }
    ensures frame { InCall in_port.Tests (D.view desk.old) (D.view desk.new) }
    ensures upto { IfOk result (λ list. length list.list ≤ most) }
    ensures width { IfOk result (λ list. list.width ≡ circuit.now.inputs) }
    ensures widths { IfOk result (λ list. AreVectorsOf circuit.now list.list) }
    ensures few { IfOk result (λ list. length list.list ≤ max_text_bytes) }
    ensures read { IfOk result (λ list. WasRead in_port.Tests name.now
        (AreVectorsUpTo circuit.now most list.list) (D.view desk.old)) }
    ensures stops { IfErr result
        (TestsStop circuit.now most name.now (D.view desk.old) (D.view desk.new)) }
{
    let mut reader = TestsReader {
        alloc,
        list: Vectors::new(alloc, circuit.inputs()),
        width: circuit.inputs(),
    };
    read_lines(alloc, desk, InPort::Tests, name, most, &mut reader)?;
    Ok(reader.list)
}

// Opens the tests and reads the few vectors that are compacted. Where there are more, one more is read, and no further
// line: `TooManyVectors`.
fn read_few_tests<D: Desk>(
    alloc: Global,
    desk: &mut D,
    name: &str,
    circuit: &Circuit,
) -> Result<Vectors, RunError>
    requires { IsCircuit circuit.now }
    ensures frame { InCall in_port.Tests (D.view desk.old) (D.view desk.new) }
    ensures read { IfOk result (λ list. WasRead in_port.Tests name.now
        (λ text. IsTestTextToCompact circuit.now text list.list) (D.view desk.old)) }
    ensures width { IfOk result (λ list. list.width ≡ circuit.now.inputs) }
    ensures widths { IfOk result (λ list. AreVectorsOf circuit.now list.list) }
    ensures stops { (job : Asked) (basis : JobBasis) → takes_few job.command job.numbers.runs ≡ true
        → basis.circuit ≡ circuit.now → IfErr result
        (ReadStops job basis in_port.Tests name.now (D.view desk.old) (D.view desk.new)) }
{
    let list = read_tests(alloc, desk, name, circuit, MAX_COMPACTED + 1)?;
    if list.len() > MAX_COMPACTED {
        return Err(RunError::TooManyVectors);
    }
    Ok(list)
}

/// Opens the tests of `compact` and reads their vectors, which are to be few or may be any.
///
/// # Errors
/// - Those of `read_tests`.
/// - `TooManyVectors`: they are to be few, and the tests begin with more vectors than are compacted.
pub fn read_tests_to_compact<D: Desk>(
    alloc: Global,
    desk: &mut D,
    name: &str,
    circuit: &Circuit,
    few: bool,
) -> Result<Vectors, RunError>
    requires { IsCircuit circuit.now }
    ensures frame { InCall in_port.Tests (D.view desk.old) (D.view desk.new) }
    ensures read { IfOk result (λ list. WasRead in_port.Tests name.now
        (λ text. AreTests few circuit.now text list.list) (D.view desk.old)) }
    ensures width { IfOk result (λ list. list.width ≡ circuit.now.inputs) }
    ensures widths { IfOk result (λ list. AreVectorsOf circuit.now list.list) }
    ensures stops { (job : Asked) (basis : JobBasis) → job.command ≡ compact
        → takes_few job.command job.numbers.runs ≡ few → basis.circuit ≡ circuit.now
        → IfErr result
        (ReadStops job basis in_port.Tests name.now (D.view desk.old) (D.view desk.new)) }
{
    if few {
        read_few_tests(alloc, desk, name, circuit)
    } else {
        read_tests(alloc, desk, name, circuit, u64::MAX)
    }
}

/// The vectors that the user gives to `gen`, read from their file; without one there are none, and the desk isn't called.
///
/// # Errors
/// Those of `read_tests`.
pub fn read_first<D: Desk>(
    alloc: Global,
    desk: &mut D,
    circuit: &Circuit,
    name: &Option<FileName>,
) -> Result<Vectors, RunError>
    requires { IsCircuit circuit.now }
    ensures width { IfOk result (λ list. list.width ≡ circuit.now.inputs) }
    ensures widths { IfOk result (λ list. AreVectorsOf circuit.now list.list) }
    ensures none { name.now ≡ None → IfOk result (λ list. list.list ≡ []) }
    ensures read { (job : Asked) (basis : JobBasis) (first : DeskView) → job.command ≡ gen
        → input_name job in_port.Tests ≡ name.now → basis.circuit ≡ circuit.now
        → HasReadTo job basis 2 first (D.view desk.old)
        → IfOk result (λ list. basis.content.list ≡ list.list
        → HasReadTo job basis 3 first (D.view desk.new)) }
    ensures stopped { (job : Asked) (basis : JobBasis) (first : DeskView) → job.command ≡ gen
        → input_name job in_port.Tests ≡ name.now → basis.circuit ≡ circuit.now
        → HasFault job basis.circuit → HasReadTo job basis 2 first (D.view desk.old)
        → IfErr result (EndsReading job first (D.view desk.new)) }
{
    match name {
        Some(name) => read_tests(alloc, desk, name.as_str(), circuit, u64::MAX),
        None => Ok(Vectors::new(alloc, circuit.inputs())),
    }
}
