//! The start, from its file to a value for each flip-flop.
ghost use Rattle.std.specs.Prelude.{◌≡◌, ◌≤◌, ◌+◌, ◌<◌, List, length, IfOk, IfErr, MatchOption, None, Some, true};
ghost use Rattle.ht_ports.specs.Desk.{DeskView, InCall};
ghost use Rattle.ht_ports.specs.declared.ports.InPort.TheVariants as in_port;
ghost use Rattle.ht_tern.specs.declared.tern.Tern.{Tern};
ghost use Rattle.ht_net.specs.Circuit.Netlist.{IsCircuit};
ghost use Rattle.ht_net.specs.Detect.Detection.{IsStart, unknown_state};
ghost use Rattle.ht_inputs.specs.declared.run_error.RunError.TheVariants as error;
ghost use Rattle.ht_texts.specs.StartTexts.{IsStartLine, IsStartText};
ghost use Rattle.ht_asked.specs.Asked.{Asked};
ghost use Rattle.ht_inputs.specs.Inputs.{JobBasis, WasRead};
ghost use Rattle.ht_inputs.specs.Jobs.{input_name, may_state_start};
ghost use Rattle.ht_inputs.specs.Reading.{EndsReading, HasReadTo, ReadStops};

use crate::judged_file::{LineJudge, read_lines};
use crate::run_error::RunError;
use ht_net::{Circuit, unknown_start};
use ht_ports::{Desk, InPort};
use ht_tern::Tern;
use ht_texts::read_start;
use ht_words::FileName;
use std::alloc::{AllocError, Global};

// The start whose line this is; `None` where it is that of none, or isn't the first.
fn read_first(
    alloc: Global,
    number: u64,
    line: &[u8],
    width: u32,
) -> Result<Option<Vec<Tern>>, AllocError>
    ensures { IfOk result (λ read. MatchOption read
        ((start : List Tern) → IsStartLine width line.now start → 1 < number)
        (λ start. IsStartLine width line.now start.items × (number ≤ 1))) }
{
    if number > 1 {
        return Ok(None);
    }
    read_start(alloc, line, width)
}

// The start that was read, where there is one.
fn whole(start: Option<Vec<Tern>>) -> Result<Vec<Tern>, RunError>
    ensures read { IfOk result (λ values. start ≡ Some values) }
    ensures none { IfErr result (λ e. (start ≡ None) × (e ≡ error.BadStart 1)) }
{
    match start {
        Some(values) => Ok(values),
        None => Err(RunError::BadStart { line: 1 }),
    }
}

// Reads a start, line by line. A line that is missing is read as an empty one.
#[derive(Drop)]
struct StartReader {
    alloc: Global,
    start: Option<Vec<Tern>>,
    width: u32,
}

impl LineJudge for StartReader {
    ghost use Rattle.ht_net.specs.Circuit.Netlist.{max_dffs};
    ghost use Rattle.ht_inputs.specs.declared.run_error.RunError.TheVariants.{BadStart};
    ghost use Rattle.ht_inputs.specs.Judging.{StandsForStart};

    ghost most_bytes = { max_dffs };

    ghost live = { λ reader. Unit {0} };

    ghost stands = { λ reader basis lines. (reader.width ≡ length basis.circuit.dffs)
        × StandsForStart reader.start basis lines };

    // no start has the line, or it isn't the first
    ghost is_wrong = { λ basis before line error. (error ≡ BadStart (length before + 1))
        × ((start : List Tern) → IsStartLine (length basis.circuit.dffs) line start
        → 0 < length before) };

    ghost error_at = { BadStart };

    fn take(&mut self, number: u64, line: &[u8]) -> Result<(), RunError> {
        let Some(start) = read_first(self.alloc, number, line, self.width)? else {
            return Err(RunError::BadStart { line: number });
        };
        self.start = Some(start);
        Ok(())
    }

    fn longest(&self) -> u32 {
        // a circuit has at most so many flip-flops
        16_384
    }

    fn too_long(&self, line: u64) -> RunError {
        RunError::BadStart { line }
    }
}

// Opens the start and reads a value for each flip-flop.
fn read_start_file<D: Desk>(
    alloc: Global,
    desk: &mut D,
    name: &str,
    circuit: &Circuit,
) -> Result<Vec<Tern>, RunError>
    requires { IsCircuit circuit.now }
    ensures frame { InCall in_port.Extra (D.view desk.old) (D.view desk.new) }
    ensures latches { IfOk result (λ start. IsStart circuit.now start.items) }
    ensures read { IfOk result (λ start. WasRead in_port.Extra name.now
        (λ text. IsStartText (length circuit.now.dffs) text start.items) (D.view desk.old)) }
    ensures stops { (job : Asked) (basis : JobBasis) → may_state_start job ≡ true
        → basis.circuit ≡ circuit.now → IfErr result
        (ReadStops job basis in_port.Extra name.now (D.view desk.old) (D.view desk.new)) }
{
    let width = circuit.dffs();
    let mut reader = StartReader {
        alloc,
        start: read_start(alloc, &[], width)?,
        width,
    };
    read_lines(alloc, desk, InPort::Extra, name, u64::MAX, &mut reader)?;
    whole(reader.start)
}

/// The start that a job states, read from its file, or all-unknown where it states none; then the desk isn't called.
///
/// # Errors
/// - `ReadFault`: the desk counted a fault.
/// - `BadStart`: the text is no start of the circuit.
/// - `NoMemory`: out of memory.
pub fn read_stated<D: Desk>(
    alloc: Global,
    desk: &mut D,
    circuit: &Circuit,
    name: &Option<FileName>,
) -> Result<Vec<Tern>, RunError>
    requires { IsCircuit circuit.now }
    ensures latches { IfOk result (λ start. IsStart circuit.now start.items) }
    ensures unstated { name.now ≡ None
        → IfOk result (λ start. start.items ≡ unknown_state circuit.now) }
    ensures read { (job : Asked) (basis : JobBasis) (first : DeskView) → may_state_start job ≡ true
        → input_name job in_port.Extra ≡ name.now → basis.circuit ≡ circuit.now
        → HasReadTo job basis 1 first (D.view desk.old)
        → IfOk result (λ start. basis.content.start ≡ start.items
        → HasReadTo job basis 2 first (D.view desk.new)) }
    ensures stopped { (job : Asked) (basis : JobBasis) (first : DeskView) → may_state_start job ≡
        true
        → input_name job in_port.Extra ≡ name.now → basis.circuit ≡ circuit.now
        → HasReadTo job basis 1 first (D.view desk.old)
        → IfErr result (EndsReading job first (D.view desk.new)) }
{
    match name {
        Some(name) => read_start_file(alloc, desk, name.as_str(), circuit),
        None => Ok(unknown_start(alloc, circuit)?),
    }
}
