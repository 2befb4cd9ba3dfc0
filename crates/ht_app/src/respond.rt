//! The command `respond`.
ghost use Rattle.std.specs.Prelude.{◌≡◌, ◌≤◌, List, ℕ, IfOk, IfErr, IfSome};
ghost use Rattle.ht_texts.specs.Lines.{with_lf};
ghost use Rattle.ht_net.specs.Detect.Detection.{IsStart};
ghost use Rattle.ht_dictionary.specs.Responses.{AreRowTexts, IsLineResponses, IsResponses};
ghost use Rattle.ht_words.specs.Jobs.{asked_by};
ghost use Rattle.ht_words.specs.declared.job.Job.TheVariants as job_of;
ghost use Rattle.ht_app.specs.Outputs.{AreTextsOf, IsMachineOf, response_acts};
ghost use Rattle.ht_inputs.specs.Refusals.{FaultStops};
ghost use Rattle.ht_app.specs.Steps.{EndsJob, Prepares};

use crate::made::or_no_memory;
use crate::output::write_report;
use ht_asked::{MAX_FAULT, MIN_FAULT};
use ht_dictionary::{
    trace, write_last_response, write_lines_total, write_response_body, write_response_total,
};
use ht_inputs::{RunError, read_netlist, read_stated, read_tests};
use ht_net::{Circuit, Fault, Vectors};
use ht_ports::Desk;
use ht_serial::Observation;
use ht_tern::Tern;
use ht_words::FileName;
use std::alloc::{AllocError, Global};

/// What `respond` writes.
#[derive(Drop)]
pub struct ResponseTexts {
    /// The responses without their last line.
    pub body: Vec<u8>,
    /// The line for Out.
    pub said: Vec<u8>,
    /// The last line, empty where there is no vector.
    pub last: Vec<u8>,
}

// The fault of this number, from 1, or none where no number is given.
fn named_fault(
    alloc: Global,
    circuit: &Circuit,
    number: Option<u32>,
) -> Result<Option<Fault>, RunError>
    requires { IfSome number (λ n. (MIN_FAULT ≤ n) × (n ≤ MAX_FAULT)) }
    ensures machine { IfOk result (λ fault. IsMachineOf circuit.now number fault) }
    ensures stops { IfErr result (FaultStops circuit.now number) }
{
    let Some(number) = number else {
        return Ok(None);
    };
    let faults = ht_faults::list(alloc, circuit)?;
    if number > faults.len() {
        return Err(RunError::NoSuchFault {
            faults: u64::from(faults.len()),
        });
    }
    Ok(Some(faults.get(number - 1)))
}

// Makes what is written of these rows, of which this line is said.
fn row_texts(alloc: Global, shown: &Observation, said: Vec<u8>) -> Result<ResponseTexts, AllocError>
    ensures { (line : List ℕ) → said.items ≡ with_lf line
        → IfOk result (λ texts. AreRowTexts shown.now.rows line
        texts.body.items texts.last.items texts.said.items) }
{
    let body = write_response_body(alloc, shown)?;
    let last = write_last_response(alloc, shown)?;
    Ok(ResponseTexts { body, said, last })
}

// Runs the machine over the vectors, and makes what is written of its outputs.
fn response_texts(
    alloc: Global,
    circuit: &Circuit,
    fault: Option<Fault>,
    start: &[Tern],
    list: &Vectors,
) -> Result<ResponseTexts, AllocError>
    requires latches { IsStart circuit.now start.now }
    requires width { list.now.width ≡ circuit.now.inputs }
    ensures { IfOk result (λ texts. IsResponses circuit.now fault start.now list.now.list
        texts.body.items texts.last.items texts.said.items) }
{
    let shown = ht_serial::respond(alloc, circuit, fault, start, list)?;
    let said = write_response_total(alloc, list.len(), circuit.outputs())?;
    row_texts(alloc, &shown, said)
}

// Runs the machine over the vectors, and makes what is written of its nets.
fn line_texts(
    alloc: Global,
    circuit: &Circuit,
    fault: Option<Fault>,
    start: &[Tern],
    list: &Vectors,
) -> Result<ResponseTexts, AllocError>
    requires latches { IsStart circuit.now start.now }
    requires width { list.now.width ≡ circuit.now.inputs }
    ensures { IfOk result (λ texts. IsLineResponses circuit.now fault start.now list.now.list
        texts.body.items texts.last.items texts.said.items) }
{
    let shown = trace(alloc, circuit, fault, start, list)?;
    let said = write_lines_total(alloc, list.len(), circuit.nets())?;
    row_texts(alloc, &shown, said)
}

// The same at the nets or at the outputs.
fn machine_texts(
    alloc: Global,
    circuit: &Circuit,
    fault: Option<Fault>,
    start: &[Tern],
    list: &Vectors,
    lines: bool,
) -> Result<ResponseTexts, AllocError>
    requires latches { IsStart circuit.now start.now }
    requires width { list.now.width ≡ circuit.now.inputs }
    ensures { IfOk result (λ texts. AreTextsOf lines circuit.now fault start.now list.now.list
        texts.body.items texts.last.items texts.said.items) }
{
    if lines {
        line_texts(alloc, circuit, fault, start, list)
    } else {
        response_texts(alloc, circuit, fault, start, list)
    }
}

// Reads the netlist and the start, if one is stated, finds the fault, reads the tests, and makes what is written.
fn make_texts<D: Desk>(
    alloc: Global,
    netlist: &str,
    tests: &str,
    number: Option<u32>,
    start: &Option<FileName>,
    lines: bool,
    desk: &mut D,
) -> Result<ResponseTexts, RunError>
    requires { IfSome number (λ n. (MIN_FAULT ≤ n) × (n ≤ MAX_FAULT)) }
    ensures { (out : List ℕ) → Prepares
        (asked_by (job_of.Respond netlist.now tests.now out number start.now lines))
        (λ texts. response_acts out texts.body.items texts.said.items texts.last.items) result
        (D.view desk.old) (D.view desk.new) }
{
    let circuit = read_netlist(alloc, desk, netlist)?;
    let start = read_stated(alloc, desk, &circuit, start)?;
    let fault = named_fault(alloc, &circuit, number)?;
    let list = read_tests(alloc, desk, tests, &circuit, u64::MAX)?;
    let made = machine_texts(alloc, &circuit, fault, &start, &list, lines);
    // for the proof: dropped by name
    drop(circuit);
    or_no_memory(made)
}

/// Runs `respond`: reads the netlist, the start if one is stated, and the tests, and writes what the machine shows over
/// them, at each net where lines are asked for and else at each output: the one with the fault of the number, from 1, or
/// without a number the good one.
///
/// # Errors
/// Those of the run.
pub fn respond<D: Desk>(
    alloc: Global,
    netlist: &FileName,
    tests: &FileName,
    out: &FileName,
    number: Option<u32>,
    start: &Option<FileName>,
    lines: bool,
    desk: &mut D,
) -> Result<(), RunError>
    requires { IfSome number (λ n. (MIN_FAULT ≤ n) × (n ≤ MAX_FAULT)) }
    ensures { EndsJob
        (asked_by (job_of.Respond netlist.now tests.now out.now number start.now lines)) result
        (D.view desk.old) (D.view desk.new) }
{
    let texts = make_texts(
        alloc,
        netlist.as_str(),
        tests.as_str(),
        number,
        start,
        lines,
        desk,
    )?;
    write_report(desk, out.as_str(), &texts.body, &texts.said, &texts.last)
}
