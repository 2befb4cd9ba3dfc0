//! What the netlist, the start and the tests say, by which a report and proofs are judged.
ghost use Rattle.std.specs.Prelude.{◌≡◌, IfOk, IfErr};
ghost use Rattle.ht_ports.specs.Desk.{InCall};
ghost use Rattle.ht_ports.specs.declared.ports.InPort.TheVariants as in_port;
ghost use Rattle.ht_net.specs.Circuit.Netlist.{IsCircuit};
ghost use Rattle.ht_net.specs.Detect.Detection.{IsStart};
ghost use Rattle.ht_faults.specs.Sites.{faults_of};
ghost use Rattle.ht_faults.specs.Classes.{AreClasses};
ghost use Rattle.ht_asked.specs.Asked.{Asked};
ghost use Rattle.ht_inputs.specs.Grading.{DeniesTests, IsGraded, JudgesFiles, TestsDetect, denied_tests};
ghost use Rattle.ht_inputs.specs.Inputs.{JobBasis};
ghost use Rattle.ht_inputs.specs.Reading.{EndsReading, ReadStops};

use crate::listed::{Listed, list_faults};
use crate::netlist::read_netlist;
use crate::run_error::RunError;
use crate::start_file::read_stated;
use crate::vectors_file::read_tests;
use ht_net::{Circuit, Place};
use ht_ports::Desk;
use ht_proofs::first_detections_from;
use ht_tern::Tern;
use ht_valid::Trouble;
use ht_words::{FileName, RunFiles};
use std::alloc::Global;

/// A circuit with its faults, a start, and where tests detect each representative first from it.
#[derive(Drop)]
pub struct Graded {
    /// The circuit of the netlist.
    pub circuit: Circuit,
    /// Its faults and their classes.
    pub listed: Listed,
    /// What each flip-flop holds at the start.
    pub start: Vec<Tern>,
    /// The first detection of each representative, by number from 0.
    pub places: Vec<Option<Place>>,
}

// A line of the tests that is no vector is the first trouble.
fn denied(error: RunError) -> RunError
    ensures { result ≡ denied_tests error }
{
    match error {
        RunError::BadTests { line } => RunError::Denied {
            trouble: Trouble::Tests { line },
        },
        error => error,
    }
}

// Reads the tests and simulates them from a start: where they detect each representative first.
fn read_places<D: Desk>(
    alloc: Global,
    desk: &mut D,
    name: &str,
    circuit: &Circuit,
    listed: &Listed,
    start: &[Tern],
) -> Result<Vec<Option<Place>>, RunError>
    requires circuit { IsCircuit circuit.now }
    requires faults { listed.now.faults ≡ faults_of circuit.now }
    requires classes { AreClasses circuit.now listed.now.classes }
    requires latches { IsStart circuit.now start.now }
    ensures frame { InCall in_port.Tests (D.view desk.old) (D.view desk.new) }
    ensures read { IfOk result (λ places. TestsDetect circuit.now listed.now.classes start.now
        name.now (D.view desk.old) places.items) }
    ensures stops { (job : Asked) (basis : JobBasis) → DeniesTests job
        → basis.circuit ≡ circuit.now → IfErr result
        (ReadStops job basis in_port.Tests name.now (D.view desk.old) (D.view desk.new)) }
{
    let list = match read_tests(alloc, desk, name, circuit, u64::MAX) {
        Ok(list) => list,
        Err(error) => return Err(denied(error)),
    };
    let Listed { faults, classes } = listed;
    let places = first_detections_from(alloc, circuit, faults, classes, start, &list)?;
    Ok(places)
}

/// Reads the netlist, the start if one is stated, and the tests, each to its end or to the first trouble, and simulates.
///
/// # Errors
/// - `Denied`: a line of the tests is no vector.
/// - Those of the files, or out of memory.
pub fn read_graded<D: Desk>(
    alloc: Global,
    files: &RunFiles,
    start: &Option<FileName>,
    desk: &mut D,
) -> Result<Graded, RunError>
    ensures graded { IfOk result
        (IsGraded files.now start.now (D.view desk.old) (D.view desk.new)) }
    ensures stopped { (job : Asked) → JudgesFiles job files.now start.now
        → IfErr result (EndsReading job (D.view desk.old) (D.view desk.new)) }
{
    let circuit = read_netlist(alloc, desk, files.netlist.as_str())?;
    let listed = list_faults(alloc, &circuit)?;
    let start = read_stated(alloc, desk, &circuit, start)?;
    let places = read_places(alloc, desk, files.tests.as_str(), &circuit, &listed, &start)?;
    Ok(Graded {
        circuit,
        listed,
        start,
        places,
    })
}
