//! The command `sim`.
ghost use Rattle.std.specs.Prelude.{◌≡◌, ◌≤◌, ◌++◌, List, ℕ, length, IfOk};
ghost use Rattle.ht_ports.specs.LineRule.{max_text_bytes};
ghost use Rattle.ht_ports.specs.declared.ports.OutPort.TheVariants as out_port;
ghost use Rattle.ht_net.specs.Detect.Detection.{IsStart};
ghost use Rattle.ht_faults.specs.Sites.{faults_of};
ghost use Rattle.ht_faults.specs.Classes.{AreClasses};
ghost use Rattle.ht_words.specs.Jobs.{asked_by};
ghost use Rattle.ht_words.specs.declared.job.Job.TheVariants as job_of;
ghost use Rattle.ht_app.specs.Outputs.{IsReportOf, file_acts};
ghost use Rattle.ht_app.specs.Simulated.{SayDetections};
ghost use Rattle.ht_app.specs.Steps.{Prepares};

use crate::made::{Made, or_no_memory, report_of};
use ht_inputs::{Listed, RunError, list_faults, read_netlist, read_stated, read_tests};
use ht_net::{Circuit, Vectors};
use ht_ports::Desk;
use ht_proofs::first_detections_from;
use ht_tern::Tern;
use ht_texts::{Said, saids_of};
use ht_words::FileName;
use std::alloc::{AllocError, Global};

// What the vectors show of each fault, from the start.
fn simulated(
    alloc: Global,
    circuit: &Circuit,
    listed: &Listed,
    start: &[Tern],
    list: &Vectors,
) -> Result<Vec<Said>, AllocError>
    requires faults { listed.now.faults ≡ faults_of circuit.now }
    requires classes { AreClasses circuit.now listed.now.classes }
    requires latches { IsStart circuit.now start.now }
    requires width { list.now.width ≡ circuit.now.inputs }
    ensures { IfOk result (λ saids. SayDetections circuit.now listed.now.classes start.now
        list.now.list saids.items) }
{
    let Listed { faults, classes } = listed;
    let places = first_detections_from(alloc, circuit, faults, classes, start, list)?;
    saids_of(alloc, &places)
}

// The report of these faults over the vectors, from the start.
fn report_listed(
    alloc: Global,
    circuit: &Circuit,
    listed: &Listed,
    start: &[Tern],
    list: &Vectors,
) -> Result<Made, AllocError>
    requires faults { listed.now.faults ≡ faults_of circuit.now }
    requires classes { AreClasses circuit.now listed.now.classes }
    requires latches { IsStart circuit.now start.now }
    requires width { list.now.width ≡ circuit.now.inputs }
    requires few { length list.now.list ≤ max_text_bytes }
    ensures { IfOk result
        (λ texts. IsReportOf circuit.now start.now list.now.list
        (texts.body.items ++ texts.total.items) texts.total.items) }
{
    let saids = simulated(alloc, circuit, listed, start, list)?;
    report_of(alloc, circuit, listed, None, &saids)
}

// Simulates the representative of each class of faults over the vectors, from the start.
fn report_texts(
    alloc: Global,
    circuit: &Circuit,
    start: &[Tern],
    list: &Vectors,
) -> Result<Made, AllocError>
    requires latches { IsStart circuit.now start.now }
    requires width { list.now.width ≡ circuit.now.inputs }
    requires few { length list.now.list ≤ max_text_bytes }
    ensures { IfOk result
        (λ texts. IsReportOf circuit.now start.now list.now.list
        (texts.body.items ++ texts.total.items) texts.total.items) }
{
    let listed = list_faults(alloc, circuit)?;
    let made = report_listed(alloc, circuit, &listed, start, list);
    // for the proof: dropped by name
    drop(listed);
    made
}

/// Reads the netlist, the start if one is stated, and the tests, in this order, simulates, and makes the report.
///
/// # Errors
/// Those of the files, or out of memory.
pub fn simulate<D: Desk>(
    alloc: Global,
    netlist: &FileName,
    tests: &FileName,
    start: &Option<FileName>,
    desk: &mut D,
) -> Result<Made, RunError>
    ensures { (report : List ℕ) → Prepares
        (asked_by (job_of.Sim netlist.now tests.now report start.now))
        (λ made. file_acts out_port.Report report made.body.items made.total.items) result
        (D.view desk.old) (D.view desk.new) }
{
    let circuit = read_netlist(alloc, desk, netlist.as_str())?;
    let start = read_stated(alloc, desk, &circuit, start)?;
    let list = read_tests(alloc, desk, tests.as_str(), &circuit, u64::MAX)?;
    or_no_memory(report_texts(alloc, &circuit, &start, &list))
}
