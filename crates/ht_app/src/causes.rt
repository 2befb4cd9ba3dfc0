//! The command `causes`.
ghost use Rattle.std.specs.Prelude.{◌≡◌, ◌++◌, List, ℕ, IfOk};
ghost use Rattle.ht_ports.specs.declared.ports.OutPort.TheVariants as out_port;
ghost use Rattle.ht_net.specs.Detect.Detection.{IsStart};
ghost use Rattle.ht_faults.specs.Sites.{faults_of};
ghost use Rattle.ht_faults.specs.Classes.{AreClasses};
ghost use Rattle.ht_words.specs.Jobs.{asked_by};
ghost use Rattle.ht_words.specs.declared.job.Job.TheVariants as job_of;
ghost use Rattle.ht_app.specs.Outputs.{IsCausesReport, file_acts};
ghost use Rattle.ht_app.specs.Steps.{EndsJob, Prepares};

use crate::made::{Made, or_no_memory};
use crate::output::finish;
use ht_causes::{find_causes, write_causes_body, write_causes_total};
use ht_inputs::{Listed, RunError, list_faults, read_netlist, read_stated, read_tests};
use ht_net::{Circuit, Vectors};
use ht_ports::{Desk, OutPort};
use ht_tern::Tern;
use ht_words::FileName;
use std::alloc::{AllocError, Global};

// The report of the causes of these faults over the vectors, from the start.
fn report_listed(
    alloc: Global,
    circuit: &Circuit,
    listed: &Listed,
    start: &[Tern],
    list: &Vectors,
) -> Result<Made, AllocError>
    requires faults { listed.now.faults ≡ faults_of circuit.now }
    requires classes { AreClasses circuit.now listed.now.classes }
    requires latches { IsStart circuit.now start.now }
    requires width { list.now.width ≡ circuit.now.inputs }
    ensures { IfOk result
        (λ texts. IsCausesReport circuit.now start.now list.now.list
        (texts.body.items ++ texts.total.items) texts.total.items) }
{
    let Listed { faults, classes } = listed;
    let causes = find_causes(alloc, circuit, faults, classes, start, list)?;
    let body = write_causes_body(alloc, circuit, faults, classes, &causes)?;
    let total = write_causes_total(alloc, classes, &causes)?;
    Ok(Made { body, total })
}

// Why the vectors don't detect the representative of each class of faults.
fn report_texts(
    alloc: Global,
    circuit: &Circuit,
    start: &[Tern],
    list: &Vectors,
) -> Result<Made, AllocError>
    requires latches { IsStart circuit.now start.now }
    requires width { list.now.width ≡ circuit.now.inputs }
    ensures { IfOk result
        (λ texts. IsCausesReport circuit.now start.now list.now.list
        (texts.body.items ++ texts.total.items) texts.total.items) }
{
    let listed = list_faults(alloc, circuit)?;
    let made = report_listed(alloc, circuit, &listed, start, list);
    // for the proof: dropped by name
    drop(listed);
    made
}

// Reads the netlist, the start if one is stated, and the tests, in this order, simulates, and makes the report.
fn explain<D: Desk>(
    alloc: Global,
    netlist: &FileName,
    tests: &FileName,
    start: &Option<FileName>,
    desk: &mut D,
) -> Result<Made, RunError>
    ensures { (report : List ℕ) → Prepares
        (asked_by (job_of.Causes netlist.now tests.now report start.now))
        (λ made. file_acts out_port.Report report made.body.items made.total.items) result
        (D.view desk.old) (D.view desk.new) }
{
    let circuit = read_netlist(alloc, desk, netlist.as_str())?;
    let start = read_stated(alloc, desk, &circuit, start)?;
    let list = read_tests(alloc, desk, tests.as_str(), &circuit, u64::MAX)?;
    or_no_memory(report_texts(alloc, &circuit, &start, &list))
}

/// Writes a report that says why the tests don't detect each fault, or where they do.
///
/// # Errors
/// Those of the files, out of memory, or a write failed.
pub fn causes<D: Desk>(
    alloc: Global,
    netlist: &FileName,
    tests: &FileName,
    out: &FileName,
    start: &Option<FileName>,
    desk: &mut D,
) -> Result<(), RunError>
    ensures { EndsJob (asked_by (job_of.Causes netlist.now tests.now out.now start.now)) result
        (D.view desk.old) (D.view desk.new) }
{
    let made = explain(alloc, netlist, tests, start, desk);
    finish(desk, OutPort::Report, out, made)
}
