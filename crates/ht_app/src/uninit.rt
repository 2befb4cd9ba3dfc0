//! The command `uninit`.
ghost use Rattle.std.specs.Prelude.{◌≡◌, ◌++◌, List, ℕ, IfOk};
ghost use Rattle.ht_ports.specs.declared.ports.OutPort.TheVariants as out_port;
ghost use Rattle.ht_faults.specs.Sites.{faults_of};
ghost use Rattle.ht_faults.specs.Classes.{AreClasses};
ghost use Rattle.ht_words.specs.Jobs.{asked_by};
ghost use Rattle.ht_words.specs.declared.job.Job.TheVariants as job_of;
ghost use Rattle.ht_app.specs.Outputs.{IsUninitReport, file_acts};
ghost use Rattle.ht_app.specs.Steps.{Prepares};

use crate::made::{Made, or_no_memory};
use ht_inputs::{Listed, RunError, list_faults, read_netlist};
use ht_net::Circuit;
use ht_ports::Desk;
use ht_uninit::{uninit_of_all, write_uninit_body, write_uninit_total};
use ht_words::FileName;
use std::alloc::{AllocError, Global};

// Finds the flip-flops that never get a definite value, and which of these faults they hide; each search has the budget.
fn texts_for(
    alloc: Global,
    circuit: &Circuit,
    listed: &Listed,
    budget: u64,
) -> Result<Made, AllocError>
    requires faults { listed.now.faults ≡ faults_of circuit.now }
    requires classes { AreClasses circuit.now listed.now.classes }
    ensures { IfOk result (λ made. IsUninitReport circuit.now budget
        (made.body.items ++ made.total.items) made.total.items) }
{
    let Listed { faults, classes } = listed;
    let answer = uninit_of_all(alloc, circuit, faults, budget)?;
    let body = write_uninit_body(alloc, circuit, faults, classes, budget, &answer)?;
    let total = write_uninit_total(alloc, circuit, classes, &answer)?;
    Ok(Made { body, total })
}

// Finds the flip-flops that never get a definite value, and the faults that they hide; each search has the budget.
fn uninit_texts(alloc: Global, circuit: &Circuit, budget: u64) -> Result<Made, AllocError>
    ensures { IfOk result (λ made. IsUninitReport circuit.now budget
        (made.body.items ++ made.total.items) made.total.items) }
{
    let listed = list_faults(alloc, circuit)?;
    let made = texts_for(alloc, circuit, &listed, budget);
    // for the proof: dropped by name
    drop(listed);
    made
}

/// Reads the netlist, does the work, and makes the report.
///
/// # Errors
/// Those of the netlist, or out of memory.
pub fn uninit<D: Desk>(
    alloc: Global,
    netlist: &FileName,
    budget: u64,
    desk: &mut D,
) -> Result<Made, RunError>
    ensures { (out : List ℕ) → Prepares (asked_by (job_of.Uninit netlist.now out budget))
        (λ made. file_acts out_port.Report out made.body.items made.total.items) result
        (D.view desk.old) (D.view desk.new) }
{
    let circuit = read_netlist(alloc, desk, netlist.as_str())?;
    let made = uninit_texts(alloc, &circuit, budget);
    // for the proof: dropped by name
    drop(circuit);
    or_no_memory(made)
}
