//! The command `report`.
ghost use Rattle.std.specs.Prelude.{◌≡◌, ◌≤◌, ◌++◌, length, IfOk};
ghost use Rattle.ht_ports.specs.declared.ports.OutPort.TheVariants as out_port;
ghost use Rattle.ht_faults.specs.Sites.{faults_of};
ghost use Rattle.ht_texts.specs.SearchReports.{HasPlainNames, IsSearchOf};
ghost use Rattle.ht_asked.specs.declared.limits.TheConstants.{MAX_BUDGET, MIN_BUDGET};
ghost use Rattle.ht_words.specs.Jobs.{asked_by};
ghost use Rattle.ht_words.specs.declared.job.Job.TheVariants as job_of;
ghost use Rattle.ht_inputs.specs.Grading.{IsOfCircuit};
ghost use Rattle.ht_app.specs.Outputs.{IsReportOfVerdicts, file_acts};
ghost use Rattle.ht_app.specs.Steps.{Prepares};

use crate::made::{Made, or_no_memory, report_of};
use ht_files::TextSize;
use ht_inputs::{Graded, RunError, read_graded, read_verdicts};
use ht_judge::Claims;
use ht_ports::Desk;
use ht_words::{FileName, RunFiles};
use std::alloc::{AllocError, Global};

// The report of what is claimed.
fn report_texts(alloc: Global, graded: &Graded, claims: &Claims) -> Result<Made, AllocError>
    requires graded { IsOfCircuit graded.now }
    requires plain { HasPlainNames graded.now.circuit }
    requires search { IsSearchOf graded.now.circuit graded.now.listed.classes
        (length (faults_of graded.now.circuit)) claims.now.budget claims.now.saids.items }
    ensures { IfOk result (λ made. IsReportOfVerdicts graded.now.circuit graded.now.listed.classes
        claims.now.budget claims.now.saids.items (made.body.items ++ made.total.items)
        made.total.items) }
{
    let budget = Some(claims.budget);
    let made = report_of(
        alloc,
        &graded.circuit,
        &graded.listed,
        budget,
        &claims.saids,
    )?;
    let mut size = TextSize::new();
    size.add(&made.body)?;
    size.add(&made.total)?;
    Ok(made)
}

/// Reads the netlist, the start if one is stated, the tests and the proofs, in this order, and makes the report that they
/// justify for the budget.
///
/// # Errors
/// - `Denied`: the first trouble, a line of the tests or of the proofs, or the number of a fault whose entry is wrong.
/// - Those of the files, or out of memory.
pub fn report<D: Desk>(
    alloc: Global,
    files: &RunFiles,
    budget: u64,
    start: &Option<FileName>,
    desk: &mut D,
) -> Result<Made, RunError>
    requires { (MIN_BUDGET ≤ budget) × (budget ≤ MAX_BUDGET) }
    ensures { Prepares (asked_by (job_of.Report files.now budget start.now))
        (λ made. file_acts out_port.Report files.now.report made.body.items made.total.items)
        result (D.view desk.old) (D.view desk.new) }
{
    let graded = read_graded(alloc, files, start, desk)?;
    let claims = read_verdicts(alloc, desk, files.proofs.as_str(), &graded, budget)?;
    let made = report_texts(alloc, &graded, &claims);
    // for the proof: dropped by name
    drop(graded);
    or_no_memory(made)
}
