//! The report of a full search.
ghost use Rattle.std.specs.Prelude.{◌≡◌, ◌<◌, ◌≤◌, ◌+◌, ◌++◌, List, length, IfOk};
ghost use Rattle.ht_net.specs.Circuit.Netlist.{IsCircuit};
ghost use Rattle.ht_faults.specs.Sites.{faults_of};
ghost use Rattle.ht_faults.specs.Classes.{AreClasses};
ghost use Rattle.ht_ports.specs.LineRule.{max_text_bytes};
ghost use Rattle.ht_texts.specs.SearchReports.{HasPlainNames, IsBudget};
ghost use Rattle.ht_valid.specs.ValidFiles.{IsOwn};
ghost use Rattle.ht_engine.specs.declared.settings.Settings.{Settings};
ghost use Rattle.ht_engine.specs.declared.step.Step as made;
ghost use Rattle.ht_files.specs.Saids.{AreSaidIn, IsSaidIn};
ghost use Rattle.ht_files.specs.Searched.{IsSearched, TellAll};
ghost use Rattle.ht_files.specs.StepTexts.{proofs_of, tests_of};

use crate::report::{Report, check_size};
use ht_faults::{Classes, FaultList};
use ht_net::Circuit;
use ht_texts::{Said, Sums, write_body, write_total};
use ht_verdicts::Verdicts;
use std::alloc::{AllocError, Global};

/// The report of a search that keeps verdicts, in which nothing is aborted.
///
/// # Errors
/// Out of memory; so it is also where the report would have more than 2^62 bytes.
pub fn write_searched(
    alloc: Global,
    circuit: &Circuit,
    faults: &FaultList,
    classes: &Classes,
    budget: u64,
    verdicts: &Verdicts,
) -> Result<Report, AllocError>
    requires circuit { verdicts.now.circuit ≡ circuit.now }
    requires faults { faults.now ≡ faults_of circuit.now }
    requires classes { AreClasses circuit.now classes.now }
    requires representatives { verdicts.now.representatives ≡ classes.now }
    requires budget { IsBudget budget }
    ensures { (settings : Settings) (steps : List made.Step) → settings.budget ≡ budget
        → TellAll verdicts.now settings steps → HasPlainNames circuit.now
        → length (tests_of steps) ≤ max_text_bytes
        → length (proofs_of settings steps) ≤ max_text_bytes
        → IfOk result (λ report. IsSearched circuit.now settings (tests_of steps)
        (report.body.items ++ report.total.items) (proofs_of settings steps)
        report.total.items) }
{
    // for the proof: the circuit is well formed, and entries decide their faults
    let _ = circuit.nets();
    verdicts.entries_decide();
    verdicts.are_justified();
    let saids = find_saids(alloc, faults, classes, verdicts)?;
    let body = write_body(alloc, circuit, faults, classes, Some(budget), &saids)?;
    let total = write_total(alloc, Sums::of(classes, &saids, true))?;
    check_size(&body, &total)?;
    Ok(Report { body, total })
}

// What is said of each fault.
fn find_saids(
    alloc: Global,
    faults: &FaultList,
    classes: &Classes,
    verdicts: &Verdicts,
) -> Result<Vec<Said>, AllocError>
    requires faults { faults.now ≡ faults_of verdicts.now.circuit }
    requires every { length classes.now ≡ length faults.now }
    requires representatives { verdicts.now.representatives ≡ classes.now }
    ensures { IfOk result (λ saids. AreSaidIn verdicts.now (length faults.now) saids.items) }
{
    let mut saids = Vec::new(alloc);
    for i in 0..faults.len() {
        let said = find_said(classes, verdicts, i);
        saids.push(said)?;
    }
    Ok(saids)
}

// What is said of a fault: of one that represents no class, nothing that has an effect.
fn find_said(classes: &Classes, verdicts: &Verdicts, i: u32) -> Said
    requires listed { i < length (faults_of verdicts.now.circuit) }
    requires every { length classes.now ≡ length (faults_of verdicts.now.circuit) }
    requires representatives { verdicts.now.representatives ≡ classes.now }
    ensures { IsOwn verdicts.now.circuit verdicts.now.representatives i
        → IsSaidIn verdicts.now i result }
{
    if classes.of(i) == i {
        verdicts.said(i)
    } else {
        Said::Undetected
    }
}
