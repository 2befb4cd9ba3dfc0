//! The command `sync`.
ghost use Rattle.std.specs.Prelude.{◌≡◌, ◌≤◌, ◌++◌, List, ℕ, IfOk};
ghost use Rattle.ht_texts.specs.Tests.{test_text};
ghost use Rattle.ht_sync.specs.SyncTexts.{sync_list};
ghost use Rattle.ht_words.specs.Jobs.{asked_by};
ghost use Rattle.ht_words.specs.declared.job.Job.TheVariants as job_of;
ghost use Rattle.ht_app.specs.Outputs.{IsSyncRecord, sync_acts};
ghost use Rattle.ht_app.specs.Steps.{Does, EndsJob, Prepares};

use crate::made::or_no_memory;
use crate::output::{create, put, put_report};
use ht_files::write_test_text;
use ht_inputs::{RunError, read_netlist};
use ht_net::Circuit;
use ht_ports::{Desk, OutPort};
use ht_sync::{Synchronized, sync, write_sync_body, write_sync_last, write_sync_said};
use ht_tree::MAX_BUDGET;
use ht_words::FileName;
use std::alloc::{AllocError, Global};

/// What `sync` writes.
#[derive(Drop)]
pub struct SyncTexts {
    /// The list, empty where none was found.
    pub tests: Vec<u8>,
    /// The record without its last line.
    pub body: Vec<u8>,
    /// The line for Out.
    pub said: Vec<u8>,
    /// The record's last line.
    pub last: Vec<u8>,
}

// The text of the list, which is empty where the budget was spent.
fn list_text(alloc: Global, answer: &Synchronized) -> Result<Vec<u8>, AllocError>
    ensures { IfOk result (λ text. text.items ≡ test_text (sync_list answer.now)) }
{
    match answer {
        Synchronized::Found {
            list,
            state: _,
            walks: _,
        } => write_test_text(alloc, list),
        Synchronized::Spent { walks: _ } => Ok(Vec::new(alloc)),
    }
}

// Searches for a shortest list within the budget.
fn sync_texts(alloc: Global, circuit: &Circuit, budget: u64) -> Result<SyncTexts, AllocError>
    requires { budget ≤ MAX_BUDGET }
    ensures { IfOk result (λ texts. IsSyncRecord circuit.now budget texts.tests.items
        (texts.body.items ++ texts.last.items) texts.said.items texts.last.items) }
{
    let answer = sync(alloc, circuit, budget)?;
    let tests = list_text(alloc, &answer)?;
    let body = write_sync_body(alloc, circuit, budget, &answer)?;
    let said = write_sync_said(alloc, &answer)?;
    let last = write_sync_last(alloc, &answer)?;
    Ok(SyncTexts {
        tests,
        body,
        said,
        last,
    })
}

// Reads the netlist, searches, and makes what is written.
fn make_texts<D: Desk>(
    alloc: Global,
    netlist: &str,
    budget: u64,
    desk: &mut D,
) -> Result<SyncTexts, RunError>
    requires { budget ≤ MAX_BUDGET }
    ensures { (tests out : List ℕ) → Prepares (asked_by (job_of.Sync netlist.now tests out budget))
        (λ texts. sync_acts tests out texts.tests.items texts.body.items texts.said.items
        texts.last.items) result (D.view desk.old) (D.view desk.new) }
{
    let circuit = read_netlist(alloc, desk, netlist)?;
    let made = sync_texts(alloc, &circuit, budget);
    // for the proof: dropped by name
    drop(circuit);
    or_no_memory(made)
}

// Makes both files, and writes the list and then the record, so that the list is whole where the record is.
fn write_texts<D: Desk>(
    desk: &mut D,
    tests: &str,
    out: &str,
    texts: &SyncTexts,
) -> Result<(), RunError>
    ensures { Does (sync_acts tests.now out.now texts.now.tests.items texts.now.body.items
        texts.now.said.items texts.now.last.items) result (D.view desk.old) (D.view desk.new) }
{
    create(desk, OutPort::Tests, tests)?;
    create(desk, OutPort::Report, out)?;
    put(desk, OutPort::Tests, &texts.tests)?;
    put_report(desk, &texts.body, &texts.said, &texts.last)
}

/// Runs `sync`: reads the netlist, searches for a shortest list that makes every flip-flop definite, and writes the list
/// and the record of the search.
///
/// # Errors
/// Those of the run.
pub fn synchronize<D: Desk>(
    alloc: Global,
    netlist: &FileName,
    tests: &FileName,
    out: &FileName,
    budget: u64,
    desk: &mut D,
) -> Result<(), RunError>
    requires { budget ≤ MAX_BUDGET }
    ensures { EndsJob (asked_by (job_of.Sync netlist.now tests.now out.now budget)) result
        (D.view desk.old)
        (D.view desk.new) }
{
    let texts = make_texts(alloc, netlist.as_str(), budget, desk)?;
    write_texts(desk, tests.as_str(), out.as_str(), &texts)
}
