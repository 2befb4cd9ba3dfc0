//! The command `breed`.
ghost use Rattle.std.specs.Prelude.{◌≡◌, IfOk};
ghost use Rattle.ht_ports.specs.declared.ports.OutPort.TheVariants as out_port;
ghost use Rattle.ht_net.specs.Detect.Detection.{IsStart};
ghost use Rattle.ht_faults.specs.Sites.{faults_of};
ghost use Rattle.ht_faults.specs.Classes.{AreClasses};
ghost use Rattle.ht_words.specs.Jobs.{asked_by};
ghost use Rattle.ht_words.specs.declared.job.Job.TheVariants as job_of;
ghost use Rattle.ht_app.specs.Outputs.{AreBredTexts, IsBreeding, file_acts};
ghost use Rattle.ht_app.specs.Steps.{EndsJob, Prepares};

use crate::made::{Made, or_no_memory};
use crate::output::finish;
use ht_bred::{Bred, bred_vectors, write_bred};
use ht_faults::Classes;
use ht_files::write_test_text;
use ht_inputs::{Listed, RunError, list_faults, read_netlist, read_stated, read_tests};
use ht_net::{Circuit, Vectors};
use ht_ports::{Desk, OutPort};
use ht_tern::Tern;
use ht_words::{BreedFiles, BreedOptions};
use std::alloc::{AllocError, Global};

// The text of all vectors, and the line that says what was bred.
fn texts_of(alloc: Global, classes: &Classes, given: u64, bred: &Bred) -> Result<Made, AllocError>
    ensures { IfOk result (λ made. AreBredTexts classes.now given bred.now made.body.items
        made.total.items) }
{
    let body = write_test_text(alloc, &bred.vectors)?;
    let total = write_bred(alloc, classes, given, bred)?;
    Ok(Made { body, total })
}

// Breeds vectors after those of a list, and makes the text of all.
fn texts_for(
    alloc: Global,
    circuit: &Circuit,
    listed: &Listed,
    start: &[Tern],
    list: Vectors,
    most: u32,
    seed: u64,
) -> Result<Made, AllocError>
    requires faults { listed.now.faults ≡ faults_of circuit.now }
    requires classes { AreClasses circuit.now listed.now.classes }
    requires latches { IsStart circuit.now start.now }
    requires width { list.width ≡ circuit.now.inputs }
    ensures { IfOk result (λ made.
        IsBreeding circuit.now start.now list.list most made.body.items made.total.items) }
{
    let given = list.len();
    let Listed { faults, classes } = listed;
    let bred = bred_vectors(alloc, circuit, faults, classes, start, list, most, seed)?;
    let made = texts_of(alloc, classes, given, &bred);
    // for the proof: dropped by name
    drop(bred);
    made
}

// Breeds vectors for the faults of a circuit, and makes the text of all.
fn bred_texts(
    alloc: Global,
    circuit: &Circuit,
    start: &[Tern],
    list: Vectors,
    most: u32,
    seed: u64,
) -> Result<Made, AllocError>
    requires latches { IsStart circuit.now start.now }
    requires width { list.width ≡ circuit.now.inputs }
    ensures { IfOk result (λ made.
        IsBreeding circuit.now start.now list.list most made.body.items made.total.items) }
{
    match list_faults(alloc, circuit) {
        Ok(listed) => {
            let made = texts_for(alloc, circuit, &listed, start, list, most, seed);
            // for the proof: dropped by name
            drop(listed);
            made
        }
        Err(error) => {
            drop(list);
            Err(error)
        }
    }
}

// Reads the netlist, the start if one is stated, and the tests, in this order, and breeds vectors after them.
fn make_texts<D: Desk>(
    alloc: Global,
    files: &BreedFiles,
    options: &BreedOptions,
    desk: &mut D,
) -> Result<Made, RunError>
    ensures { Prepares (asked_by (job_of.Breed files.now options.now))
        (λ made. file_acts out_port.Tests files.now.out made.body.items made.total.items) result
        (D.view desk.old) (D.view desk.new) }
{
    let circuit = read_netlist(alloc, desk, files.netlist.as_str())?;
    let start = read_stated(alloc, desk, &circuit, &options.start)?;
    let list = read_tests(alloc, desk, files.tests.as_str(), &circuit, u64::MAX)?;
    let (vectors, seed) = (options.vectors, options.seed);
    or_no_memory(bred_texts(alloc, &circuit, &start, list, vectors, seed))
}

/// Breeds vectors after those of the tests, and writes both.
///
/// # Errors
/// Those of the files, out of memory, or a write failed.
pub fn breed<D: Desk>(
    alloc: Global,
    files: &BreedFiles,
    options: &BreedOptions,
    desk: &mut D,
) -> Result<(), RunError>
    ensures { EndsJob (asked_by (job_of.Breed files.now options.now)) result (D.view desk.old)
        (D.view desk.new) }
{
    let made = make_texts(alloc, files, options, desk);
    finish(desk, OutPort::Tests, &files.out, made)
}
