//! The command `gen`.
//!
//! `create` makes the three files, and `fill` writes them: `sizes` begins the proofs, `steps` writes the engine's steps,
//! and the report comes last. `full` does the same with a full search: `lists` writes its vectors, `entries` its entries.
ghost use Rattle.std.specs.Prelude.{◌≡◌, ◌≤◌, [], None};
ghost use Rattle.ht_ports.specs.Desk.{DeskView};
ghost use Rattle.ht_net.specs.Circuit.Netlist.{IsCircuit};
ghost use Rattle.ht_net.specs.Detect.Detection.{IsStart};
ghost use Rattle.ht_faults.specs.Sites.{faults_of};
ghost use Rattle.ht_faults.specs.Classes.{AreClasses};
ghost use Rattle.ht_texts.specs.SearchReports.{HasPlainNames};
ghost use Rattle.ht_asked.specs.declared.limits.TheConstants.{MAX_BUDGET, MAX_WORK, MIN_BUDGET};
ghost use Rattle.ht_words.specs.Jobs.{asked_by};
ghost use Rattle.ht_words.specs.declared.job.Job.TheVariants as job_of;
ghost use Rattle.ht_inputs.specs.Inputs.{AreVectorsOf, HasNetlist, IsStated, JobBasis};
ghost use Rattle.ht_inputs.specs.Reading.{HasReadTo};
ghost use Rattle.ht_app.specs.Generating.{WritesGenerated, WritesTo};
ghost use Rattle.ht_app.specs.Outputs.{search_of};
ghost use Rattle.ht_app.specs.Steps.{EndsJob};

mod create;
mod entries;
mod fill;
mod full;
mod lists;
pub mod sizes;
mod steps;

use crate::generate::fill::write_files;
use crate::generate::full::run_full;
use ht_asked::Depth;
use ht_engine::{Engine, Search, Settings};
use ht_inputs::{
    Listed, RunError, list_faults, read_chosen, read_first, read_netlist, read_stated,
};
use ht_items::Items;
use ht_net::{Circuit, Vectors};
use ht_ports::Desk;
use ht_tern::Tern;
use ht_words::{GenOptions, RunFiles};
use std::alloc::Global;

// What the options and the files that they name tell the engine.
fn settings_for(
    options: &GenOptions,
    start: Vec<Tern>,
    first: Vectors,
    chosen: Option<Items<u32>>,
) -> Settings
    ensures { result ≡ record {
      budget = options.now.budget;
      random = options.now.random;
      seed = options.now.seed;
      weighted = options.now.weighted;
      search = search_of options.now.depth;
      start = start.items;
      first = first;
      chosen = chosen;
    } }
{
    let search = match options.depth {
        Depth::Plain => Search::Plain,
        Depth::Deep => Search::Deep,
        Depth::Full => Search::Deep,
    };
    Settings {
        budget: options.budget,
        random: options.random,
        seed: options.seed,
        weighted: options.weighted,
        search,
        start: Items::from_vec(start),
        first,
        chosen,
    }
}

// Makes an engine, and the files with it.
fn run_engine<D: Desk>(
    alloc: Global,
    circuit: &Circuit,
    listed: &Listed,
    files: &RunFiles,
    settings: &Settings,
    desk: &mut D,
) -> Result<(), RunError>
    requires plain { HasPlainNames circuit.now }
    requires faults { listed.now.faults ≡ faults_of circuit.now }
    requires classes { AreClasses circuit.now listed.now.classes }
    requires latches { IsStart circuit.now settings.now.start }
    requires first { settings.now.first.width ≡ circuit.now.inputs }
    requires budget { (MIN_BUDGET ≤ settings.now.budget) × (settings.now.budget ≤ MAX_BUDGET) }
    ensures { WritesGenerated files.now circuit.now settings.now result (D.view desk.old)
        (D.view desk.new) }
{
    let faults = &listed.faults;
    let mut engine = Engine::new(alloc, circuit, faults, &listed.classes, settings)?;
    let written = write_files(
        alloc,
        circuit,
        listed,
        files,
        settings.search,
        &mut engine,
        desk,
    );
    // for the proof: dropped by name
    drop(engine);
    written
}

// Searches as far as the options say, and makes the files.
fn run_search<D: Desk>(
    alloc: Global,
    circuit: &Circuit,
    listed: &Listed,
    files: &RunFiles,
    options: &GenOptions,
    settings: &Settings,
    desk: &mut D,
) -> Result<(), RunError>
    requires plain { HasPlainNames circuit.now }
    requires faults { listed.now.faults ≡ faults_of circuit.now }
    requires classes { AreClasses circuit.now listed.now.classes }
    requires latches { IsStart circuit.now settings.now.start }
    requires first { settings.now.first.width ≡ circuit.now.inputs }
    requires budget { (MIN_BUDGET ≤ settings.now.budget) × (settings.now.budget ≤ MAX_BUDGET) }
    requires search { settings.now.search ≡ search_of options.now.depth }
    requires work { options.now.work ≤ MAX_WORK }
    ensures { WritesTo options.now.depth options.now.work files.now circuit.now settings.now result
        (D.view desk.old) (D.view desk.new) }
{
    match options.depth {
        Depth::Plain => run_engine(alloc, circuit, listed, files, settings, desk),
        Depth::Deep => run_engine(alloc, circuit, listed, files, settings, desk),
        Depth::Full => { run_full(alloc, circuit, listed, files, settings, options.work, desk) }
    }
}

// Reads the list of faults, if the options name one, once the other files are read, generates tests, and writes them, the
// proofs and the report.
fn generate_chosen<D: Desk>(
    alloc: Global,
    circuit: &Circuit,
    listed: &Listed,
    files: &RunFiles,
    options: &GenOptions,
    start: Vec<Tern>,
    first: Vectors,
    desk: &mut D,
) -> Result<(), RunError>
    requires netlist { HasNetlist circuit.now }
    requires faults { listed.now.faults ≡ faults_of circuit.now }
    requires classes { AreClasses circuit.now listed.now.classes }
    requires latches { IsStart circuit.now start.items }
    requires width { first.width ≡ circuit.now.inputs }
    requires widths { AreVectorsOf circuit.now first.list }
    requires none { options.now.first ≡ None → first.list ≡ [] }
    requires budget { (MIN_BUDGET ≤ options.now.budget) × (options.now.budget ≤ MAX_BUDGET) }
    requires work { options.now.work ≤ MAX_WORK }
    ensures { (before : DeskView) → ((basis : JobBasis) → basis.circuit ≡ circuit.now
        → basis.content.start ≡ start.items → basis.content.list ≡ first.list
        → HasReadTo (asked_by (job_of.Gen files.now options.now)) basis 3 before (D.view desk.old))
        → EndsJob (asked_by (job_of.Gen files.now options.now)) result before (D.view desk.new) }
{
    let chosen = read_chosen(alloc, desk, listed.faults.len(), &options.faults)?;
    let settings = settings_for(options, start, first, chosen);
    let done = run_search(alloc, circuit, listed, files, options, &settings, desk);
    // for the proof: dropped by name
    drop(settings);
    done
}

// Reads the files that the options name, once the netlist is read, generates tests, and writes them, the proofs and the
// report.
fn generate_for<D: Desk>(
    alloc: Global,
    circuit: &Circuit,
    files: &RunFiles,
    options: &GenOptions,
    desk: &mut D,
) -> Result<(), RunError>
    requires circuit { IsCircuit circuit.now }
    requires netlist { HasNetlist circuit.now }
    requires budget { (MIN_BUDGET ≤ options.now.budget) × (options.now.budget ≤ MAX_BUDGET) }
    requires work { options.now.work ≤ MAX_WORK }
    ensures { (first : DeskView) → ((basis : JobBasis) → basis.circuit ≡ circuit.now
        → IsStated (asked_by (job_of.Gen files.now options.now)) basis
        → HasReadTo (asked_by (job_of.Gen files.now options.now)) basis 1 first (D.view desk.old))
        → EndsJob (asked_by (job_of.Gen files.now options.now)) result first (D.view desk.new) }
{
    let start = read_stated(alloc, desk, circuit, &options.start)?;
    let first = read_first(alloc, desk, circuit, &options.first)?;
    let listed = list_faults(alloc, circuit)?;
    let done = generate_chosen(alloc, circuit, &listed, files, options, start, first, desk);
    // for the proof: dropped by name
    drop(listed);
    done
}

/// Runs `gen`: reads the netlist and the files that the options name, the start, the first vectors and the list of
/// faults, generates tests, and writes them, the proofs and the report.
///
/// # Errors
/// Those of the run.
pub fn generate<D: Desk>(
    alloc: Global,
    files: &RunFiles,
    options: &GenOptions,
    desk: &mut D,
) -> Result<(), RunError>
    requires budget { (MIN_BUDGET ≤ options.now.budget) × (options.now.budget ≤ MAX_BUDGET) }
    requires work { options.now.work ≤ MAX_WORK }
    ensures { EndsJob (asked_by (job_of.Gen files.now options.now)) result (D.view desk.old)
        (D.view desk.new) }
{
    let circuit = read_netlist(alloc, desk, files.netlist.as_str())?;
    let done = generate_for(alloc, &circuit, files, options, desk);
    // for the proof: dropped by name
    drop(circuit);
    done
}
