//! The full search of `gen`.
ghost use Rattle.std.specs.Prelude.{◌≡◌, ◌≤◌, ◌*◌};
ghost use Rattle.ht_ports.specs.declared.ports.OutPort.TheVariants as out_port;
ghost use Rattle.ht_net.specs.Circuit.Netlist.{IsCircuit};
ghost use Rattle.ht_net.specs.Detect.Detection.{IsStart};
ghost use Rattle.ht_faults.specs.Sites.{faults_of};
ghost use Rattle.ht_faults.specs.Classes.{AreClasses};
ghost use Rattle.ht_texts.specs.SearchReports.{HasPlainNames};
ghost use Rattle.ht_asked.specs.declared.depth.Depth.TheVariants as depth;
ghost use Rattle.ht_asked.specs.declared.limits.TheConstants.{MAX_BUDGET, MAX_WORK, MIN_BUDGET};
ghost use Rattle.ht_engine.specs.declared.settings.Search.TheVariants as engine;
ghost use Rattle.ht_engine.specs.Marks.{AreMarks};
ghost use Rattle.ht_engine.specs.Steps.{first_vectors};
ghost use Rattle.ht_order.specs.declared.rate.TheConstants as order;
ghost use Rattle.ht_full.specs.Searches.{IsFullOf};
ghost use Rattle.ht_app.specs.Generating.{WritesTo};

use crate::generate::create::create_files;
use crate::generate::entries::write_entries;
use crate::generate::fill::write_end;
use crate::generate::lists::write_lists;
use crate::generate::sizes::begin_proofs;
use ht_engine::{Search, Settings, first_list, mark_chosen};
use ht_entries::end_line;
use ht_files::write_searched;
use ht_full::FullSearch;
use ht_inputs::{Listed, RunError};
use ht_net::Circuit;
use ht_order::UNIT_OF_WORK;
use ht_ports::Desk;
use ht_words::RunFiles;
use std::alloc::Global;

// Makes the files, and writes them: the vectors of a new search as they are found, then the entries and the report. All
// memory is taken before the line that ends the proofs.
fn write_files<D: Desk>(
    alloc: Global,
    circuit: &Circuit,
    listed: &Listed,
    files: &RunFiles,
    settings: &Settings,
    marks: &[bool],
    work: u64,
    search: &mut FullSearch,
    desk: &mut D,
) -> Result<(), RunError>
    requires plain { HasPlainNames circuit.now }
    requires faults { listed.now.faults ≡ faults_of circuit.now }
    requires classes { AreClasses circuit.now listed.now.classes }
    requires deep { settings.now.search ≡ engine.Deep }
    requires budget { (MIN_BUDGET ≤ settings.now.budget) × (settings.now.budget ≤ MAX_BUDGET) }
    requires marked { AreMarks listed.now.classes settings.now marks.now }
    requires is { IsFullOf circuit.now listed.now.classes settings.now.start
        (first_vectors circuit.now settings.now) marks.now (work * order.UNIT_OF_WORK) search.old }
    ensures { WritesTo depth.Full work files.now circuit.now settings.now result
        (D.view desk.old) (D.view desk.new) }
{
    create_files(desk, files)?;
    let mut sizes = begin_proofs(desk, Search::Deep)?;
    write_lists(alloc, search, &mut sizes, desk)?;
    let verdicts = search.verdicts();
    // for the proof: each entry decides its fault
    verdicts.entries_decide();
    write_entries(alloc, verdicts, listed.classes.len(), &mut sizes, desk)?;
    sizes.proofs.add(end_line())?;
    let (faults, classes) = (&listed.faults, &listed.classes);
    let report = write_searched(alloc, circuit, faults, classes, settings.budget, verdicts)?;
    write_end(desk, &report)
}

/// Makes a full search, and the files with it.
///
/// # Errors
/// Out of memory, or `WriteFault`.
pub fn run_full<D: Desk>(
    alloc: Global,
    circuit: &Circuit,
    listed: &Listed,
    files: &RunFiles,
    settings: &Settings,
    work: u64,
    desk: &mut D,
) -> Result<(), RunError>
    requires plain { HasPlainNames circuit.now }
    requires faults { listed.now.faults ≡ faults_of circuit.now }
    requires classes { AreClasses circuit.now listed.now.classes }
    requires latches { IsStart circuit.now settings.now.start }
    requires first { settings.now.first.width ≡ circuit.now.inputs }
    requires budget { (MIN_BUDGET ≤ settings.now.budget) × (settings.now.budget ≤ MAX_BUDGET) }
    requires deep { settings.now.search ≡ engine.Deep }
    requires work { work ≤ MAX_WORK }
    ensures { WritesTo depth.Full work files.now circuit.now settings.now result
        (D.view desk.old) (D.view desk.new) }
{
    let Listed { faults, classes } = listed;
    let start = settings.start.as_slice();
    let first = first_list(alloc, circuit.inputs(), settings)?;
    let marks = mark_chosen(alloc, classes, settings)?;
    let mut search = FullSearch::new(
        alloc,
        circuit,
        faults,
        classes,
        start,
        &marks,
        &first,
        settings.seed,
        work * UNIT_OF_WORK,
    )?;
    let written = write_files(
        alloc,
        circuit,
        listed,
        files,
        settings,
        &marks,
        work,
        &mut search,
        desk,
    );
    // for the proof: dropped by name
    drop(search);
    drop(marks);
    drop(first);
    written
}
