//! The command `demo`.
ghost use Rattle.std.specs.Prelude.{◌≡◌, ◌<◌, ◌≤◌, ◌∷◌, [], ℕ, List, IfOk, OnOk};
ghost use Rattle.ht_ports.specs.declared.ports.OutPort.TheVariants as out_port;
ghost use Rattle.ht_net.specs.Detect.Detection.{IsStart};
ghost use Rattle.ht_faults.specs.Sites.{faults_of};
ghost use Rattle.ht_faults.specs.Classes.{AreClasses};
ghost use Rattle.ht_demo.specs.Demo.{demo_netlist};
ghost use Rattle.ht_engine.specs.declared.step.Step as made;
ghost use Rattle.ht_engine.specs.EngineStands.{EngineStandsFor, HasSameWork};
ghost use Rattle.ht_engine.specs.Steps.{AreFinished};
ghost use Rattle.ht_tree.specs.declared.limits.TheConstants.{MAX_BUDGET};
ghost use Rattle.ht_files.specs.Generated.{IsTotalOf};
ghost use Rattle.ht_asked.specs.declared.limits.TheConstants.{MAX_SIZE, MIN_SIZE};
ghost use Rattle.ht_words.specs.Jobs.{asked_by};
ghost use Rattle.ht_words.specs.declared.job.Job.TheVariants as job_of;
ghost use Rattle.ht_app.specs.Acts.{put as put_act};
ghost use Rattle.ht_app.specs.Outputs.{SaysHead, demo_settings};
ghost use Rattle.ht_app.specs.Steps.{EndsJob};

use crate::output::put;
use ht_bench::read;
use ht_demo::netlist_text;
use ht_engine::{Engine, Search, Settings, Step};
use ht_files::write_total_of;
use ht_inputs::{Listed, RunError, list_faults};
use ht_items::Items;
use ht_net::{Circuit, Vectors, unknown_start};
use ht_ports::{Desk, OutPort};
use ht_texts::write_head;
use std::alloc::{AllocError, Global};

/// The budget of each search.
pub const DEMO_BUDGET: u64 = 10;

/// How many random vectors come first.
pub const DEMO_RANDOM: u32 = 64;

// The circuit of the netlist, whose text is always accepted: an error is out of memory.
fn read_circuit(alloc: Global, size: u32, seed: u64) -> Result<Circuit, AllocError>
    requires { (MIN_SIZE ≤ size) × (size ≤ MAX_SIZE) }
    ensures { IfOk result (λ circuit. circuit ≡ demo_netlist size seed) }
{
    let text = netlist_text(alloc, size, seed)?;
    match read(alloc, &text) {
        Ok(circuit) => Ok(circuit),
        Err(_) => Err(AllocError),
    }
}

// The circuit with its faults, and the head line.
#[derive(Drop)]
struct Prepared {
    circuit: Circuit,
    listed: Listed,
    head: Vec<u8>,
}

// All that comes before the work.
fn prepare(alloc: Global, size: u32, seed: u64) -> Result<Prepared, AllocError>
    requires { (MIN_SIZE ≤ size) × (size ≤ MAX_SIZE) }
    ensures circuit { IfOk result (λ prepared. prepared.circuit ≡ demo_netlist size seed) }
    ensures faults { IfOk result (λ prepared. prepared.listed.faults
        ≡ faults_of prepared.circuit) }
    ensures classes { IfOk result (λ prepared. AreClasses prepared.circuit
        prepared.listed.classes) }
    ensures head { IfOk result (λ prepared.
        SaysHead size seed (put_act out_port.Out prepared.head.items ∷ [])) }
{
    let circuit = read_circuit(alloc, size, seed)?;
    let listed = list_faults(alloc, &circuit)?;
    let head = write_head(alloc, &circuit, &listed.classes, Some(DEMO_BUDGET))?;
    Ok(Prepared {
        circuit,
        listed,
        head,
    })
}

// Makes all steps of an engine, and keeps none.
fn make_steps(engine: &mut Engine) -> Result<(), AllocError>
    requires { EngineStandsFor engine.old [] }
    ensures work { HasSameWork engine.old engine.new }
    ensures made { OnOk result ((steps : List made.Step) × EngineStandsFor engine.new steps
        × AreFinished engine.new.circuit engine.new.representatives engine.new.settings steps) }
{
    'steps: loop {
        let step = engine.next()?;
        if let Step::Finished = step {
            return Ok(());
        }
    }
}

// Makes all steps of a new engine, and the total line of the report on them.
// For the proof: it borrows the engine, since each way on which a value is dropped is a goal.
fn make_total(
    alloc: Global,
    prepared: &Prepared,
    engine: &mut Engine,
) -> Result<Vec<u8>, AllocError>
    requires faults { prepared.now.listed.faults ≡ faults_of prepared.now.circuit }
    requires classes { AreClasses prepared.now.circuit prepared.now.listed.classes }
    requires circuit { engine.old.circuit ≡ prepared.now.circuit }
    requires representatives { engine.old.representatives ≡ prepared.now.listed.classes }
    requires new { EngineStandsFor engine.old [] }
    ensures { IfOk result
        (λ total. IsTotalOf prepared.now.circuit engine.old.settings total.items) }
{
    make_steps(engine)?;
    let listed = &prepared.listed;
    let total = write_total_of(
        alloc,
        &prepared.circuit,
        &listed.faults,
        &listed.classes,
        engine,
    )?;
    Ok(total)
}

// What the engine is told: no start, no first vectors, and a plain search for all faults.
fn settings_for(alloc: Global, circuit: &Circuit, seed: u64) -> Result<Settings, AllocError>
    ensures { IfOk result (λ settings. settings ≡ demo_settings circuit.now seed) }
{
    let start = unknown_start(alloc, circuit)?;
    Ok(Settings {
        budget: DEMO_BUDGET,
        random: DEMO_RANDOM,
        seed,
        weighted: 0,
        search: Search::Plain,
        start: Items::from_vec(start),
        first: Vectors::new(alloc, circuit.inputs()),
        chosen: None,
    })
}

// The total line of the report on what a new engine finds that is told these settings.
fn total_under(
    alloc: Global,
    prepared: &Prepared,
    settings: &Settings,
) -> Result<Vec<u8>, AllocError>
    requires faults { prepared.now.listed.faults ≡ faults_of prepared.now.circuit }
    requires classes { AreClasses prepared.now.circuit prepared.now.listed.classes }
    requires latches { IsStart prepared.now.circuit settings.now.start }
    requires first { settings.now.first.width ≡ prepared.now.circuit.inputs }
    requires budget { (0 < settings.now.budget) × (settings.now.budget ≤ MAX_BUDGET) }
    ensures { IfOk result (λ total. IsTotalOf prepared.now.circuit settings.now total.items) }
{
    let mut engine = Engine::new(
        alloc,
        &prepared.circuit,
        &prepared.listed.faults,
        &prepared.listed.classes,
        settings,
    )?;
    let total = make_total(alloc, prepared, &mut engine);
    // for the proof: dropped by name
    drop(engine);
    total
}

// The total line of the report on the circuit.
fn find_total(alloc: Global, prepared: &Prepared, seed: u64) -> Result<Vec<u8>, AllocError>
    requires faults { prepared.now.listed.faults ≡ faults_of prepared.now.circuit }
    requires classes { AreClasses prepared.now.circuit prepared.now.listed.classes }
    ensures { IfOk result
        (λ total. IsTotalOf prepared.now.circuit (demo_settings prepared.now.circuit seed)
        total.items) }
{
    let settings = settings_for(alloc, &prepared.circuit, seed)?;
    let total = total_under(alloc, prepared, &settings);
    // for the proof: dropped by name
    drop(settings);
    total
}

// Says the head line, generates tests, and says the total line.
fn say_lines<D: Desk>(
    alloc: Global,
    prepared: &Prepared,
    seed: u64,
    desk: &mut D,
) -> Result<(), RunError>
    requires faults { prepared.now.listed.faults ≡ faults_of prepared.now.circuit }
    requires classes { AreClasses prepared.now.circuit prepared.now.listed.classes }
    ensures { (size : ℕ) → prepared.now.circuit ≡ demo_netlist size seed
        → SaysHead size seed (put_act out_port.Out prepared.now.head.items ∷ [])
        → EndsJob (asked_by (job_of.Demo size seed)) result (D.view desk.old) (D.view desk.new) }
{
    put(desk, OutPort::Out, &prepared.head)?;
    let total = find_total(alloc, prepared, seed)?;
    put(desk, OutPort::Out, &total)
}

/// Runs `demo`: makes the netlist of a size and a seed, says the head line of a report on it, generates tests, and says
/// the total line. No file is opened or created.
///
/// # Errors
/// `NoMemory`, or `WriteFault`.
pub fn demo<D: Desk>(alloc: Global, size: u32, seed: u64, desk: &mut D) -> Result<(), RunError>
    requires { (MIN_SIZE ≤ size) × (size ≤ MAX_SIZE) }
    ensures { EndsJob (asked_by (job_of.Demo size seed)) result (D.view desk.old)
        (D.view desk.new) }
{
    let prepared = prepare(alloc, size, seed)?;
    let said = say_lines(alloc, &prepared, seed, desk);
    // for the proof: dropped by name
    drop(prepared);
    said
}
