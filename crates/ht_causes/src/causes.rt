//! The causes of all classes of faults.
ghost use Rattle.std.specs.Prelude.{◌≡◌, ◌<◌, [], List, Bool, length, get_or, IfOk, OnOk};
ghost use Rattle.ht_net.specs.Detect.Detection.{IsStart};
ghost use Rattle.ht_faults.specs.Sites.{faults_of};
ghost use Rattle.ht_faults.specs.Classes.{AreClasses};
ghost use Rattle.ht_causes.specs.Causes.{AreCauses};
ghost use Rattle.ht_causes.specs.CauseTexts.{HaveLines};
ghost use Rattle.ht_causes.specs.Tracks.{AreCausesKept, HasRun, IsRunReady};

use crate::cause::Cause;
use crate::run::Run;
use crate::track::Track;
use ht_faults::{Classes, FaultList};
use ht_net::{Circuit, Vectors};
use ht_tern::Tern;
use std::alloc::{AllocError, Global};

// Runs all machines over a list.
fn run_list(
    alloc: Global,
    circuit: &Circuit,
    faults: &FaultList,
    classes: &Classes,
    start: &[Tern],
    list: &Vectors,
    run: &mut Run,
) -> Result<(), AllocError>
    requires ready { IsRunReady circuit.now run.old }
    requires faults { faults.now ≡ faults_of circuit.now }
    requires width { list.now.width ≡ circuit.now.inputs }
    requires begun { HasRun circuit.now classes.now start.now list.now.list 0 run.old }
    ensures run { OnOk result (HasRun circuit.now classes.now start.now list.now.list
        (length list.now.list) run.new) }
    ensures ready { OnOk result (IsRunReady circuit.now run.new) }
{
    for t in 0..list.len() {
        run.apply(alloc, circuit, faults, list.get(t), t)?;
    }
    Ok(())
}

// What is kept of each fault says its cause.
fn read_causes(alloc: Global, tracks: &[Track]) -> Result<Vec<Cause>, AllocError>
    ensures { IfOk result (λ causes. AreCausesKept tracks.now (length tracks.now) causes.items) }
{
    let mut causes = Vec::with_capacity(alloc, tracks.len())?;
    for track in tracks {
        causes.push(track.kept.cause())?;
    }
    Ok(causes)
}

// The causes after the machines have run over a list.
fn run_causes(
    alloc: Global,
    circuit: &Circuit,
    faults: &FaultList,
    classes: &Classes,
    start: &[Tern],
    list: &Vectors,
    run: &mut Run,
) -> Result<Vec<Cause>, AllocError>
    requires ready { IsRunReady circuit.now run.old }
    requires faults { faults.now ≡ faults_of circuit.now }
    requires width { list.now.width ≡ circuit.now.inputs }
    requires begun { HasRun circuit.now classes.now start.now list.now.list 0 run.old }
    ensures { IfOk result (λ causes. AreCauses circuit.now classes.now start.now list.now.list
        causes.items) }
{
    run_list(alloc, circuit, faults, classes, start, list, run)?;
    read_causes(alloc, &run.tracks)
}

/// The cause of the representative of each class over a list of vectors, from a start, at the number of that fault, from
/// 0: where the list first detects the fault or, where it doesn't, why not. There are as many entries as faults; what
/// stands at another fault's number has no meaning. All machines run side by side, 64 in a word, each from the first
/// vector to its detection or to the end.
///
/// # Errors
///
/// `AllocError`: out of memory.
pub fn find_causes(
    alloc: Global,
    circuit: &Circuit,
    faults: &FaultList,
    classes: &Classes,
    start: &[Tern],
    list: &Vectors,
) -> Result<Vec<Cause>, AllocError>
    requires faults { faults.now ≡ faults_of circuit.now }
    requires classes { AreClasses circuit.now classes.now }
    requires latches { IsStart circuit.now start.now }
    requires width { list.now.width ≡ circuit.now.inputs }
    ensures exact { IfOk result (λ causes. AreCauses circuit.now classes.now start.now
        list.now.list causes.items) }
    ensures lines { IfOk result (λ causes. HaveLines circuit.now classes.now causes.items) }
{
    // for the proof: 64 bits count the vectors
    let _ = list.len();
    let mut run = Run::new(alloc, circuit, faults, classes, start)?;
    let causes = run_causes(alloc, circuit, faults, classes, start, list, &mut run);
    // for the proof: dropped by name
    drop(run);
    causes
}
