//! The first detection of each class of faults.
ghost use Rattle.std.specs.Prelude.{◌≡◌, IfOk};
ghost use Rattle.ht_faults.specs.Sites.{faults_of};
ghost use Rattle.ht_faults.specs.Classes.{AreClasses};
ghost use Rattle.ht_proofs.specs.Detections.{AreFirstDetections, AreWithin};
ghost use Rattle.ht_net.specs.Detect.Detection.{IsStart, unknown_state};

use crate::class_grader::ClassGrader;
use ht_faults::{Classes, FaultList};
use ht_net::{Circuit, Place, Vectors, unknown_start};
use ht_tern::Tern;
use std::alloc::{AllocError, Global};

/// The first place where the vectors detect the representative of each class from a start, or none, at the number of
/// that fault, from 0. There are as many entries as faults; what stands at another fault's number has no meaning. All
/// representatives are simulated side by side, each from the first vector to its detection.
///
/// # Errors
///
/// `AllocError`: out of memory.
pub fn first_detections_from(
    alloc: Global,
    circuit: &Circuit,
    faults: &FaultList,
    classes: &Classes,
    start: &[Tern],
    list: &Vectors,
) -> Result<Vec<Option<Place>>, AllocError>
    requires faults { faults.now ≡ faults_of circuit.now }
    requires classes { AreClasses circuit.now classes.now }
    requires latches { IsStart circuit.now start.now }
    requires width { list.now.width ≡ circuit.now.inputs }
    ensures first { IfOk result (λ places. AreFirstDetections circuit.now classes.now start.now
        list.now.list places.items) }
    ensures within { IfOk result (λ places. AreWithin circuit.now list.now.list places.items) }
{
    let mut grader = ClassGrader::new_from(alloc, circuit, faults, classes, start)?;
    match grader.apply(list) {
        Ok(()) => Ok(grader.into_verdicts()),
        Err(error) => {
            // for the proof: dropped by name
            drop(grader);
            Err(error)
        },
    }
}

/// The same from all-unknown.
///
/// # Errors
///
/// `AllocError`: out of memory.
pub fn first_detections(
    alloc: Global,
    circuit: &Circuit,
    faults: &FaultList,
    classes: &Classes,
    list: &Vectors,
) -> Result<Vec<Option<Place>>, AllocError>
    requires faults { faults.now ≡ faults_of circuit.now }
    requires classes { AreClasses circuit.now classes.now }
    requires width { list.now.width ≡ circuit.now.inputs }
    ensures first { IfOk result (λ places. AreFirstDetections circuit.now classes.now
        (unknown_state circuit.now) list.now.list places.items) }
    ensures within { IfOk result (λ places. AreWithin circuit.now list.now.list places.items) }
{
    let start = unknown_start(alloc, circuit)?;
    first_detections_from(alloc, circuit, faults, classes, &start, list)
}
