//! The vectors of a list, and then bursts that are bred, one after the other.
ghost use Rattle.std.specs.Prelude.{◌≡◌, ◌≤◌, [], IfOk};
ghost use Rattle.ht_net.specs.Detect.Detection.{IsStart};
ghost use Rattle.ht_faults.specs.Sites.{faults_of};
ghost use Rattle.ht_faults.specs.Classes.{AreClasses};
ghost use Rattle.ht_bred.specs.Bred.{IsBred};
ghost use Rattle.ht_bred.specs.Extended.{AreExtended};

use crate::bursts::Bursts;
use crate::live::detected_count;
use ht_faults::{Classes, FaultList};
use ht_net::{Circuit, Place, Vectors};
use ht_proofs::ClassGrader;
use ht_tern::Tern;
use std::alloc::{AllocError, Global};

/// Given vectors and then bred ones, and what all of them detect.
#[derive(Drop)]
pub struct Bred {
    /// All vectors, the given ones first.
    pub vectors: Vectors,
    /// How many were bred.
    pub count: u32,
    /// The first detection of each representative, or none, at the number of the fault, from 0. What stands at another
    /// fault's number has no meaning.
    pub places: Vec<Option<Place>>,
    /// How many representatives have a first detection.
    pub detected: usize,
}

// Breeds bursts until there are so many vectors, or no representative is left. How many vectors there are.
#[tactic(auto, using(crate::proofs::ExtendedLaws::by_none, crate::proofs::ExtendedLaws::twice))]
fn breed_bursts(
    alloc: Global,
    classes: &Classes,
    grader: &mut ClassGrader,
    bursts: &mut Bursts,
    vectors: &mut Vectors,
    most: u32,
) -> Result<u32, AllocError>
    requires classes { AreClasses grader.old.machines.circuit classes.now }
    requires same { grader.old.representatives ≡ classes.now }
    requires bursts { bursts.old ≡ grader.old.machines.circuit.inputs }
    requires width { vectors.old.width ≡ grader.old.machines.circuit.inputs }
    ensures added { IfOk result (λ count. AreExtended grader.old grader.new
        vectors.old.list vectors.old vectors.new count) }
    ensures few { IfOk result (λ count. count ≤ most) }
{
    let mut count = 0;
    for _burst in 0..most {
        if count == most || bursts.are_done() {
            return Ok(count);
        }
        let gain = bursts.burst(alloc, classes, grader, vectors, most - count)?;
        count += gain.vectors;
    }
    Ok(count)
}

// Applies the vectors of a list, and breeds at most so many after them. How many were bred.
fn apply_and_breed(
    alloc: Global,
    classes: &Classes,
    start: &[Tern],
    grader: &mut ClassGrader,
    bursts: &mut Bursts,
    vectors: &mut Vectors,
    most: u32,
) -> Result<u32, AllocError>
    requires classes { AreClasses grader.old.machines.circuit classes.now }
    requires same { grader.old.representatives ≡ classes.now }
    requires bursts { bursts.old ≡ grader.old.machines.circuit.inputs }
    requires width { vectors.old.width ≡ grader.old.machines.circuit.inputs }
    ensures added { IfOk result (λ count. AreExtended grader.old grader.new
        [] vectors.old vectors.new count) }
    ensures few { IfOk result (λ count. count ≤ most) }
{
    grader.apply(vectors)?;
    bursts.note(alloc, classes, grader, start, 0, vectors)?;
    breed_bursts(alloc, classes, grader, bursts, vectors, most)
}

/// The given vectors, and then at most `most` vectors that are bred after them, fewer where all representatives are
/// detected, and none where the circuit has no inputs. All machines begin at the start. What is bred is a function of the
/// arguments; what is promised is that these are the given vectors and others after them, and what they detect.
///
/// # Errors
///
/// `AllocError`: out of memory.
pub fn bred_vectors(
    alloc: Global,
    circuit: &Circuit,
    faults: &FaultList,
    classes: &Classes,
    start: &[Tern],
    given: Vectors,
    most: u32,
    seed: u64,
) -> Result<Bred, AllocError>
    requires faults { faults.now ≡ faults_of circuit.now }
    requires classes { AreClasses circuit.now classes.now }
    requires latches { IsStart circuit.now start.now }
    requires width { given.width ≡ circuit.now.inputs }
    ensures { IfOk result (IsBred circuit.now classes.now start.now given.list most) }
{
    let most = if circuit.inputs() == 0 { 0 } else { most };
    let mut vectors = given;
    let mut bursts = Bursts::new(alloc, circuit, faults, classes, seed)?;
    let mut grader = ClassGrader::new_from(alloc, circuit, faults, classes, start)?;
    let bred = apply_and_breed(
        alloc,
        classes,
        start,
        &mut grader,
        &mut bursts,
        &mut vectors,
        most,
    );
    let places = grader.into_verdicts();
    match bred {
        Ok(count) => Ok(Bred {
            vectors,
            count,
            detected: detected_count(classes, &places),
            places,
        }),
        Err(error) => Err(error),
    }
}
