//! The first contradictions of all machines with an observation.
ghost use Rattle.std.specs.Prelude.{◌≡◌, ◌<◌, true, length, IfOk};
ghost use Rattle.std.specs.Option.{ForSome};
ghost use Rattle.ht_net.specs.Detect.Detection.{IsPlace};
ghost use Rattle.ht_faults.specs.Sites.{faults_of};
ghost use Rattle.ht_faults.specs.Classes.{AreClasses, fault_at, is_representative};
ghost use Rattle.ht_serial.specs.Contradictions.{IsFirstContradiction, IsObservedOver};
ghost use Rattle.ht_dictionary.specs.Diagnoses.{Diagnoses, IsDiagnosisOf, contradiction_at};

use ht_faults::{Classes, FaultList};
use ht_net::{Circuit, Place, Vectors};
use ht_serial::{Observation, first_contradiction};
use std::alloc::{AllocError, Global};
use std::marker::Model;

/// The first contradictions of the good machine and of the representative of each class with an observation.
#[derive(Drop)]
pub struct Diagnosis {
    good: Option<Place>,
    // one for each fault; what stands at a fault that isn't its own representative has no meaning
    places: Vec<Option<Place>>,
}

impl Model for Diagnosis {
    ghost use Rattle.ht_dictionary.specs.DiagnosisView.{DiagnosisView};

    ghost Value = { DiagnosisView };

    ghost view = { λ a. record { good = a.good; places = a.places.items } };
}

// The first contradiction of fault `i`, if it is a representative.
fn place_of(
    alloc: Global,
    circuit: &Circuit,
    faults: &FaultList,
    classes: &Classes,
    i: u32,
    list: &Vectors,
    observation: &Observation,
) -> Result<Option<Place>, AllocError>
    requires faults { faults.now ≡ faults_of circuit.now }
    requires classes { AreClasses circuit.now classes.now }
    requires fault { i < length faults.now }
    requires observed { IsObservedOver circuit.now list.now observation.now }
    ensures first { IfOk result (λ place. is_representative classes.now i ≡ true
        → IsFirstContradiction circuit.now (Some (fault_at circuit.now i))
        list.now.list observation.now.rows place) }
    ensures place { IfOk result (λ place. ForSome place (IsPlace circuit.now)) }
{
    if classes.of(i) != i {
        return Ok(None);
    }
    first_contradiction(alloc, circuit, Some(faults.get(i)), list, observation)
}

/// Which machines explain what was observed: for the good machine and the representative of each class the first
/// place where it contradicts the observation, or none where it is consistent. The observation has a row for each
/// vector, and in it a value for each output. Each machine runs from the first vector to its contradiction.
///
/// # Errors
///
/// `AllocError`: out of memory.
pub fn diagnose(
    alloc: Global,
    circuit: &Circuit,
    faults: &FaultList,
    classes: &Classes,
    list: &Vectors,
    observation: &Observation,
) -> Result<Diagnosis, AllocError>
    requires faults { faults.now ≡ faults_of circuit.now }
    requires classes { AreClasses circuit.now classes.now }
    requires observed { IsObservedOver circuit.now list.now observation.now }
    ensures first { IfOk result (λ diagnosis. Diagnoses circuit.now classes.now list.now.list
        observation.now.rows diagnosis) }
    ensures places { IfOk result (λ diagnosis. IsDiagnosisOf circuit.now diagnosis) }
{
    let good = first_contradiction(alloc, circuit, None, list, observation)?;
    let mut places = Vec::new(alloc);
    for i in 0..faults.len() {
        let place = place_of(alloc, circuit, faults, classes, i, list, observation)?;
        places.push(place)?;
    }
    Ok(Diagnosis { good, places })
}

impl Diagnosis {
    /// The first contradiction of the good machine; `None` exactly where it is consistent.
    pub fn good(&self) -> Option<Place>
        ensures { result ≡ self.now.good }
    {
        self.good
    }

    /// The first contradiction of fault `i`, from 0; `None` exactly where it is consistent. It has no meaning of a
    /// fault that isn't its own representative.
    pub fn get(&self, i: u32) -> Option<Place>
        requires { i < length self.now.places }
        ensures { result ≡ contradiction_at self.now.places i }
    {
        self.places[i as usize]
    }
}
