//! First detections of all classes, over lists of vectors that come one after the other.
ghost use Rattle.std.specs.Prelude.{◌≡◌, ◌<◌, ◌++◌, [], List, Bool, None, Some, true, false, length, get_or, IfOk, IsErr, OnErr, OnOk};
ghost use Rattle.std.specs.Option.{ForSome};
ghost use Rattle.ht_tern.specs.declared.tern.Tern as tern;
ghost use Rattle.ht_net.specs.Detect.Detection.{IsPlace, IsStart, state_from};
ghost use Rattle.ht_faults.specs.Sites.{faults_of};
ghost use Rattle.ht_faults.specs.Classes.{AreClasses, fault_at, is_representative, own_representatives};
ghost use Rattle.ht_proofs.specs.PackedView.{GraderStandsFor};
ghost use Rattle.ht_proofs.specs.Detections.{AreFirstDetections, ArePlaces, AreWithin, place_at};
ghost use Rattle.ht_proofs.specs.ClassGraderView.{AreOfClasses, ClassGraderStandsFor, IsVerdictOn};

use crate::grader::{Grader, MAX_VECTORS, verdicts_at_start};
use crate::steps::Steps;
use ht_faults::{Classes, FaultList};
use ht_net::{Circuit, Place, Vectors};
use ht_tern::Tern;
use std::alloc::{AllocError, Global};
use std::marker::Model;

/// The first detections of the representatives of all classes, from a start, over lists of vectors that come one after
/// the other. Each vector is simulated once, for all representatives side by side that aren't detected yet, and none is
/// kept.
#[derive(Drop)]
pub struct ClassGrader<'c> {
    classes: &'c Classes,
    // the first detections over the lists, one for each fault; that of another than a representative has no meaning
    places: Vec<Option<Place>>,
    // the machines of the good circuit and of all representatives, after the lists while it is live
    machines: Grader<'c>,
    // whether each call so far had its memory
    live: bool,
}

impl<'c> Model for ClassGrader<'c> {
    ghost use Rattle.ht_proofs.specs.ClassGraderView.{ClassGraderView};

    ghost Value = { ClassGraderView };

    ghost use Rattle.ht_proofs.specs.ClassGraderOf.{AreClassGraderFields, class_grader_of};

    ghost view = { class_grader_of };

    ghost invariant = { AreClassGraderFields };
}

// Applies vectors, one after the other.
fn apply_all(machines: &mut Grader, list: &Vectors) -> Result<(), AllocError>
    requires { list.now.width ≡ machines.old.circuit.inputs }
    ensures circuit { machines.new.circuit ≡ machines.old.circuit }
    ensures faults { machines.new.faults ≡ machines.old.faults }
    ensures stands { OnOk result ((start : List tern.Tern) (before : List (List Bool))
        → GraderStandsFor machines.old start before
        → GraderStandsFor machines.new start (before ++ list.now.list)) }
{
    // no one asks for the count
    let mut steps = Steps::new();
    for t in 0..list.len() {
        if machines.count() >= MAX_VECTORS {
            return Err(AllocError);
        }
        machines.apply(list.get(t), &mut steps)?;
    }
    Ok(())
}

// Writes the first detection of each representative at the number of the fault.
fn write_places(classes: &Classes, machines: &Grader, places: &mut [Option<Place>])
    requires classes { AreClasses machines.now.circuit classes.now }
    requires faults { AreOfClasses machines.now classes.now }
    requires each { length places.old ≡ length classes.now }
    ensures first { (start : List tern.Tern) (list : List (List Bool))
        → GraderStandsFor machines.now start list
        → AreWithin machines.now.circuit list places.old
        → AreFirstDetections machines.now.circuit classes.now start list places.new }
    ensures within { (start : List tern.Tern) (list : List (List Bool))
        → GraderStandsFor machines.now start list
        → AreWithin machines.now.circuit list places.old
        → AreWithin machines.now.circuit list places.new }
    ensures known { ArePlaces machines.now.circuit places.old
        → ArePlaces machines.now.circuit places.new }
{
    // for the proof: the faults are fewer than 2^32
    let _ = classes.len();
    for (k, i) in classes.representatives().iter().enumerate() {
        places[*i as usize] = machines.verdict(k as u32);
    }
}

// The place of fault `i` among the representatives of all classes: it represents its class.
fn place_among(classes: &Classes, i: u32) -> u32
    requires listed { i < length classes.now }
    requires representative { is_representative classes.now i ≡ true }
    ensures within { result < length (own_representatives classes.now) }
    ensures own { get_or (own_representatives classes.now) result 0 ≡ i }
{
    // for the proof: the faults are fewer than 2^32
    let _ = classes.len();
    for (k, own) in classes.representatives().iter().enumerate() {
        if *own == i {
            return k as u32;
        }
    }
    unreachable!()
}

impl<'c> ClassGrader<'c> {
    /// A grader with no vectors yet, from a start.
    ///
    /// # Errors
    /// Out of memory.
    pub fn new_from(
        alloc: Global,
        circuit: &'c Circuit,
        faults: &FaultList,
        classes: &'c Classes,
        start: &[Tern],
    ) -> Result<ClassGrader<'c>, AllocError>
        requires faults { faults.now ≡ faults_of circuit.now }
        requires classes { AreClasses circuit.now classes.now }
        requires latches { IsStart circuit.now start.now }
        ensures circuit { IfOk result (λ grader. grader.machines.circuit ≡ circuit.now) }
        ensures classes { IfOk result (λ grader. grader.representatives ≡ classes.now) }
        ensures stands { IfOk result (λ grader. ClassGraderStandsFor grader start.now []) }
        ensures live { IfOk result (λ grader. grader.live ≡ true) }
    {
        let places = verdicts_at_start(alloc, classes.len() as usize)?;
        let machines = Grader::new_from(alloc, circuit, faults, classes.representatives(), start)?;
        Ok(ClassGrader {
            classes,
            places,
            machines,
            live: true,
        })
    }

    /// Adds vectors after those so far, and finds what they detect.
    ///
    /// # Errors
    /// Out of memory, or there would be more than 2^62 vectors; the verdicts are as before, and every later call fails.
    pub fn apply(&mut self, list: &Vectors) -> Result<(), AllocError>
        requires { list.now.width ≡ self.old.machines.circuit.inputs }
        ensures added { OnOk result ((start : List tern.Tern) (before : List (List Bool))
            → ClassGraderStandsFor self.old start before
            → ClassGraderStandsFor self.new start (before ++ list.now.list)) }
        ensures err { OnErr result
            ((self.new.places ≡ self.old.places) × (self.new.live ≡ false)) }
        ensures dead { self.old.live ≡ false → IsErr result }
        ensures live { OnOk result (self.new.live ≡ true) }
        ensures same { (self.new.machines.circuit ≡ self.old.machines.circuit)
            × (self.new.representatives ≡ self.old.representatives) }
    {
        if !self.live {
            return Err(AllocError);
        }
        self.live = false;
        apply_all(&mut self.machines, list)?;
        write_places(self.classes, &self.machines, &mut self.places);
        self.live = true;
        Ok(())
    }

    /// The first place where the vectors so far detect fault `i` from the start, or none. The fault represents its
    /// class. It takes no memory. There the good and the faulty machine show opposite bits in two-valued runs from any
    /// two states that the start allows.
    pub fn verdict(&self, i: u32) -> Option<Place>
        requires fault { i < length (faults_of self.now.machines.circuit) }
        requires representative { is_representative self.now.representatives i ≡ true }
        ensures same { result ≡ place_at self.now.places i }
        ensures verdict { (start : List tern.Tern) (list : List (List Bool))
            → ClassGraderStandsFor self.now start list
            → IsVerdictOn self.now.machines.circuit i start list result }
        ensures place { ForSome result (IsPlace self.now.machines.circuit) }
    {
        self.places[i as usize]
    }

    /// The verdicts on all faults, by their numbers. That of another than a representative has no meaning.
    pub fn into_verdicts(self) -> Vec<Option<Place>>
        ensures { result.items ≡ self.entry.places }
    {
        let ClassGrader {
            places,
            machines,
            ..
        } = self;
        // for the proof: dropped by name
        drop(machines);
        places
    }

    /// What each flip-flop of the good machine holds after the vectors so far.
    ///
    /// # Errors
    /// Out of memory, be it that an earlier call was.
    pub fn good_state(&self, alloc: Global) -> Result<Vec<Tern>, AllocError>
        ensures state { IfOk result (λ state. (start : List tern.Tern) (list : List (List Bool))
            → ClassGraderStandsFor self.now start list
            → state.items ≡ state_from self.now.machines.circuit None start list) }
        ensures each { IfOk result (λ state. IsStart self.now.machines.circuit state.items) }
    {
        if !self.live {
            return Err(AllocError);
        }
        Vec::from_slice(alloc, self.machines.good_latches())
    }

    /// What each flip-flop of the machine of fault `i` holds after the vectors so far. The fault represents its class,
    /// and isn't detected.
    ///
    /// # Errors
    /// Out of memory, be it that an earlier call was.
    pub fn faulty_state(&self, alloc: Global, i: u32) -> Result<Vec<Tern>, AllocError>
        requires fault { i < length (faults_of self.now.machines.circuit) }
        requires representative { is_representative self.now.representatives i ≡ true }
        requires undetected { place_at self.now.places i ≡ None }
        ensures state { IfOk result (λ state. (start : List tern.Tern) (list : List (List Bool))
            → ClassGraderStandsFor self.now start list
            → state.items ≡ state_from self.now.machines.circuit
            (Some (fault_at self.now.machines.circuit i)) start list) }
        ensures each { IfOk result (λ state. IsStart self.now.machines.circuit state.items) }
    {
        if !self.live {
            return Err(AllocError);
        }
        let k = place_among(self.classes, i);
        self.machines.faulty_latches(alloc, k)
    }
}
