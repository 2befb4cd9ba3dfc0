//! Faults graded by vectors that come one by one.
ghost use Rattle.std.specs.Prelude.{◌≡◌, ◌<◌, ◌≤◌, ◌+◌, ◌*◌, ◌++◌, ◌∷◌, ◌^◌, [], List, Bool, None, true, false, min, length, get_or, replicate, IfOk, OnOk, OnErr, IsErr};
ghost use Rattle.std.specs.List.{All, filter, range_with_len};
ghost use Rattle.std.specs.Option.{ForSome};
ghost use Rattle.ht_tern.specs.declared.tern.Tern as tern;
ghost use Rattle.ht_tern.specs.declared.tern.Tern.TheVariants.{Unk};
ghost use Rattle.ht_net.specs.Detect.Detection.{IsPlace, IsStart, unknown_state};
ghost use Rattle.ht_faults.specs.Sites.{faults_of};
ghost use Rattle.ht_proofs.specs.PackedView.{GraderStandsFor, chosen_faults, grades_at_start, state_at, verdict_at};
ghost use Rattle.ht_proofs.specs.Applied.{IsApplied, groups_of, max_steps};
ghost use Rattle.ht_proofs.specs.LaneGrades.{no_grade};
ghost use Rattle.ht_proofs.specs.Undetected.{KeepsVerdicts, is_undetected, undetected_of, verdicts_of};

use crate::frame_grader::FrameGrader;
use crate::grade::Grade;
use crate::steps::Steps;
use ht_faults::FaultList;
use ht_group::Diffs;
use ht_net::{Circuit, Fault, Place, unknown_start};
use ht_tern::Tern;
use std::alloc::{AllocError, Global};
use std::marker::Model;

/// No grader takes more vectors.
pub const MAX_VECTORS: u64 = 1 << 62;

/// Faults of a circuit, and what the vectors applied so far say of them. Faults count from 0, in the order in which
/// they were given; vectors, outputs and flip-flops count from 0.
#[derive(Drop)]
pub struct Grader<'c> {
    faults: Vec<Fault>,
    // how many vectors were applied
    count: u64,
    // the latches of the good machine
    latches: Vec<Tern>,
    // what the vectors so far say; a frame that ends early leaves it as it was
    verdicts: Vec<Option<Place>>,
    // the faults without a verdict, rising: a frame changes no other
    undetected: Vec<usize>,
    // what a frame works on
    grades: Vec<Grade>,
    frame: FrameGrader<'c>,
    // whether no allocation has failed
    live: bool,
}

impl<'c> Model for Grader<'c> {
    ghost use Rattle.ht_proofs.specs.PackedView.{PackedView};
    ghost use Rattle.ht_proofs.specs.PackedOf.{ArePackedFields, packed_of};

    ghost Value = { PackedView };

    ghost view = { packed_of };

    ghost invariant = { ArePackedFields };
}

// The faults of a list that have these numbers.
fn choose(alloc: Global, faults: &FaultList, which: &[u32]) -> Result<Vec<Fault>, AllocError>
    requires { All (λ i. i < length faults.now) which.now }
    ensures { IfOk result (λ chosen. chosen.items ≡ chosen_faults faults.now which.now) }
{
    let mut chosen = Vec::with_capacity(alloc, which.len())?;
    for i in which {
        chosen.push(faults.get(*i))?;
    }
    Ok(chosen)
}

/// The verdicts on so many faults before the first vector.
pub fn verdicts_at_start(alloc: Global, count: usize) -> Result<Vec<Option<Place>>, AllocError>
    ensures { IfOk result (λ verdicts. verdicts.items ≡ replicate count None) }
{
    let mut verdicts = Vec::with_capacity(alloc, count)?;
    verdicts.resize(count, None)?;
    Ok(verdicts)
}

// The numbers of so many faults, rising.
fn all_numbers(alloc: Global, count: usize) -> Result<Vec<usize>, AllocError>
    ensures { IfOk result (λ numbers. numbers.items ≡ range_with_len 0 count) }
{
    let mut numbers = Vec::with_capacity(alloc, count)?;
    for k in 0..count {
        numbers.push(k)?;
    }
    Ok(numbers)
}

// What is kept of so many faults before the first vector: the good machine and each faulty one hold the same.
fn grades_at_start(alloc: Global, count: usize) -> Result<Vec<Grade>, AllocError>
    ensures { IfOk result (λ grades. grades.items ≡ replicate count no_grade) }
{
    let mut grades = Vec::with_capacity(alloc, count)?;
    for _ in 0..count {
        grades.push(Grade {
            verdict: None,
            diffs: Diffs::new(alloc),
        })?;
    }
    Ok(grades)
}

// What a grader keeps of its faults.
#[derive(Drop)]
struct Kept {
    verdicts: Vec<Option<Place>>,
    undetected: Vec<usize>,
    grades: Vec<Grade>,
}

// What is kept of so many faults before the first vector.
fn kept_at_start(alloc: Global, count: usize) -> Result<Kept, AllocError>
    ensures verdicts { IfOk result (λ kept. kept.verdicts.items ≡ replicate count None) }
    ensures undetected { IfOk result (λ kept. kept.undetected.items ≡ range_with_len 0 count) }
    ensures grades { IfOk result (λ kept. kept.grades.items ≡ replicate count no_grade) }
{
    Ok(Kept {
        verdicts: verdicts_at_start(alloc, count)?,
        undetected: all_numbers(alloc, count)?,
        grades: grades_at_start(alloc, count)?,
    })
}

// Writes the verdicts that a frame gave to faults that had none.
fn write_verdicts(undetected: &[usize], grades: &[Grade], verdicts: &mut [Option<Place>])
    requires each { length verdicts.old ≡ length grades.now }
    requires known { All (λ k. k < length grades.now) undetected.now }
    requires undetected { undetected.now ≡ undetected_of verdicts.old }
    requires kept { KeepsVerdicts verdicts.old grades.now }
    ensures { verdicts.new ≡ verdicts_of grades.now }
{
    for k in undetected {
        if let Some(place) = grades[*k].verdict {
            verdicts[*k] = Some(place);
        }
    }
}

// Whether fault `k` has no verdict.
fn is_undetected(verdicts: &[Option<Place>], k: usize) -> bool
    ensures { result ≡ is_undetected verdicts.now k }
{
    k >= verdicts.len() || verdicts[k].is_none()
}

// Leaves those without a verdict among the numbers of faults.
fn drop_detected(verdicts: &[Option<Place>], numbers: &mut Vec<usize>)
    ensures { numbers.new.items ≡ filter (is_undetected verdicts.now) numbers.old.items }
{
    numbers.retain(|k| is_undetected(verdicts, *k));
}

// Writes the verdicts that a frame gave to faults that had none, and leaves the numbers of those without one.
fn note_verdicts(grades: &[Grade], verdicts: &mut [Option<Place>], undetected: &mut Vec<usize>)
    requires each { length verdicts.old ≡ length grades.now }
    requires undetected { undetected.old.items ≡ undetected_of verdicts.old }
    requires kept { KeepsVerdicts verdicts.old grades.now }
    ensures verdicts { verdicts.new ≡ verdicts_of grades.now }
    ensures undetected { undetected.new.items ≡ undetected_of (verdicts_of grades.now) }
{
    write_verdicts(undetected, grades, verdicts);
    drop_detected(verdicts, undetected);
}

impl<'c> Grader<'c> {
    /// The faults of a circuit's list that have these numbers, from 0, in this order, before the first vector, with
    /// every flip-flop unknown.
    ///
    /// # Errors
    /// Out of memory.
    pub fn new(
        alloc: Global,
        circuit: &'c Circuit,
        faults: &FaultList,
        which: &[u32],
    ) -> Result<Grader<'c>, AllocError>
        requires faults { faults.now ≡ faults_of circuit.now }
        requires known { All (λ i. i < length faults.now) which.now }
        ensures start { IfOk result (λ grader. grader ≡ grades_at_start circuit.now
            (unknown_state circuit.now) (chosen_faults faults.now which.now)) }
        ensures stands { IfOk result
            (λ grader. GraderStandsFor grader (unknown_state circuit.now) []) }
    {
        let start = unknown_start(alloc, circuit)?;
        Grader::new_from(alloc, circuit, faults, which, &start)
    }

    /// The same where every machine starts with these values in its flip-flops.
    ///
    /// # Errors
    /// Out of memory.
    pub fn new_from(
        alloc: Global,
        circuit: &'c Circuit,
        faults: &FaultList,
        which: &[u32],
        start: &[Tern],
    ) -> Result<Grader<'c>, AllocError>
        requires faults { faults.now ≡ faults_of circuit.now }
        requires known { All (λ i. i < length faults.now) which.now }
        requires latches { IsStart circuit.now start.now }
        ensures start { IfOk result (λ grader. grader
            ≡ grades_at_start circuit.now start.now (chosen_faults faults.now which.now)) }
        ensures stands { IfOk result (λ grader. GraderStandsFor grader start.now []) }
    {
        let faults = choose(alloc, faults, which)?;
        let latches = Vec::from_slice(alloc, start)?;
        let kept = kept_at_start(alloc, faults.len())?;
        let frame = FrameGrader::new(alloc, circuit)?;
        Ok(Grader {
            faults,
            count: 0,
            latches,
            verdicts: kept.verdicts,
            undetected: kept.undetected,
            grades: kept.grades,
            frame,
            live: true,
        })
    }

    /// Applies one more vector: a frame of the good machine, and one of the machine of each fault that isn't detected,
    /// up to 256 at a time, where one machine may stand for all that show the same. Each gate is evaluated once for the
    /// good machine and at most once for each 64 faults, and `steps` counts that. It doesn't count what tells where
    /// effects end.
    ///
    /// # Errors
    /// Out of memory; the verdicts and the count are as before, and every later `apply` fails.
    pub fn apply(&mut self, vector: &[bool], steps: &mut Steps) -> Result<(), AllocError>
        requires width { length vector.now ≡ self.old.circuit.inputs }
        requires few { self.old.count < 2 ^ 62 }
        ensures applied { OnOk result (IsApplied self.old vector.now self.new) }
        ensures stands { OnOk result ((start : List tern.Tern) (list : List (List Bool))
            → GraderStandsFor self.old start list
            → GraderStandsFor self.new start (list ++ vector.now ∷ [])) }
        ensures err { OnErr result ((self.new.verdicts ≡ self.old.verdicts)
            × (self.new.live ≡ false)) }
        ensures uncounted { OnErr result (self.new.count ≡ self.old.count) }
        ensures dead { self.old.live ≡ false → IsErr result }
        ensures same { (self.new.circuit ≡ self.old.circuit)
            × (self.new.faults ≡ self.old.faults) }
        ensures steps { steps.new.count ≤ steps.old.count
            + length self.old.circuit.gates * (1 + groups_of self.old) }
        ensures counted { OnOk result (min (steps.old.count + length self.old.circuit.gates)
            max_steps ≤ steps.new.count) }
    {
        if !self.live {
            return Err(AllocError);
        }
        self.live = false;
        self.frame.start(vector, &self.latches, steps);
        let faults = &self.faults;
        let undetected = &self.undetected;
        self.frame
            .grade_faults(faults, undetected, self.count, &mut self.grades, steps)?;
        self.frame.read_latches(&mut self.latches);
        note_verdicts(&self.grades, &mut self.verdicts, &mut self.undetected);
        self.count += 1;
        self.live = true;
        Ok(())
    }

    /// How many vectors were applied.
    pub fn count(&self) -> u64
        ensures same { result ≡ self.now.count }
        ensures few { result ≤ 2 ^ 62 }
    {
        self.count
    }

    /// The first place where the vectors so far detect fault `k`, or none.
    pub fn verdict(&self, k: u32) -> Option<Place>
        requires { k < length self.now.faults }
        ensures verdict { result ≡ verdict_at self.now k }
        ensures place { ForSome result (IsPlace self.now.circuit) }
    {
        self.verdicts[k as usize]
    }

    /// What the flip-flops of the good machine hold after the vectors so far.
    pub fn good_latches(&self) -> &[Tern]
        ensures latches { result.now ≡ self.now.latches }
        ensures each { IsStart self.now.circuit result.now }
    {
        &self.latches
    }

    // What flip-flop `j` of the machine of fault `k` holds after the vectors so far.
    fn state(&self, k: u32, j: u32) -> Tern
        requires fault { k < length self.now.faults }
        requires dff { j < length self.now.circuit.dffs }
        ensures { result ≡ get_or (state_at self.now k) j Unk }
    {
        let differs = self.grades[k as usize].diffs.get(j);
        differs.unwrap_or(self.latches[j as usize])
    }

    /// What the flip-flops of the machine of fault `k` hold after the vectors so far, which has no meaning where the
    /// fault is detected.
    ///
    /// # Errors
    /// Out of memory.
    pub fn faulty_latches(&self, alloc: Global, k: u32) -> Result<Vec<Tern>, AllocError>
        requires { k < length self.now.faults }
        ensures state { IfOk result (λ latches. latches.items ≡ state_at self.now k) }
        ensures each { IfOk result (λ latches. IsStart self.now.circuit latches.items) }
    {
        let mut latches = Vec::new(alloc);
        for j in 0..self.frame.dffs() {
            latches.push(self.state(k, j))?;
        }
        Ok(latches)
    }
}
