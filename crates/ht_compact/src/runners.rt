//! Machines of some wanted faults that run over a list without a run of vectors: what they are before it.
ghost use Rattle.std.specs.Prelude.{◌≡◌, ◌<◌, ◌≤◌, ℕ, [], None, length, IfOk};
ghost use Rattle.std.specs.List.{All, range_with_len, slice_get};
ghost use Rattle.ht_net.specs.Detect.Detection.{unknown_state};
ghost use Rattle.ht_proofs.specs.LaneGrades.{grade_at};
ghost use Rattle.ht_compact.specs.Moments.{differences_before, history_at, moment_at, number_at};
ghost use Rattle.ht_compact.specs.GradedLists.{CanTakePart, MayRun};
ghost use Rattle.ht_compact.specs.Runs.{AreRunners, runner_at};

use crate::graded::GradedVectors;
use crate::history::History;
use crate::moment::Moment;
use crate::part::Part;
use ht_group::Diffs;
use ht_net::{Circuit, Fault, unknown_start};
use ht_proofs::Grade;
use ht_tern::Tern;
use std::alloc::{AllocError, Global};

/// The machine of a wanted fault, from the vector on where the lists differ.
#[derive(Drop)]
pub struct Runner {
    /// The fault, by its place among the wanted ones.
    pub place: usize,
    /// Its differences before each vector that it ran.
    pub log: History,
    /// Where its history goes on as it was: at its end, unless the machine has joined it.
    pub rest: usize,
}

/// The good machine at a vector of a shorter list, and the machines of some wanted faults beside it.
#[derive(Drop)]
pub struct Runners {
    /// The latches of the good machine.
    pub latches: Vec<Tern>,
    /// Whether the good machine holds what it held in the list that is kept.
    pub joined: bool,
    /// What it held before each vector until then.
    pub moments: Vec<Moment>,
    pub runners: Vec<Runner>,
    /// The fault of each runner.
    pub faults: Vec<Fault>,
    /// What is kept of each: where it has a verdict, it has been shown or has joined.
    pub grades: Vec<Grade>,
    /// The runners without a verdict, rising.
    pub undetected: Vec<usize>,
}

// A runner for each of these wanted faults, which has run no vector.
fn runners_of(
    alloc: Global,
    histories: &[History],
    places: &[usize],
) -> Result<Vec<Runner>, AllocError>
    requires { All (λ k. k < length histories.now) places.now }
    ensures every { IfOk result (λ runners. length runners.items ≡ length places.now) }
    ensures each { IfOk result (λ runners. (j : ℕ) → j < length places.now
        → runner_at runners.items j ≡ record {
          place = number_at places.now j;
          log = [];
          rest = length (history_at histories.now (number_at places.now j));
        }) }
{
    let mut runners = Vec::with_capacity(alloc, places.len())?;
    for k in places {
        runners.push(Runner {
            place: *k,
            log: History::new(alloc),
            rest: histories[*k].len(),
        })?;
    }
    Ok(runners)
}

// The differences that a history has before a vector, and none where it ends before.
fn diffs_before(alloc: Global, history: &History, t: usize) -> Result<Diffs, AllocError>
    ensures { IfOk result (λ diffs. diffs ≡ differences_before history.now t) }
{
    if t < history.len() {
        return history.at(t);
    }
    Ok(Diffs::new(alloc))
}

// What is kept of these wanted faults before vector `from`: none has shown anything.
fn grades_of(
    alloc: Global,
    histories: &[History],
    places: &[usize],
    from: usize,
) -> Result<Vec<Grade>, AllocError>
    requires { All (λ k. k < length histories.now) places.now }
    ensures every { IfOk result (λ grades. length grades.items ≡ length places.now) }
    ensures each { IfOk result (λ grades. (j : ℕ) → j < length places.now
        → grade_at grades.items j ≡ record {
          verdict = None;
          diffs = differences_before (history_at histories.now (number_at places.now j)) from;
        }) }
{
    let mut grades = Vec::with_capacity(alloc, places.len())?;
    for k in places {
        grades.push(Grade {
            verdict: None,
            diffs: diffs_before(alloc, &histories[*k], from)?,
        })?;
    }
    Ok(grades)
}

// The faults at these places.
fn faults_of(alloc: Global, faults: &[Fault], places: &[usize]) -> Result<Vec<Fault>, AllocError>
    requires { All (λ k. k < length faults.now) places.now }
    ensures every { IfOk result (λ chosen. length chosen.items ≡ length places.now) }
    ensures each { IfOk result (λ chosen. (j : ℕ) → j < length places.now
        → slice_get chosen.items j ≡ slice_get faults.now (number_at places.now j)) }
{
    let mut chosen = Vec::with_capacity(alloc, places.len())?;
    for k in places {
        chosen.push(faults[*k])?;
    }
    Ok(chosen)
}

// So many numbers, rising.
fn all_numbers(alloc: Global, count: usize) -> Result<Vec<usize>, AllocError>
    ensures { IfOk result (λ numbers. numbers.items ≡ range_with_len 0 count) }
{
    let mut numbers = Vec::with_capacity(alloc, count)?;
    for k in 0..count {
        numbers.push(k)?;
    }
    Ok(numbers)
}

// The latches of the good machine before vector `from`.
fn latches_before(
    alloc: Global,
    circuit: &Circuit,
    moments: &[Moment],
    from: usize,
) -> Result<Vec<Tern>, AllocError>
    ensures known { IfOk result (λ latches. (d : Moment) → from < length moments.now
        → latches.items ≡ (moment_at moments.now from d).latches.items) }
    ensures unknown { IfOk result (λ latches. length moments.now ≤ from
        → latches.items ≡ unknown_state circuit.now) }
{
    if from < moments.len() {
        return Vec::from_slice(alloc, &moments[from].latches);
    }
    unknown_start(alloc, circuit)
}

impl Runners {
    /// The machines of these wanted faults before the vectors of a part.
    ///
    /// # Errors
    ///
    /// `AllocError`: out of memory.
    pub fn take_up(
        alloc: Global,
        circuit: &Circuit,
        graded: &GradedVectors,
        part: Part,
        places: &[usize],
    ) -> Result<Runners, AllocError>
        requires may { MayRun circuit.now graded.now part.from part.to }
        requires places { All (CanTakePart graded.now part.from) places.now }
        ensures run { IfOk result (AreRunners circuit.now graded.now part.from part.to 0) }
        ensures every { IfOk result (λ run. length run.runners.items ≡ length places.now) }
        ensures places { IfOk result (λ run. (j : ℕ) → j < length places.now
            → (runner_at run.runners.items j).place ≡ number_at places.now j) }
    {
        let from = part.from as usize;
        let latches = latches_before(alloc, circuit, &graded.moments, from)?;
        let runners = runners_of(alloc, &graded.histories, places)?;
        let faults = faults_of(alloc, &graded.faults, places)?;
        let grades = grades_of(alloc, &graded.histories, places, from)?;
        let undetected = all_numbers(alloc, places.len())?;
        Ok(Runners {
            latches,
            joined: false,
            moments: Vec::new(alloc),
            runners,
            faults,
            grades,
            undetected,
        })
    }
}
