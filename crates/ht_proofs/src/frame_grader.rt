//! One frame of all undetected faults.
ghost use Rattle.std.specs.Prelude.{◌≡◌, ◌↔◌, ◌<◌, ◌≤◌, ◌+◌, ◌*◌, ◌/◌, ℕ, [], None, Some, true, length, replicate, IfOk, IsTrue, OnOk};
ghost use Rattle.std.specs.List.{All, count_by, slice_get};
ghost use Rattle.ht_net.specs.declared.fault.Fault.{Fault};
ghost use Rattle.ht_net.specs.Circuit.Netlist.{net_count};
ghost use Rattle.ht_stems.specs.Arrivals.{HasLine};
ghost use Rattle.ht_stems.specs.ArrivedFrames.{AreGoodValues};
ghost use Rattle.ht_stems.specs.ArrivalsView.{good_of_net};
ghost use Rattle.ht_net.specs.Detect.Detection.{terns_of};
ghost use Rattle.ht_group.specs.GoodFrames.{AreFrameValues};
ghost use Rattle.ht_group.specs.GroupView.{AreLatches, max_machines, words_for};
ghost use Rattle.ht_proofs.specs.Applied.{good_state};
ghost use Rattle.ht_proofs.specs.LaneGrades.{grade_at, holds_good};
ghost use Rattle.ht_proofs.specs.Batches.{AddsAtMost, AreLanesBelow, ArePassedAll, FrameStart, HasBegunAt, HasBegunFrame, IsGradedFrame, undetected_count};
ghost use Rattle.ht_proofs.specs.Followers.{AreSharing, FrameStandsFor, firsts_if, following, no_firsts};
ghost use Rattle.ht_proofs.specs.Undetected.{undetected_of, verdicts_of};

use crate::batch::Batch;
use crate::grade::Grade;
use crate::stems::Stems;
use crate::steps::Steps;
use ht_group::MAX_MACHINES;
use ht_net::{Circuit, Fault};
use ht_tern::Tern;
use std::alloc::{AllocError, Global};
use std::marker::Model;

/// The lanes of a frame, and the faults that need none.
#[derive(Drop)]
pub struct FrameGrader<'c> {
    batch: Batch<'c>,
    stems: Stems<'c>,
}

impl<'c> Model for FrameGrader<'c> {
    ghost use Rattle.std.specs.Prelude.{◌≡◌, length};
    ghost use Rattle.ht_net.specs.Circuit.Netlist.{net_count};
    ghost use Rattle.ht_proofs.specs.Batches.{BatchView};

    ghost Value = { BatchView };

    ghost view = { λ a. a.batch };

    ghost invariant = { λ a. (a.stems.arrivals.circuit ≡ a.batch.group.circuit)
        × (length a.stems.firsts.items ≡ net_count a.batch.group.circuit) };
}

// Takes fault `i`, which isn't detected, through the frame: alone, in a lane, or as one that follows another.
fn grade_fault(
    batch: &mut Batch,
    stems: &mut Stems,
    fault: Fault,
    i: usize,
    number: u64,
    grades: &mut [Grade],
    steps: &mut Steps,
) -> Result<(), AllocError>
    requires known { i < length grades.old }
    requires undetected { (grade_at grades.old i).verdict ≡ None }
    requires line { HasLine batch.old.group.circuit fault.site }
    requires lanes { AreLanesBelow i batch.old grades.old }
    requires room { length batch.old.lanes < max_machines }
    requires circuit { stems.old.arrivals.circuit ≡ batch.old.group.circuit }
    requires table { length stems.old.firsts.items ≡ net_count batch.old.group.circuit }
    requires good { stems.old.found ≡ true → AreGoodValues batch.old.group.circuit
        batch.old.group.vector batch.old.group.latches (good_of_net stems.old.arrivals) }
    ensures stands { OnOk result ((start : FrameStart) → slice_get start.faults i ≡ Some fault
        → FrameStandsFor start number i batch.old stems.old grades.old steps.old.count
        → FrameStandsFor start number (i + 1) batch.new stems.new grades.new steps.new.count) }
    ensures circuit { batch.new.group.circuit ≡ batch.old.group.circuit }
    ensures table { length stems.new.firsts.items ≡ length stems.old.firsts.items }
    ensures arrivals { stems.new.arrivals ≡ stems.old.arrivals }
    ensures found { stems.new.found ≡ stems.old.found }
    ensures steps { AddsAtMost
        (length batch.old.group.circuit.gates * words_for (length batch.old.lanes + 1))
        steps.old.count steps.new.count }
{
    let in_lane = stems.needs_lane(batch, fault, i, number, grades)?;
    if !in_lane {
        return Ok(());
    }
    batch.take(fault, i, number, grades, steps)
}

// Takes the faults with these numbers, which are those undetected, through the frame, but for those that follow others.
fn grade_each(
    batch: &mut Batch,
    stems: &mut Stems,
    faults: &[Fault],
    undetected: &[usize],
    number: u64,
    grades: &mut [Grade],
    steps: &mut Steps,
) -> Result<(), AllocError>
    requires undetected { undetected.now ≡ undetected_of (verdicts_of grades.old) }
    requires numbers { All (λ k. k < length faults.now) undetected.now }
    requires each { length faults.now ≡ length grades.old }
    requires lines { (k : ℕ) (fault : Fault) → slice_get faults.now k ≡ Some fault
        → HasLine batch.old.group.circuit fault.site }
    requires known { (k : ℕ)
        → AreLatches batch.old.group.circuit (grade_at grades.old k).diffs }
    requires started { (batch.old.lanes ≡ []) × (batch.old.group.machines ≡ []) }
    requires circuit { stems.old.arrivals.circuit ≡ batch.old.group.circuit }
    requires table { length stems.old.firsts.items ≡ net_count batch.old.group.circuit }
    requires firsts { stems.old.found ≡ true → stems.old.firsts.items
        ≡ replicate (net_count batch.old.group.circuit) no_firsts }
    requires followers { stems.old.followers.items ≡ [] }
    requires good { stems.old.found ≡ true → AreGoodValues batch.old.group.circuit
        batch.old.group.vector batch.old.group.latches (good_of_net stems.old.arrivals) }
    ensures passed { OnOk result (ArePassedAll batch.old.group faults.now number grades.old
        (following stems.new.followers.items) grades.new) }
    ensures shared { OnOk result (AreSharing batch.old.group faults.now number grades.old
        (length faults.now) (firsts_if stems.new.found stems.new.firsts.items)
        stems.new.followers.items) }
    ensures known { OnOk result ((k : ℕ)
        → AreLatches batch.old.group.circuit (grade_at grades.new k).diffs) }
    ensures good { OnOk result (good_state batch.new.group ≡ good_state batch.old.group) }
    ensures circuit { batch.new.group.circuit ≡ batch.old.group.circuit }
    ensures table { length stems.new.firsts.items ≡ length stems.old.firsts.items }
    ensures arrivals { stems.new.arrivals ≡ stems.old.arrivals }
    ensures found { stems.new.found ≡ stems.old.found }
    ensures steps { steps.new.count ≤ steps.old.count
        + length batch.old.group.circuit.gates * words_for (undetected_count grades.old) }
    ensures rises { steps.old.count ≤ steps.new.count }
{
    for i in undetected {
        grade_fault(batch, stems, faults[*i], *i, number, grades, steps)?;
    }
    if batch.is_empty() {
        return Ok(());
    }
    batch.grade_lanes(number, grades, steps)
}

// How many of the faults with these numbers hold the good latches.
fn count_holders(numbers: &[usize], grades: &[Grade]) -> usize
    requires { All (λ k. k < length grades.now) numbers.now }
    ensures { result ≡ count_by (λ k. holds_good (grade_at grades.now k)) numbers.now }
{
    let mut count = 0;
    for i in numbers {
        if grades[*i].diffs.entries().is_empty() {
            count += 1;
        }
    }
    count
}

// Whether it pays to find where effects end, which takes about two evaluations for each net: there are as many faults
// that hold the good latches as a group has lanes, and as an eighth of the nets. With fewer faults the pass over all
// nets costs more than fewer lanes save: `compact`, where few are left, took 5.9 seconds in plain Rust before there was
// this condition, and takes 2.9. Only the price of the frame depends on it.
fn pays(holders: usize, nets: usize) -> bool
    ensures { IsTrue result ↔ ((max_machines ≤ holders) × (nets / 8 ≤ holders)) }
{
    holders >= MAX_MACHINES as usize && holders >= nets / 8
}

impl<'c> FrameGrader<'c> {
    /// No faults, and no frame yet.
    ///
    /// # Errors
    /// Out of memory.
    pub fn new(alloc: Global, circuit: &'c Circuit) -> Result<FrameGrader<'c>, AllocError>
        ensures { IfOk result (λ frame. frame.group.circuit ≡ circuit.now) }
    {
        let batch = Batch::new(alloc, circuit)?;
        match Stems::new(alloc, circuit, batch.good_values()) {
            Ok(stems) => Ok(FrameGrader { batch, stems }),
            Err(error) => {
                // for the proof: dropped by name
                drop(batch);
                Err(error)
            },
        }
    }

    /// Begins a frame with the good machine, each of whose gates is evaluated once.
    pub fn start(&mut self, vector: &[bool], latches: &[Tern], steps: &mut Steps)
        requires width { length vector.now ≡ self.old.group.circuit.inputs }
        requires each { length latches.now ≡ length self.old.group.circuit.dffs }
        ensures { HasBegunFrame self.old vector.now latches.now steps.old.count self.new
            steps.new.count }
    {
        self.batch.start(vector, latches, steps);
    }

    /// The same where the values of all nets in the good machine's frame are known: no gate is evaluated.
    pub fn start_at(&mut self, vector: &[bool], latches: &[Tern], values: &[Tern])
        requires width { length vector.now ≡ self.old.group.circuit.inputs }
        requires each { length latches.now ≡ length self.old.group.circuit.dffs }
        requires values { AreFrameValues self.old.group.circuit (terns_of vector.now) latches.now
            values.now }
        ensures { HasBegunAt self.old vector.now latches.now self.new }
    {
        self.batch.start_at(vector, latches, values);
    }

    /// The values of all nets in the good machine's frame, by the number of the net.
    pub fn good_values(&self) -> &[Tern]
        ensures { AreFrameValues self.now.group.circuit self.now.group.vector
            self.now.group.latches result.now }
    {
        self.batch.good_values()
    }

    /// How many flip-flops there are.
    pub fn dffs(&self) -> u32
        ensures { result ≡ length self.now.group.circuit.dffs }
    {
        self.batch.dffs()
    }

    /// Writes the latches of the good machine after the frame.
    pub fn read_latches(&self, latches: &mut [Tern])
        requires { length latches.old ≡ length self.now.group.circuit.dffs }
        ensures { latches.new ≡ good_state self.now.group }
    {
        self.batch.read_latches(latches);
    }

    /// Takes the faults with these numbers, which are those undetected, through the frame that has begun.
    ///
    /// # Errors
    /// Out of memory; then what is kept of the faults has no meaning.
    pub fn grade_faults(
        &mut self,
        faults: &[Fault],
        undetected: &[usize],
        number: u64,
        grades: &mut [Grade],
        steps: &mut Steps,
    ) -> Result<(), AllocError>
        requires undetected { undetected.now ≡ undetected_of (verdicts_of grades.old) }
        requires numbers { All (λ k. k < length faults.now) undetected.now }
        requires each { length faults.now ≡ length grades.old }
        requires lines { (k : ℕ) (fault : Fault) → slice_get faults.now k ≡ Some fault
            → HasLine self.old.group.circuit fault.site }
        requires known { (k : ℕ)
            → AreLatches self.old.group.circuit (grade_at grades.old k).diffs }
        requires started { (self.old.lanes ≡ []) × (self.old.group.machines ≡ []) }
        ensures passed { OnOk result (IsGradedFrame self.old.group faults.now number grades.old
            grades.new) }
        ensures known { OnOk result ((k : ℕ)
            → AreLatches self.old.group.circuit (grade_at grades.new k).diffs) }
        ensures good { OnOk result (good_state self.new.group ≡ good_state self.old.group) }
        ensures circuit { self.new.group.circuit ≡ self.old.group.circuit }
        ensures steps { steps.new.count ≤ steps.old.count
            + length self.old.group.circuit.gates * words_for (undetected_count grades.old) }
        ensures rises { steps.old.count ≤ steps.new.count }
    {
        let good = self.batch.good_values();
        let find = pays(count_holders(undetected, grades), good.len());
        self.stems.start(good, find);
        grade_each(
            &mut self.batch,
            &mut self.stems,
            faults,
            undetected,
            number,
            grades,
            steps,
        )?;
        self.stems.copy_grades(grades)
    }
}
