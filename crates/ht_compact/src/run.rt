//! Machines of some wanted faults that run over a list without a run of vectors: vector by vector.
ghost use Rattle.std.specs.Prelude.{◌≡◌, ◌<◌, ◌≤◌, ◌+◌, ◌-◌, ◌⊎◌, ℕ, [], None, Some, length, IfOk, OnOk, IsTrue};
ghost use Rattle.std.specs.List.{All, filter, slice_get};
ghost use Rattle.std.specs.Option.{ForSome};
ghost use Rattle.ht_net.specs.declared.fault.Fault as fault;
ghost use Rattle.ht_net.specs.Circuit.Netlist.{Netlist};
ghost use Rattle.ht_net.specs.Detect.Detection.{terns_of};
ghost use Rattle.ht_stems.specs.Arrivals.{HasLine};
ghost use Rattle.ht_group.specs.GoodFrames.{AreFrameValues};
ghost use Rattle.ht_group.specs.GroupView.{AreLatches};
ghost use Rattle.ht_proofs.specs.Batches.{HasBegunAt};
ghost use Rattle.ht_proofs.specs.LaneGrades.{grade_at};
ghost use Rattle.ht_proofs.specs.Undetected.{is_undetected, undetected_of, verdicts_of};
ghost use Rattle.ht_compact.specs.declared.moment.Moment as moment;
ghost use Rattle.ht_compact.specs.DetectedFaults.{IsMissed};
ghost use Rattle.ht_compact.specs.Moments.{moment_at, number_at, vector_at};
ghost use Rattle.ht_compact.specs.GradedLists.{MayRun, shorter};
ghost use Rattle.ht_compact.specs.Runs.{AreRunners, HasMet, HaveBegun, HaveEnded, HaveJoined, HaveLogged, HavePassed, HaveSamePlaces, MayHaveJoined, SomeJoined, runner_at};

use crate::graded::GradedVectors;
use crate::history::History;
use crate::moment::Moment;
use crate::part::Part;
use crate::runners::{Runner, Runners};
use ht_net::Place;
use ht_proofs::{FrameGrader, Grade, Steps};
use ht_tern::Tern;
use std::alloc::{AllocError, Global};

// Whether latches hold the same; where they do, a `true` says so.
fn are_same(latches: &[Tern], others: &[Tern]) -> bool
    ensures { IsTrue result → latches.now ≡ others.now }
{
    latches == others
}

// Whether grade `k` has no verdict.
fn is_open(grades: &[Grade], k: usize) -> bool
    ensures { result ≡ is_undetected (verdicts_of grades.now) k }
{
    k >= grades.len() || grades[k].verdict.is_none()
}

// Leaves those without a verdict among the numbers of grades.
fn drop_ended(grades: &[Grade], numbers: &mut Vec<usize>)
    ensures { numbers.new.items
        ≡ filter (is_undetected (verdicts_of grades.now)) numbers.old.items }
{
    numbers.retain(|k| is_open(grades, *k));
}

// Notes the differences of each fault that runs.
fn log_each(
    undetected: &[usize],
    grades: &[Grade],
    runners: &mut [Runner],
) -> Result<(), AllocError>
    requires undetected { undetected.now ≡ undetected_of (verdicts_of grades.now) }
    requires known { All (λ j. j < length grades.now) undetected.now }
    requires each { length grades.now ≡ length runners.old }
    ensures { OnOk result (HaveLogged grades.now runners.old runners.new) }
{
    for j in undetected {
        let diffs = grades[*j].diffs.copy()?;
        runners[*j].log.push(diffs)?;
    }
    Ok(())
}

// A fault that runs has joined its history where it holds what it held before vector `t`: it will be detected as it was.
fn join_one(history: &History, t: u64, grade: &mut Grade, runner: &mut Runner)
    ensures { MayHaveJoined history.now t grade.old grade.new runner.old runner.new }
{
    let at = t as usize;
    if grade.verdict.is_none() && at < history.len() && history.holds(at, &grade.diffs) {
        grade.verdict = Some(Place {
            vector: t,
            output: 0,
        });
        runner.rest = at;
    }
}

// The faults that have joined their histories before vector `t` end.
fn join_each(
    undetected: &[usize],
    histories: &[History],
    t: u64,
    grades: &mut [Grade],
    runners: &mut [Runner],
)
    requires undetected { All (λ j. j < length grades.old) undetected.now }
    requires each { length grades.old ≡ length runners.old }
    requires places { (j : ℕ) → j < length runners.old
        → (runner_at runners.old j).place < length histories.now }
    ensures { SomeJoined histories.now t grades.old grades.new runners.old runners.new }
{
    for j in undetected {
        let place = runners[*j].place;
        join_one(&histories[place], t, &mut grades[*j], &mut runners[*j]);
    }
}

impl Runners {
    // The good machine has joined where it holds what it held before vector `t`.
    fn meet(&mut self, moments: &[Moment], t: u64)
        ensures same { self.new ≡ record self.old { joined = self.new.joined } }
        ensures stays { IsTrue self.old.joined → IsTrue self.new.joined }
        ensures met { IsTrue self.new.joined → (IsTrue self.old.joined)
            ⊎ HasMet moments.now t self.old.latches.items }
    {
        let at = t as usize;
        if !self.joined && at < moments.len() && are_same(&moments[at].latches, &self.latches) {
            self.joined = true;
        }
    }

    // Faults end that have joined their histories before vector `t`.
    fn end_joined(&mut self, histories: &[History], t: u64)
        requires listed { self.old.undetected.items
            ≡ undetected_of (verdicts_of self.old.grades.items) }
        requires each { length self.old.grades.items ≡ length self.old.runners.items }
        requires places { (j : ℕ) → j < length self.old.runners.items
            → (runner_at self.old.runners.items j).place < length histories.now }
        ensures { HaveJoined histories.now t self.old self.new }
    {
        join_each(
            &self.undetected,
            histories,
            t,
            &mut self.grades,
            &mut self.runners,
        );
        drop_ended(&self.grades, &mut self.undetected);
    }

    // Before vector `t` of the list that is kept: a fault ends that holds what it held then, beside a good machine that
    // does.
    fn join(&mut self, graded: &GradedVectors, t: u64)
        requires listed { self.old.undetected.items
            ≡ undetected_of (verdicts_of self.old.grades.items) }
        requires each { length self.old.grades.items ≡ length self.old.runners.items }
        requires places { (j : ℕ) → j < length self.old.runners.items
            → (runner_at self.old.runners.items j).place < length graded.now.histories.items }
        ensures run { (c : Netlist) (from to n : ℕ) → MayRun c graded.now from to → t ≡ to + n
            → to + n ≤ length graded.now.vectors.list
            → AreRunners c graded.now from to n self.old
            → AreRunners c graded.now from to n self.new }
        ensures places { HaveSamePlaces self.old.runners.items self.new.runners.items }
    {
        self.meet(&graded.moments, t);
        if self.joined {
            self.end_joined(&graded.histories, t);
        }
    }

    // Begins the frame of the good machine with vector `t` of the list that is kept. Where it has joined, the values of
    // its nets are known.
    fn start_frame(
        &mut self,
        alloc: Global,
        frame: &mut FrameGrader,
        graded: &GradedVectors,
        t: u64,
    ) -> Result<(), AllocError>
        requires width { graded.now.vectors.width ≡ frame.old.group.circuit.inputs }
        requires inside { t < length graded.now.vectors.list }
        requires latches { length self.old.latches.items ≡ length frame.old.group.circuit.dffs }
        requires there { IsTrue self.old.joined → t < length graded.now.moments.items }
        requires known { IsTrue self.old.joined → (d : moment.Moment)
            → AreFrameValues frame.old.group.circuit
            (terns_of (vector_at graded.now.vectors.list t)) self.old.latches.items
            (moment_at graded.now.moments.items t d).values.items }
        ensures frame { OnOk result (HasBegunAt frame.old (vector_at graded.now.vectors.list t)
            self.old.latches.items frame.new) }
        ensures begun { OnOk result (HaveBegun frame.old.group.circuit
            (vector_at graded.now.vectors.list t) self.old self.new) }
    {
        let vector = graded.vectors.get(t);
        if self.joined {
            frame.start_at(vector, &self.latches, &graded.moments[t as usize].values);
            return Ok(());
        }
        let mut steps = Steps::new();
        frame.start(vector, &self.latches, &mut steps);
        let latches = Vec::from_slice(alloc, &self.latches)?;
        let values = Vec::from_slice(alloc, frame.good_values())?;
        self.moments.push(Moment { latches, values })?;
        Ok(())
    }

    // Takes all machines through the frame that has begun.
    fn step(&mut self, frame: &mut FrameGrader, number: u64) -> Result<(), AllocError>
        requires lines { (j : ℕ) (f : fault.Fault) → slice_get self.old.faults.items j ≡ Some f
            → HasLine frame.old.group.circuit f.site }
        requires faults { length self.old.faults.items ≡ length self.old.grades.items }
        requires runners { length self.old.grades.items ≡ length self.old.runners.items }
        requires listed { self.old.undetected.items
            ≡ undetected_of (verdicts_of self.old.grades.items) }
        requires known { (j : ℕ)
            → AreLatches frame.old.group.circuit (grade_at self.old.grades.items j).diffs }
        requires latches { length self.old.latches.items ≡ length frame.old.group.circuit.dffs }
        requires started { (frame.old.lanes ≡ []) × (frame.old.group.machines ≡ []) }
        ensures circuit { frame.new.group.circuit ≡ frame.old.group.circuit }
        ensures passed { OnOk result (HavePassed frame.old.group number self.old self.new) }
    {
        log_each(&self.undetected, &self.grades, &mut self.runners)?;
        let mut steps = Steps::new();
        frame.grade_faults(
            &self.faults,
            &self.undetected,
            number,
            &mut self.grades,
            &mut steps,
        )?;
        frame.read_latches(&mut self.latches);
        drop_ended(&self.grades, &mut self.undetected);
        Ok(())
    }

    // Takes the machines through the frame of vector `t` of the list that is kept.
    fn pass(
        &mut self,
        alloc: Global,
        frame: &mut FrameGrader,
        graded: &GradedVectors,
        part: Part,
        t: u64,
    ) -> Result<(), AllocError>
        requires may { MayRun frame.old.group.circuit graded.now part.from part.to }
        requires order { part.to ≤ t }
        requires inside { t < length graded.now.vectors.list }
        requires run { AreRunners frame.old.group.circuit graded.now part.from part.to (t - part.to)
            self.old }
        ensures circuit { OnOk result (frame.new.group.circuit ≡ frame.old.group.circuit) }
        ensures run { OnOk result (AreRunners frame.old.group.circuit graded.now part.from part.to
            (t + 1 - part.to) self.new) }
        ensures places { OnOk result
            (HaveSamePlaces self.old.runners.items self.new.runners.items) }
    {
        self.start_frame(alloc, frame, graded, t)?;
        self.step(frame, part.from + (t - part.to))?;
        Ok(())
    }

    // Whether nothing else can change: all faults have ended, and the good machine holds what it held.
    fn has_ended(&self) -> bool
        ensures joined { IsTrue result → IsTrue self.now.joined }
        ensures undetected { IsTrue result → self.now.undetected.items ≡ [] }
    {
        self.joined && self.undetected.is_empty()
    }

    // A wanted fault that hasn't ended, if there is one.
    fn lost(&self) -> Option<usize>
        requires { All (λ j. j < length self.now.runners.items) self.now.undetected.items }
        ensures none { result ≡ None → self.now.undetected.items ≡ [] }
        ensures some { ForSome result (λ k. (0 < length self.now.undetected.items)
            × (k ≡ (runner_at self.now.runners.items
            (number_at self.now.undetected.items 0)).place)) }
    {
        if self.undetected.is_empty() {
            return None;
        }
        Some(self.runners[self.undetected[0]].place)
    }

    /// Runs the list that is kept without a part of its vectors, until each fault has been shown or has joined, and the
    /// good machine too, and gives a wanted fault that the shorter list misses, if there is one.
    ///
    /// # Errors
    ///
    /// `AllocError`: out of memory.
    pub fn run(
        &mut self,
        alloc: Global,
        frame: &mut FrameGrader,
        graded: &GradedVectors,
        part: Part,
    ) -> Result<Option<usize>, AllocError>
        requires may { MayRun frame.old.group.circuit graded.now part.from part.to }
        requires run { AreRunners frame.old.group.circuit graded.now part.from part.to 0 self.old }
        ensures circuit { OnOk result (frame.new.group.circuit ≡ frame.old.group.circuit) }
        ensures places { OnOk result
            (HaveSamePlaces self.old.runners.items self.new.runners.items) }
        ensures ended { IfOk result (λ lost. lost ≡ None
            → HaveEnded frame.old.group.circuit graded.now part.from part.to self.new) }
        ensures lost { IfOk result (λ lost. ForSome lost (IsMissed frame.old.group.circuit
            graded.now.wanted.items (shorter graded.now part.from part.to))) }
    {
        for t in part.to..graded.vectors.len() {
            self.join(graded, t);
            if self.has_ended() {
                return Ok(None);
            }
            self.pass(alloc, frame, graded, part, t)?;
        }
        Ok(self.lost())
    }
}
