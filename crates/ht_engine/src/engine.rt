//! The generator over the representatives of the chosen faults, one step at a time.
ghost use Rattle.std.specs.Prelude.{◌≡◌, ◌≢◌, ◌↔◌, ◌≤◌, ◌<◌, ◌+◌, ◌∷◌, ◌++◌, ◌^◌, ℕ, List, Bool, [], true, false, None, Some, length, get_or, IfOk, MatchOption, OnErr, OnOk};
ghost use Rattle.std.specs.Option.{ForSome};
ghost use Rattle.ht_net.specs.Detect.Detection.{IsStart, state_from};
ghost use Rattle.ht_faults.specs.Sites.{faults_of};
ghost use Rattle.ht_faults.specs.Classes.{AreClasses, fault_at};
ghost use Rattle.ht_tree.specs.declared.limits.TheConstants.{MAX_BUDGET};
ghost use Rattle.ht_texts.specs.SearchReports.{IsBudget};
ghost use Rattle.ht_texts.specs.Verdicts.{IsSayable};
ghost use Rattle.ht_proofs.specs.ClassGraderView.{ClassGraderStandsFor};
ghost use Rattle.ht_valid.specs.ValidFiles.{IsOwn};
ghost use Rattle.ht_engine.specs.declared.step.Step as made;
ghost use Rattle.ht_engine.specs.declared.step.Step.TheVariants as made_step;
ghost use Rattle.ht_engine.specs.declared.work.Work.TheVariants as work;
ghost use Rattle.ht_engine.specs.OneStep.{AddsVectors, Advances, DrawsFirst, IsNextOf, IsNextUndetected, IsUndetected, IsWorkOn, said_by};
ghost use Rattle.ht_engine.specs.FaultWork.{HoldsIfAny, IsNamedInvariant};
ghost use Rattle.ht_engine.specs.FirstVectors.{rest_of};
ghost use Rattle.ht_engine.specs.Steps.{first_vectors, one_vector};
ghost use Rattle.ht_engine.specs.EngineStands.{EngineStandsFor, HasGraded, HasSameWork, IsSaid, Makes, MeansOfStep, remaining};

use crate::chosen::mark_chosen;
use crate::deep::work_deep;
use crate::first_vectors::FirstVectors;
use crate::settings::{Search, Settings};
use crate::step::Step;
use crate::work::{Work, work_on};
use ht_faults::{Classes, FaultList};
use ht_invariant::{Invariant, find};
use ht_items::Items;
use ht_net::{Circuit, Vectors, some_state};
use ht_proofs::ClassGrader;
use ht_texts::Said;
use ht_tree::{Entry, EntryKind};
use ht_window::{Bases, PairState};
use std::alloc::{AllocError, Global};
use std::marker::Model;

// No fault has an entry yet.
fn no_kinds(alloc: Global, count: u32) -> Result<Vec<Option<EntryKind>>, AllocError>
    ensures each { IfOk result (λ kinds. length kinds.items ≡ count) }
    ensures none { IfOk result (λ kinds. (i : ℕ) → i < count → get_or kinds.items i None ≡ None) }
{
    vec![in alloc; None; count as usize]
}

// What is said of a fault that no vectors detect, by the kind of its entry.
fn said_by(kind: Option<EntryKind>) -> Said
    ensures { result ≡ said_by kind }
{
    match kind {
        None => Said::Undetected,
        Some(EntryKind::Untestable) => Said::Untestable,
        Some(EntryKind::Undetectable) => Said::Undetectable,
        Some(EntryKind::Aborted) => Said::Aborted,
    }
}

// The clauses that hold in each run from the start, with 0 where it is unknown.
fn find_named(
    alloc: Global,
    circuit: &Circuit,
    settings: &Settings,
) -> Result<Invariant, AllocError>
    requires { IsStart circuit.now settings.now.start }
    ensures found { IfOk result
        (IsNamedInvariant circuit.now settings.now.start settings.now.budget) }
    ensures holds { IfOk result (HoldsIfAny circuit.now) }
{
    let start = settings.start.as_slice();
    let named = some_state(alloc, start)?;
    let named_invariant = find(alloc, circuit, &named, settings.budget)?;
    Ok(named_invariant)
}

// What a generator grades its vectors with, copies its windows from, and draws its first vectors from.
#[derive(Drop)]
struct Tools<'c> {
    grader: ClassGrader<'c>,
    // what the windows for each fault are copied from
    bases: Bases<'c>,
    // the vectors that come before all work
    first: FirstVectors<'c>,
}

impl<'c> Tools<'c> {
    // The tools before the first step.
    fn new(
        alloc: Global,
        circuit: &'c Circuit,
        faults: &FaultList,
        classes: &'c Classes,
        settings: &'c Settings,
    ) -> Result<Tools<'c>, AllocError>
        requires faults { faults.now ≡ faults_of circuit.now }
        requires classes { AreClasses circuit.now classes.now }
        requires latches { IsStart circuit.now settings.now.start }
        requires first { settings.now.first.width ≡ circuit.now.inputs }
        ensures circuit { IfOk result (λ tools. tools.grader.machines.circuit ≡ circuit.now) }
        ensures classes { IfOk result (λ tools. tools.grader.representatives ≡ classes.now) }
        ensures stands { IfOk result
            (λ tools. ClassGraderStandsFor tools.grader settings.now.start []) }
        ensures bases { IfOk result (λ tools. tools.bases.circuit ≡ circuit.now) }
        ensures width { IfOk result (λ tools. tools.first.width ≡ circuit.now.inputs) }
        ensures rest { IfOk result
            (λ tools. rest_of tools.first ≡ first_vectors circuit.now settings.now) }
    {
        let first = FirstVectors::new(alloc, circuit.inputs(), settings)?;
        let bases = Bases::new(alloc, circuit)?;
        let start = settings.start.as_slice();
        match ClassGrader::new_from(alloc, circuit, faults, classes, start) {
            Ok(grader) => Ok(Tools {
                grader,
                bases,
                first,
            }),
            Err(error) => {
                // for the proof: dropped by name
                drop(bases);
                drop(first);
                Err(error)
            },
        }
    }
}

/// A generator that stands for the steps that it gave. It keeps what their vectors detect, and the kinds of their
/// entries.
#[derive(Drop)]
pub struct Engine<'c> {
    alloc: Global,
    circuit: &'c Circuit,
    faults: &'c FaultList,
    classes: &'c Classes,
    settings: &'c Settings,
    // the clauses that hold in each run from the state that is named: the start, with 0 where it is unknown
    named_invariant: Invariant,
    // whether each fault is a representative that is to be worked on, by number from 0
    chosen: Vec<bool>,
    // the kind of each fault's entry, by number from 0
    kinds: Vec<Option<EntryKind>>,
    tools: Tools<'c>,
    // the first fault that may still await its verdict
    first_awaiting: u32,
    live: bool,
}

impl<'c> Model for Engine<'c> {
    ghost use Rattle.ht_engine.specs.EngineStands.{EngineView};

    ghost Value = { EngineView };

    ghost use Rattle.ht_engine.specs.EngineOf.{engine_of, AreEngineFields};

    ghost view = { engine_of };

    ghost invariant = { AreEngineFields };
}

impl<'c> Engine<'c> {
    /// A generator before its first step. What the vectors show is from the start of the settings, and the state that
    /// refutations may name is the start with 0 where it is unknown.
    ///
    /// # Errors
    /// Out of memory.
    pub fn new(
        alloc: Global,
        circuit: &'c Circuit,
        faults: &'c FaultList,
        classes: &'c Classes,
        settings: &'c Settings,
    ) -> Result<Engine<'c>, AllocError>
        requires faults { faults.now ≡ faults_of circuit.now }
        requires classes { AreClasses circuit.now classes.now }
        requires budget { (0 < settings.now.budget) × (settings.now.budget ≤ MAX_BUDGET) }
        requires latches { IsStart circuit.now settings.now.start }
        requires first { settings.now.first.width ≡ circuit.now.inputs }
        ensures none { IfOk result (λ engine. EngineStandsFor engine []) }
        ensures circuit { IfOk result (λ engine. engine.circuit ≡ circuit.now) }
        ensures classes { IfOk result (λ engine. engine.representatives ≡ classes.now) }
        ensures settings { IfOk result (λ engine. engine.settings ≡ settings.now) }
        ensures live { IfOk result (λ engine. engine.live ≡ true) }
    {
        Ok(Engine {
            alloc,
            circuit,
            faults,
            classes,
            settings,
            named_invariant: find_named(alloc, circuit, settings)?,
            chosen: mark_chosen(alloc, classes, settings)?,
            kinds: no_kinds(alloc, classes.len())?,
            tools: Tools::new(alloc, circuit, faults, classes, settings)?,
            first_awaiting: 0,
            live: true,
        })
    }

    /// The budget of each search.
    pub fn budget(&self) -> u64
        ensures same { result ≡ self.now.settings.budget }
        ensures within { IsBudget self.now.settings.budget }
    {
        self.settings.budget
    }

    // Fault `i` represents its class, it is to be worked on, and the vectors so far don't detect it.
    fn is_undetected(&self, i: u32) -> bool
        requires { i < length self.now.representatives }
        ensures { (result ≡ true) ↔ IsUndetected self.now i }
    {
        if self.classes.of(i) != i {
            return false;
        }
        if !self.chosen[i as usize] {
            return false;
        }
        self.tools.grader.verdict(i).is_none()
    }

    // The least fault from the first one that may await its verdict on that is to be worked on and isn't detected.
    fn next_fault(&self) -> Option<u32>
        ensures next { IsNextOf self.now result }
        ensures fits { ForSome result (λ i. i + 1 < 2 ^ 32) }
    {
        for i in self.first_awaiting..self.classes.len() {
            if self.is_undetected(i) {
                return Some(i);
            }
        }
        None
    }

    // Draws the next of the first vectors.
    fn draw(&mut self) -> Result<Option<Vec<bool>>, AllocError>
        ensures next { IfOk result (λ next. MatchOption next
            ((self.old.rest ≡ []) × (self.new ≡ self.old))
            (λ vector. DrawsFirst self.old vector.items self.new)) }
        ensures same { OnErr result (self.new ≡ self.old) }
    {
        self.tools.first.next(self.alloc)
    }

    // Gives one of the first vectors by itself, and keeps it.
    fn give_first(&mut self, vector: Vec<bool>) -> Result<Step, AllocError>
        requires { length vector.items ≡ self.old.circuit.inputs }
        ensures given { IfOk result (λ step.
            step ≡ made_step.Vectors (one_vector self.old.circuit vector.items)) }
        ensures kept { OnOk result (AddsVectors self.old (vector.items ∷ []) self.new) }
        ensures same { OnErr result (HasSameWork self.old self.new) }
    {
        let mut one = Vectors::new(self.alloc, self.circuit.inputs());
        one.push(&vector)?;
        self.tools.grader.apply(&one)?;
        Ok(Step::Vectors(one))
    }

    // The states to which the vectors so far lead the good machine and that of a fault.
    fn states_reached(&self, fault: u32) -> Result<PairState, AllocError>
        requires { IsUndetected self.now fault }
        ensures good { IfOk result (λ states. (list : List (List Bool)) → HasGraded self.now list
            → states.good ≡ state_from self.now.circuit None self.now.settings.start list) }
        ensures faulty { IfOk result (λ states. (list : List (List Bool)) → HasGraded self.now list
            → states.bad ≡ state_from self.now.circuit (Some (fault_at self.now.circuit fault))
            self.now.settings.start list) }
        ensures each { IfOk result (λ states. IsStart self.now.circuit states.good
            × IsStart self.now.circuit states.bad) }
    {
        let good = self.tools.grader.good_state(self.alloc)?;
        let faulty = self.tools.grader.faulty_state(self.alloc, fault)?;
        Ok(PairState {
            good: Items::from_vec(good),
            bad: Items::from_vec(faulty),
        })
    }

    // The work on a fault, by the kind of search.
    fn work_by_search(&mut self, fault: u32) -> Result<Work, AllocError>
        requires { IsUndetected self.old fault }
        ensures same { self.new ≡ self.old }
        ensures work { IfOk result (IsWorkOn self.old fault) }
    {
        let listed = self.faults.get(fault);
        match self.settings.search {
            Search::Plain => work_on(
                self.alloc,
                &mut self.tools.bases,
                listed,
                self.settings.budget,
                &self.named_invariant,
            ),
            Search::Deep => {
                let states = self.states_reached(fault)?;
                work_deep(
                    self.alloc,
                    &mut self.tools.bases,
                    listed,
                    self.settings,
                    &self.named_invariant,
                    states,
                )
            },
        }
    }

    // Gives the list that the work on a fault found, and keeps its vectors.
    fn give_list(&mut self, fault: u32, list: Vectors) -> Result<Step, AllocError>
        requires fits { fault + 1 < 2 ^ 32 }
        requires none_left { self.old.rest ≡ [] }
        requires next { IsNextUndetected self.old fault }
        requires work { IsWorkOn self.old fault (work.List list) }
        ensures advances { IfOk result (Advances self.old self.new) }
        ensures same { OnErr result (HasSameWork self.old self.new) }
    {
        self.tools.grader.apply(&list)?;
        self.first_awaiting = fault + 1;
        Ok(Step::Vectors(list))
    }

    // Gives the entry that the work on a fault made, and keeps its kind.
    fn give_entry(&mut self, fault: u32, entry: Entry) -> Step
        requires fits { fault + 1 < 2 ^ 32 }
        requires none_left { self.old.rest ≡ [] }
        requires next { IsNextUndetected self.old fault }
        requires work { IsWorkOn self.old fault (work.Entry entry) }
        ensures { Advances self.old self.new result }
    {
        self.kinds[fault as usize] = Some(entry.kind());
        self.first_awaiting = fault + 1;
        Step::Entry { fault, entry }
    }

    // Works on the next fault, or ends, where all first vectors were given.
    fn work(&mut self) -> Result<Step, AllocError>
        requires { self.old.rest ≡ [] }
        ensures advances { IfOk result (Advances self.old self.new) }
        ensures same { OnErr result (HasSameWork self.old self.new) }
    {
        let Some(fault) = self.next_fault() else {
            self.first_awaiting = self.classes.len();
            return Ok(Step::Finished);
        };
        match self.work_by_search(fault)? {
            Work::List(list) => self.give_list(fault, list),
            Work::Entry(entry) => Ok(self.give_entry(fault, entry)),
        }
    }

    // The next step, or none where memory runs out.
    fn advance(&mut self) -> Result<Step, AllocError>
        ensures advances { IfOk result (Advances self.old self.new) }
        ensures same { OnErr result (HasSameWork self.old self.new) }
    {
        match self.draw()? {
            Some(vector) => self.give_first(vector),
            None => self.work(),
        }
    }

    /// The next step: one of the first vectors while one is left, and then what the work on the least representative that
    /// awaits its verdict gives.
    ///
    /// # Errors
    /// Out of memory; and then always.
    pub fn next(&mut self) -> Result<Step, AllocError>
        ensures work { HasSameWork self.old self.new }
        ensures step { (steps : List made.Step) → EngineStandsFor self.old steps
            → IfOk result (Makes self.old self.new steps) }
        ensures means { (steps : List made.Step) → EngineStandsFor self.old steps
            → IfOk result (MeansOfStep self.old steps) }
        // Each step brings the end nearer.
        ensures nears { IfOk result
            (λ step. step ≢ made_step.Finished → remaining self.new < remaining self.old) }
        ensures dead { OnErr result (self.new.live ≡ false) }
        ensures lives { OnOk result (self.old.live ≡ true) }
    {
        if !self.live {
            return Err(AllocError);
        }
        match self.advance() {
            Ok(step) => Ok(step),
            Err(error) => {
                self.live = false;
                Err(error)
            },
        }
    }

    /// What the steps so far say of a representative, by its number from 0. Once the generator is finished that isn't
    /// `Undetected` of one that is to be worked on.
    pub fn said(&self, fault: u32) -> Said
        requires { IsOwn self.now.circuit self.now.representatives fault }
        ensures said { (steps : List made.Step) → EngineStandsFor self.now steps
            → IsSaid self.now.circuit self.now.settings.start steps fault result }
        ensures sayable { IsSayable self.now.circuit result }
    {
        match self.tools.grader.verdict(fault) {
            Some(place) => Said::Detected(place),
            None => said_by(self.kinds[fault as usize]),
        }
    }
}
