//! A window under the decisions that stand.
ghost use Rattle.std.specs.Prelude.{◌≡◌, ◌<◌, ◌≤◌, ◌+◌, ◌++◌, ◌∷◌, ℕ, ◌-◌, [], length, get_or, take, true, false, None, IfOk, OnOk, OnErr};
ghost use Rattle.ht_tern.specs.declared.tern.Tern.TheVariants.{Unk};
ghost use Rattle.ht_pairs.specs.Pairs.{Pair, pair};
ghost use Rattle.ht_net.specs.Circuit.Netlist.{net_count};
ghost use Rattle.ht_trail.specs.Trails.{CellsState, IsLater};
ghost use Rattle.ht_tree.specs.Window.Decisions.{decided_value};
ghost use Rattle.ht_tree.specs.Window.Windows.{IsStart, IsWindow, cell_at, first_input, latches_at};
ghost use Rattle.ht_tree.specs.declared.window.Spot.TheVariants.{State};
ghost use Rattle.ht_tree.specs.Window.Places.{spot_net};
ghost use Rattle.ht_tree.specs.Walk.Walks.{decides};
ghost use Rattle.ht_relevant.specs.Relevant.{IsClosedBack, IsRelevant};
ghost use Rattle.ht_window.specs.Starts.{start_of, window_from};
ghost use Rattle.ht_window.specs.Cells.{AreCells};
ghost use Rattle.ht_window.specs.Matters.{is_relevant};
ghost use Rattle.ht_window.specs.Holding.{HeldState};
ghost use Rattle.ht_window.specs.States.{IsLegalDecision, WindowState, mark_before, undone};

use crate::held::Held;
use crate::setup::Setup;
use crate::start::Start;
use ht_events::{Core, FramePlan, MAX_FRAMES};
use ht_frame::data_pin;
use ht_net::{Circuit, Fault, NetId};
use ht_pairs::PairSet;
use ht_tern::Tern;
use ht_trail::Mark;
use std::alloc::{AllocError, Global};
use std::marker::Model;
use std::rc::Rc;

/// Some frames of the good and of the faulty machine over sets of pairs, under the decisions that stand.
#[derive(Drop)]
pub struct Window<'c> {
    pub(crate) held: Held<'c>,
    pub(crate) core: Core<'c>,
    // the mark before each decision
    pub(crate) marks: Vec<u64>,
}

impl<'c> Model for Window<'c> {
    ghost use Rattle.ht_window.specs.States.{WindowState};

    ghost Value = { WindowState };

    ghost use Rattle.ht_window.specs.States.{state_of, IsEvaluated};

    ghost view = { state_of };

    ghost invariant = { IsEvaluated };
}

// One more decision, which the cells follow. Where memory runs out the decision and some cells may be there already.
// Only what reads a change is evaluated. Each old value goes on the trail, so to go back evaluates nothing and writes
// only what was changed: 178,800 decisions of a wide window are made in 20.3 milliseconds and taken back in 0.5
// (docs/MEASURED.md).
fn follow(held: &mut Held, core: &mut Core, var: u32, choice: Tern) -> Result<(), AllocError>
    requires circuit { core.old.plan.circuit ≡ held.old.standing.window.circuit }
    requires frames { core.old.plan.frames ≡ held.old.standing.window.frames }
    requires legal { IsLegalDecision held.old.standing.window var choice }
    requires closed { IsClosedBack held.old.standing.window.circuit
        held.old.standing.window.frames (is_relevant held.old.relevant) }
    requires cells { AreCells held.old.standing.window (is_relevant held.old.relevant)
        held.old.standing.path held.old.cells.values }
    ensures plan { core.new.plan ≡ core.old.plan }
    ensures window { held.new.standing.window ≡ held.old.standing.window }
    ensures path { OnOk result (held.new.standing.path ≡ held.old.standing.path
        ++ record { var = var; value = choice } ∷ []) }
    ensures before { take (length held.old.standing.path) held.new.standing.path
        ≡ held.old.standing.path }
    ensures relevant { held.new.relevant ≡ held.old.relevant }
    ensures later { IsLater held.old.cells held.new.cells }
    ensures trail { OnOk result (length held.old.cells.trail < length held.new.cells.trail) }
    ensures cells { OnOk result
        (AreCells held.old.standing.window (is_relevant held.old.relevant)
        held.new.standing.path held.new.cells.values) }
{
    // for the proof: the window is well formed
    let _ = held.decisions();
    held.push(var, choice)?;
    let (frame, net) = held.var_place(var);
    held.write(frame, net)?;
    core.touch_loads(frame, NetId(net));
    core.settle(held)?;
    Ok(())
}

impl<'c> Window<'c> {
    /// A window of `frames` frames from a start, before its first decision, in which all nets matter. All room for its
    /// cells is taken here.
    ///
    /// # Errors
    /// Out of memory.
    pub fn new(
        alloc: Global,
        circuit: &'c Circuit,
        fault: Option<Fault>,
        frames: u32,
        start: &Start,
    ) -> Result<Window<'c>, AllocError>
        requires frames { frames ≤ MAX_FRAMES }
        requires start { IsStart circuit.now fault frames (start_of start.now) }
        ensures window { IfOk result (λ w. w.window
            ≡ window_from circuit.now fault frames start.now) }
        ensures decisions { IfOk result (λ w. w.decisions ≡ []) }
        ensures marks { IfOk result (λ w. w.marks ≡ []) }
        ensures whole { IfOk result (λ w. w.relevant ≡ None) }
    {
        let frame_plan = Rc::new(alloc, FramePlan::new(alloc, circuit)?)?;
        let setup = Setup {
            fault,
            frames,
            start,
        };
        let window = Window::with_plan(alloc, &frame_plan, &setup);
        // for the proof: dropped by name
        drop(frame_plan);
        window
    }

    /// One more decision: of a legal variable, numbered from 0, that is undecided. The cells follow it by events, each
    /// change on the trail.
    ///
    /// # Errors
    /// Out of memory; nothing is changed.
    pub fn decide(&mut self, var: u32, choice: Tern) -> Result<(), AllocError>
        requires legal { IsLegalDecision self.old.window var choice }
        requires undecided { decides self.old.decisions var ≡ false }
        ensures window { self.new.window ≡ self.old.window }
        ensures relevant { self.new.relevant ≡ self.old.relevant }
        ensures ok { OnOk result
            (self.new.decisions ≡ self.old.decisions ++ record { var = var; value = choice } ∷ []) }
        ensures marks { OnOk result (self.new.marks ≡ self.old.marks ++ self.old.mark ∷ []) }
        ensures greater { OnOk result (self.old.mark < self.new.mark) }
        ensures err { OnErr result (self.new ≡ self.old) }
    {
        let mark = self.held.mark();
        let count = self.marks.len();
        self.marks.push(mark.0)?;
        match follow(&mut self.held, &mut self.core, var, choice) {
            Ok(()) => Ok(()),
            Err(error) => {
                self.held.undo(count, mark);
                self.marks.truncate(count);
                Err(error)
            },
        }
    }

    /// The present mark.
    pub fn mark(&self) -> Mark
        ensures { result.0 ≡ self.now.mark }
    {
        self.held.mark()
    }

    /// Takes back the decisions that were made at a mark or later.
    pub fn undo(&mut self, mark: Mark)
        requires { (k : ℕ) × (k ≤ length self.old.decisions) × (mark.0 ≡ mark_before self.old k) }
        ensures { (k : ℕ) → k ≤ length self.old.decisions → mark.0 ≡ mark_before self.old k
            → self.new ≡ undone self.old k }
    {
        self.undo_to(self.count_before(mark));
    }

    /// How many decisions stand.
    pub fn decision_count(&self) -> usize
        ensures { result ≡ length self.now.decisions }
    {
        self.marks.len()
    }

    /// Leaves the first `count` decisions, and takes back the others.
    pub fn undo_to(&mut self, count: usize)
        requires { count ≤ length self.old.decisions }
        ensures { self.new ≡ undone self.old count }
    {
        let mark = self.mark_before(count);
        self.held.undo(count, mark);
        self.marks.truncate(count);
    }

    // The mark before decision `count`, or the present one.
    fn mark_before(&self, count: usize) -> Mark
        requires { count ≤ length self.now.decisions }
        ensures { result.0 ≡ mark_before self.now count }
    {
        match self.marks.get(count) {
            Some(mark) => Mark(*mark),
            None => self.held.mark(),
        }
    }

    // How many decisions were made before a mark.
    fn count_before(&self, mark: Mark) -> usize
        ensures { (k : ℕ) → k ≤ length self.now.decisions → mark.0 ≡ mark_before self.now k → result
            ≡ k }
    {
        let mut count = self.marks.len();
        while count > 0 {
            if self.marks[count - 1] < mark.0 {
                return count;
            }
            count -= 1;
        }
        0
    }

    /// The window's circuit. In a window of the good machine all nets matter.
    pub fn circuit(&self) -> &'c Circuit
        ensures circuit { result.now ≡ self.now.window.circuit }
        ensures valid { IsWindow self.now.window }
        ensures whole { self.now.window.fault ≡ None → self.now.relevant ≡ None }
    {
        let decisions = self.held.decisions();
        decisions.circuit()
    }

    // How many flip-flops the circuit has.
    pub(crate) fn dffs(&self) -> u32
        ensures { result ≡ length self.now.window.circuit.dffs }
    {
        self.held.decisions().dffs()
    }

    // The window's fault.
    pub(crate) fn fault(&self) -> Option<Fault>
        ensures { result ≡ self.now.window.fault }
    {
        self.held.decisions().fault()
    }

    // How many frames the window has.
    pub(crate) fn frames(&self) -> u32
        ensures frames { result ≡ self.now.window.frames }
        ensures few { self.now.window.frames ≤ MAX_FRAMES }
    {
        self.held.decisions().frames()
    }

    // How the window starts.
    pub(crate) fn start(&self) -> &Start
        ensures { start_of result.now ≡ self.now.window.start }
    {
        self.held.decisions().start()
    }

    // Whether the decisions give a variable a value.
    pub(crate) fn is_decided(&self, var: u32) -> bool
        ensures { result ≡ decides self.now.decisions var }
    {
        self.held.decisions().is_decided(var)
    }

    /// The variable of input i of a frame. Frames and inputs count from 0.
    pub fn input_var(&self, frame: u32, i: u32) -> u32
        requires frame { frame < self.now.window.frames }
        requires input { i < self.now.window.circuit.inputs }
        ensures { result ≡ first_input self.now.window frame + i }
    {
        self.held.decisions().input_var(frame, i)
    }

    // Whether a net of a frame matters.
    #[inline(always)]
    pub(crate) fn matters(&self, frame: u32, net: NetId) -> bool
        requires { frame < self.now.window.frames }
        ensures { result ≡ is_relevant self.now.relevant frame net.0 }
    {
        self.held.matters(frame, net.0)
    }

    // For proofs: the nets that matter are relevant to the window.
    #[inline(always)]
    pub(crate) fn relevance(&self)
        ensures { IsRelevant self.now.window (is_relevant self.now.relevant) }
    {
        let _ = &self.held;
    }

    /// The set of a net in a frame, where it matters.
    pub fn cell(&self, frame: u32, net: NetId) -> PairSet
        requires frame { frame < self.now.window.frames }
        requires net { net.0 < net_count self.now.window.circuit }
        requires matters { is_relevant self.now.relevant frame net.0 ≡ true }
        ensures { result ≡ cell_at self.now.window self.now.decisions frame net.0 }
    {
        self.held.cell(frame, net.0)
    }

    /// The next state of a latch after the last frame, where its data net matters there.
    pub fn next_state(&self, j: u32) -> PairSet
        requires dff { j < length self.now.window.circuit.dffs }
        requires matters { is_relevant self.now.relevant (self.now.window.frames - 1)
            (spot_net self.now.window.circuit (State j)) ≡ true }
        ensures { result ≡ get_or
            (latches_at self.now.window self.now.decisions self.now.window.frames) j
            (pair Unk Unk ∷ []) }
    {
        let decisions = self.held.decisions();
        let circuit = decisions.circuit();
        // for the proof: the circuit is well formed
        let _ = circuit.nets();
        let last = decisions.frames() - 1;
        data_pin(decisions.fault(), j, self.cell(last, circuit.dff_data(j)))
    }

    /// The value that the decisions give a variable; none where it is undecided.
    pub fn decided(&self, var: u32) -> Option<Tern>
        ensures { result ≡ decided_value self.now.decisions var }
    {
        self.held.decisions().value(var)
    }
}
