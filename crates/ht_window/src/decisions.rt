//! A window and the decisions that stand.
ghost use Rattle.std.specs.Prelude.{◌≡◌, ◌<◌, ◌≤◌, ◌+◌, ◌++◌, ◌∷◌, ℕ, [], None, false, take, length, get_or, IfOk, OnOk, OnErr};
ghost use Rattle.ht_tern.specs.declared.tern.Tern.TheVariants.{Unk};
ghost use Rattle.ht_pairs.specs.Decided.{same_pairs};
ghost use Rattle.ht_tree.specs.Window.Decisions.{decided_value};
ghost use Rattle.ht_tree.specs.Window.Windows.{IsStart, IsWindow, first_input, first_latch};
ghost use Rattle.ht_tree.specs.Walk.Walks.{decides};
ghost use Rattle.ht_window.specs.Starts.{start_of, window_from};
ghost use Rattle.ht_window.specs.Standing.{variable_room};

use crate::sets::{latch, same_or_unknown};
use crate::start::Start;
use ht_events::MAX_FRAMES;
use ht_net::{Circuit, Fault};
use ht_pairs::PairSet;
use ht_tern::Tern;
use ht_trail::{Cells, Mark};
use ht_tree::Assign3;
use std::alloc::{AllocError, Global};
use std::marker::Model;

/// A window, its decisions in order, and the value of each variable.
#[derive(Drop)]
pub struct Decisions<'c> {
    circuit: &'c Circuit,
    fault: Option<Fault>,
    frames: u32,
    start: Start,
    path: Vec<Assign3>,
    values: Cells<Option<Tern>>,
}

impl<'c> Model for Decisions<'c> {
    ghost use Rattle.ht_window.specs.Standing.{Standing};

    ghost Value = { Standing };

    ghost use Rattle.ht_window.specs.Standing.{standing_of, IsStanding};

    ghost view = { standing_of };

    ghost invariant = { IsStanding };
}

impl<'c> Decisions<'c> {
    /// A window from a start, before its first decision.
    ///
    /// # Errors
    /// Out of memory.
    pub fn new(
        alloc: Global,
        start: &Start,
        circuit: &'c Circuit,
        fault: Option<Fault>,
        frames: u32,
    ) -> Result<Decisions<'c>, AllocError>
        requires frames { frames ≤ MAX_FRAMES }
        requires start { IsStart circuit.now fault frames (start_of start.now) }
        ensures { IfOk result
            (λ d. d ≡ record {
              window = window_from circuit.now fault frames start.now;
              path = [];
            }) }
    {
        let inputs = circuit.inputs();
        let dffs = circuit.dffs();
        // for the proof: the circuit is well formed
        let _ = circuit.nets();
        let count = frames * inputs + (dffs + dffs);
        let values = Cells::from_values(alloc, vec![in alloc; None; count as usize]?)?;
        let start = start.copied(alloc)?;
        Ok(Decisions {
            circuit,
            fault,
            frames,
            start,
            path: Vec::new(alloc),
            values,
        })
    }

    /// The window's circuit.
    pub fn circuit(&self) -> &'c Circuit
        ensures circuit { result.now ≡ self.now.window.circuit }
        ensures valid { IsWindow self.now.window }
    {
        self.circuit
    }

    /// How many inputs the circuit has.
    pub fn inputs(&self) -> u32
        ensures { result ≡ self.now.window.circuit.inputs }
    {
        self.circuit.inputs()
    }

    /// How many flip-flops the circuit has.
    pub fn dffs(&self) -> u32
        ensures { result ≡ length self.now.window.circuit.dffs }
    {
        self.circuit.dffs()
    }

    /// The window's fault.
    pub fn fault(&self) -> Option<Fault>
        ensures { result ≡ self.now.window.fault }
    {
        self.fault
    }

    /// How many frames the window has.
    pub fn frames(&self) -> u32
        ensures { result ≡ self.now.window.frames }
    {
        self.frames
    }

    /// The decisions, in their order.
    pub fn path(&self) -> &[Assign3]
        ensures { result.now ≡ self.now.path }
    {
        &self.path
    }

    /// What the decisions give a variable.
    pub fn value(&self, var: u32) -> Option<Tern>
        ensures { result ≡ decided_value self.now.path var }
    {
        if (var as usize) < self.values.len() {
            self.values.get(var)
        } else {
            None
        }
    }

    /// Whether the decisions give a variable a value.
    pub fn is_decided(&self, var: u32) -> bool
        ensures { result ≡ decides self.now.path var }
    {
        self.value(var).is_some()
    }

    /// The variable of input i of a frame.
    pub fn input_var(&self, frame: u32, i: u32) -> u32
        requires frame { frame < self.now.window.frames }
        requires input { i < self.now.window.circuit.inputs }
        ensures { result ≡ first_input self.now.window frame + i }
    {
        frame * self.circuit.inputs() + i
    }

    /// How the window starts.
    pub fn start(&self) -> &Start
        ensures { start_of result.now ≡ self.now.window.start }
    {
        &self.start
    }

    /// The set of input i of a frame.
    pub fn input(&self, frame: u32, i: u32) -> PairSet
        requires frame { frame < self.now.window.frames }
        requires input { i < self.now.window.circuit.inputs }
        ensures { result ≡ same_pairs
            (decided_value self.now.path (first_input self.now.window frame + i)) }
    {
        PairSet::same(self.value(frame * self.circuit.inputs() + i))
    }

    /// The set of latch j of the first frame.
    pub fn first_latch(&self, j: u32) -> PairSet
        requires { j < length self.now.window.circuit.dffs }
        ensures { result ≡ first_latch self.now.window self.now.window.start self.now.path j }
    {
        let good = self.circuit.inputs() + j;
        let faulty = good + self.circuit.dffs();
        match &self.start {
            Start::OneFrame { z } => {
                let halves = is_set(z.as_slice(), j);
                latch(halves, self.value(good), self.value(faulty))
            },
            Start::Unknown => PairSet::single(Tern::Unk, Tern::Unk),
            Start::Pair { state } => PairSet::single(
                value_at(state.good.as_slice(), j),
                value_at(state.bad.as_slice(), j),
            ),
            Start::Back { cube: _, limit: _ } => same_or_unknown(self.value(good)),
        }
    }

    /// One more decision.
    ///
    /// # Errors
    /// Out of memory; nothing is changed.
    pub fn push(&mut self, var: u32, value: Tern) -> Result<(), AllocError>
        requires { var < variable_room self.old.window }
        ensures window { self.new.window ≡ self.old.window }
        ensures ok { OnOk result
            (self.new.path ≡ self.old.path ++ record { var = var; value = value } ∷ []) }
        ensures err { OnErr result (self.new ≡ self.old) }
    {
        let count = self.path.len();
        self.path.push(Assign3 { var, value })?;
        match self.values.set(var, Some(value)) {
            Ok(()) => Ok(()),
            Err(error) => {
                self.path.truncate(count);
                Err(error)
            },
        }
    }

    /// The first `count` decisions alone.
    pub fn truncate(&mut self, count: usize)
        requires { count ≤ length self.old.path }
        ensures window { self.new.window ≡ self.old.window }
        ensures path { self.new.path ≡ take count self.old.path }
    {
        self.path.truncate(count);
        self.values.undo(Mark(count as u64));
    }
}

/// Whether mark j is set.
pub fn is_set(marks: &[bool], j: u32) -> bool
    ensures { result ≡ get_or marks.now j false }
{
    match marks.get(j as usize) {
        Some(mark) => *mark,
        None => false,
    }
}

/// The value of latch j in a state or a cube; unknown where there is none.
pub fn value_at(state: &[Tern], j: u32) -> Tern
    ensures { result ≡ get_or state.now j Unk }
{
    match state.get(j as usize) {
        Some(value) => *value,
        None => Tern::Unk,
    }
}
