//! The decisions and the cells of a window.
ghost use Rattle.std.specs.Prelude.{◌≡◌, IsTrue, None, Some, ◌*◌, ◌<◌, ◌≤◌, ◌+◌, ◌++◌, ◌∷◌, ℕ, List, [], take, drop, set, length, get_or, IfOk, OnOk, OnErr};
ghost use Rattle.ht_tern.specs.declared.tern.Tern.TheVariants.{Unk};
ghost use Rattle.ht_pairs.specs.Pairs.{Pair, pair};
ghost use Rattle.ht_net.specs.Circuit.Netlist.{net_count, first_gate_net};
ghost use Rattle.ht_net.specs.Frames.Frame.{driver_value};
ghost use Rattle.ht_trail.specs.Trails.{CellsState, IsLater, restored};
ghost use Rattle.ht_tree.specs.Window.Windows.{IsWindow, first_input, frame_inputs, pair_set_rules};
ghost use Rattle.ht_window.specs.Standing.{variable_room};
ghost use Rattle.ht_window.specs.Cells.{cell_index, cell_count, env_at, latches_over, value_over, var_frame, var_net, HoldsValue};
ghost use Rattle.ht_window.specs.Matters.{is_relevant};
ghost use Rattle.ht_window.specs.Holding.{HeldState};

use crate::decisions::Decisions;
use ht_events::{MAX_FRAMES, Plant};
use ht_frame::{MAX_GATE_PINS, data_pin, gate_output, stem};
use ht_pairs::PairSet;
use ht_relevant::Relevant;
use ht_tern::Tern;
use ht_trail::{Cells, Mark};
use std::alloc::{AllocError, Global};
use std::marker::Model;

/// The decisions of a window, and one cell for each net of each frame.
#[derive(Drop)]
pub struct Held<'c> {
    decisions: Decisions<'c>,
    cells: Cells<PairSet>,
    // the nets that matter; none: all do
    relevant: Option<Relevant>,
    // room for the pins of one gate
    pins: Vec<PairSet>,
}

impl<'c> Model for Held<'c> {
    ghost use Rattle.ht_window.specs.Holding.{HeldState};

    ghost Value = { HeldState };

    ghost use Rattle.ht_window.specs.Holding.{IsHeld};

    ghost view = { λ a. record {
      standing = a.decisions;
      cells = a.cells;
      relevant = a.relevant;
    } };

    ghost invariant = { IsHeld };
}

// Cells that hold these sets, and room for the pins of one gate.
fn cells_and_pins(
    alloc: Global,
    sets: Vec<PairSet>,
) -> Result<(Cells<PairSet>, Vec<PairSet>), AllocError>
    ensures values { IfOk result (λ made. made.0.values ≡ sets.items) }
    ensures trail { IfOk result (λ made. made.0.trail ≡ []) }
    ensures pins { IfOk result (λ made. length made.1.items ≡ MAX_GATE_PINS) }
{
    let pins = vec![in alloc; PairSet::both_same(); MAX_GATE_PINS]?;
    let cells = Cells::from_values(alloc, sets)?;
    Ok((cells, pins))
}

impl<'c> Held<'c> {
    /// Cells that hold these sets, one for each net of each frame.
    ///
    /// # Errors
    /// Out of memory.
    pub fn new(
        alloc: Global,
        decisions: Decisions<'c>,
        sets: Vec<PairSet>,
    ) -> Result<Held<'c>, AllocError>
        requires few { decisions.window.frames ≤ MAX_FRAMES }
        requires count { length sets.items ≡ cell_count decisions.window }
        ensures standing { IfOk result (λ h. h.standing ≡ decisions.entry) }
        ensures values { IfOk result (λ h. h.cells.values ≡ sets.items) }
        ensures trail { IfOk result (λ h. h.cells.trail ≡ []) }
        ensures whole { IfOk result (λ h. h.relevant ≡ None) }
    {
        // for the proof: the circuit is well formed
        let _ = decisions.circuit().nets();
        match cells_and_pins(alloc, sets) {
            Ok((cells, pins)) => Ok(Held {
                decisions,
                cells,
                relevant: None,
                pins,
            }),
            Err(error) => {
                // for the proof: dropped by name
                drop(decisions);
                Err(error)
            },
        }
    }

    /// The same cells for other decisions over as many nets and frames. All nets matter.
    pub fn under(self, decisions: Decisions<'c>) -> Held<'c>
        requires few { decisions.window.frames ≤ MAX_FRAMES }
        requires count { length self.cells.values ≡ cell_count decisions.window }
        ensures standing { result.standing ≡ decisions.entry }
        ensures values { result.cells.values ≡ self.entry.cells.values }
        ensures whole { result.relevant ≡ None }
    {
        // for the proof: the circuit is well formed
        let _ = decisions.circuit().nets();
        let Held {
            decisions: before,
            cells,
            relevant,
            pins,
        } = self;
        // for the proof: dropped by name
        drop(before);
        drop(relevant);
        Held {
            decisions,
            cells,
            relevant: None,
            pins,
        }
    }

    /// The window and its decisions.
    pub fn decisions(&self) -> &Decisions<'c>
        ensures standing { result.now ≡ self.now.standing }
        ensures window { IsWindow self.now.standing.window }
        ensures few { self.now.standing.window.frames ≤ MAX_FRAMES }
        ensures count { length self.now.cells.values ≡ cell_count self.now.standing.window }
    {
        // for the proof: there is a cell for each net of each frame
        let _ = &self.cells;
        &self.decisions
    }

    /// The present mark.
    pub fn mark(&self) -> Mark
        ensures { result.0 ≡ length self.now.cells.trail }
    {
        self.cells.mark()
    }

    // The index of a net's cell in the one array of all frames.
    fn cell_index(&self, frame: u32, net: u32) -> u32
        requires frame { frame < self.now.standing.window.frames }
        requires net { net < net_count self.now.standing.window.circuit }
        ensures index { result ≡ cell_index self.now.standing.window frame net }
        ensures inside { result < length self.now.cells.values }
    {
        let nets = self.decisions.circuit().nets();
        frame * nets + net
    }

    /// Whether a net of a frame matters.
    #[inline(always)]
    pub fn matters(&self, frame: u32, net: u32) -> bool
        requires { frame < self.now.standing.window.frames }
        ensures { result ≡ is_relevant self.now.relevant frame net }
    {
        match &self.relevant {
            Some(relevant) => relevant.has(frame, net),
            None => true,
        }
    }

    /// From now on only these nets matter.
    pub fn restrict(&mut self, relevant: Relevant)
        ensures standing { self.new.standing ≡ self.old.standing }
        ensures cells { self.new.cells ≡ self.old.cells }
        ensures relevant { self.new.relevant ≡ Some relevant }
    {
        self.relevant = Some(relevant);
    }

    /// What a net of a frame holds.
    pub fn cell(&self, frame: u32, net: u32) -> PairSet
        requires frame { frame < self.now.standing.window.frames }
        requires net { net < net_count self.now.standing.window.circuit }
        ensures { result ≡ env_at self.now.standing.window self.now.cells.values frame net }
    {
        self.cells.get(self.cell_index(frame, net))
    }

    /// What latch j gets for a frame.
    fn latch(&self, frame: u32, j: u32) -> PairSet
        requires frame { frame < self.now.standing.window.frames }
        requires dff { j < length self.now.standing.window.circuit.dffs }
        ensures { result ≡ get_or
            (latches_over self.now.standing.window self.now.standing.path self.now.cells.values
            frame) j (pair Unk Unk ∷ []) }
    {
        if frame == 0 {
            return self.decisions.first_latch(j);
        }
        let circuit = self.decisions.circuit();
        // for the proof: the circuit is well formed
        let _ = circuit.nets();
        let net = circuit.dff_data(j);
        data_pin(self.decisions.fault(), j, self.cell(frame - 1, net.0))
    }

    /// What a net of a frame gets, before its line.
    #[inline(always)]
    fn driver(&mut self, frame: u32, net: u32) -> PairSet
        requires frame { frame < self.old.standing.window.frames }
        requires net { net < net_count self.old.standing.window.circuit }
        ensures same { self.new ≡ self.old }
        ensures value { result ≡ driver_value self.old.standing.window.circuit
            (pair_set_rules self.old.standing.window.fault)
            (frame_inputs self.old.standing.window self.old.standing.path frame)
            (latches_over self.old.standing.window self.old.standing.path self.old.cells.values
            frame) (env_at self.old.standing.window self.old.cells.values frame) net }
    {
        let circuit = self.decisions.circuit();
        let nets = circuit.nets();
        let inputs = circuit.inputs();
        let first_gate = inputs + circuit.dffs();
        if net < inputs {
            return self.decisions.input(frame, net);
        }
        if net < first_gate {
            return self.latch(frame, net - inputs);
        }
        let start = self.cell_index(frame, 0) as usize;
        let row = &self.cells.values()[start..start + nets as usize];
        gate_output(
            circuit,
            self.decisions.fault(),
            row,
            &mut self.pins,
            net - first_gate,
        )
    }

    /// What a net of a frame gets from the decisions and from what its driver reads.
    #[tactic(auto, unfolding(ht_net::specs::Frames::Frame::net_value_over))]
    #[inline(always)]
    fn evaluate(&mut self, frame: u32, net: u32) -> PairSet
        requires frame { frame < self.old.standing.window.frames }
        requires net { net < net_count self.old.standing.window.circuit }
        ensures same { self.new ≡ self.old }
        ensures value { result ≡ value_over self.old.standing.window self.old.standing.path
            self.old.cells.values frame net }
    {
        let value = self.driver(frame, net);
        stem(self.decisions.fault(), net, value)
    }

    /// Changes a cell.
    ///
    /// # Errors
    /// Out of memory; nothing is changed.
    #[inline(always)]
    fn set(&mut self, frame: u32, net: u32, value: PairSet) -> Result<(), AllocError>
        requires frame { frame < self.old.standing.window.frames }
        requires net { net < net_count self.old.standing.window.circuit }
        ensures standing { self.new.standing ≡ self.old.standing }
        ensures relevant { self.new.relevant ≡ self.old.relevant }
        ensures later { IsLater self.old.cells self.new.cells }
        ensures values { OnOk result
            (self.new.cells.values
            ≡ set self.old.cells.values (cell_index self.old.standing.window frame net) value) }
        ensures trail { OnOk result (length self.new.cells.trail
            ≡ length self.old.cells.trail + 1) }
        ensures err { OnErr result (self.new ≡ self.old) }
    {
        let index = self.cell_index(frame, net);
        self.cells.set(index, value)?;
        Ok(())
    }

    /// Gives a net its set, whether it changes or not.
    ///
    /// # Errors
    /// Out of memory; nothing is changed.
    pub fn write(&mut self, frame: u32, net: u32) -> Result<(), AllocError>
        requires frame { frame < self.old.standing.window.frames }
        requires net { net < net_count self.old.standing.window.circuit }
        ensures window { IsWindow self.old.standing.window }
        ensures count { length self.old.cells.values ≡ cell_count self.old.standing.window }
        ensures standing { self.new.standing ≡ self.old.standing }
        ensures relevant { self.new.relevant ≡ self.old.relevant }
        ensures later { IsLater self.old.cells self.new.cells }
        ensures values { OnOk result
            (self.new.cells.values
            ≡ set self.old.cells.values (cell_index self.old.standing.window frame net)
            (value_over self.old.standing.window self.old.standing.path self.old.cells.values frame
            net)) }
        ensures trail { OnOk result (length self.new.cells.trail
            ≡ length self.old.cells.trail + 1) }
        ensures err { OnErr result (self.new ≡ self.old) }
    {
        // for the proof: the window is well formed
        let _ = self.decisions();
        let value = self.evaluate(frame, net);
        self.set(frame, net, value)
    }

    /// Whether a net holds what it gets.
    pub fn holds_value(&mut self, frame: u32, net: u32) -> bool
        requires frame { frame < self.old.standing.window.frames }
        requires net { net < net_count self.old.standing.window.circuit }
        ensures same { self.new ≡ self.old }
        ensures holds { IsTrue result → HoldsValue self.old.standing.window self.old.standing.path
            self.old.cells.values frame net }
    {
        let value = self.evaluate(frame, net);
        self.cell(frame, net) == value
    }

    /// What the nets of the first frames hold.
    ///
    /// # Errors
    /// Out of memory.
    pub fn front(&self, alloc: Global, frames: u32) -> Result<Vec<PairSet>, AllocError>
        requires { frames ≤ self.now.standing.window.frames }
        ensures { IfOk result
            (λ sets. sets.items ≡ take (frames * net_count self.now.standing.window.circuit)
            self.now.cells.values) }
    {
        let count = frames as usize * self.decisions.circuit().nets() as usize;
        Vec::from_slice(alloc, &self.cells.values()[..count])
    }

    /// Forgets what the cells held before.
    pub fn forget(&mut self)
        ensures standing { self.new.standing ≡ self.old.standing }
        ensures relevant { self.new.relevant ≡ self.old.relevant }
        ensures values { self.new.cells.values ≡ self.old.cells.values }
    {
        self.cells.forget();
    }

    /// The frame and the net that a variable decides.
    pub fn var_place(&self, var: u32) -> (u32, u32)
        ensures frame { result.0 ≡ var_frame self.now.standing.window var }
        ensures net { result.1 ≡ var_net self.now.standing.window var }
    {
        let inputs = self.decisions.inputs();
        let dffs = self.decisions.dffs();
        // for the proof: the circuit is well formed
        let _ = self.decisions.circuit().nets();
        if var < self.decisions.frames() * inputs {
            (var / inputs, var % inputs)
        } else if var < inputs + dffs {
            (0, var)
        } else {
            (0, var - dffs)
        }
    }

    /// One more decision, before any cell follows it.
    ///
    /// # Errors
    /// Out of memory; nothing is changed.
    pub fn push(&mut self, var: u32, value: Tern) -> Result<(), AllocError>
        requires { var < variable_room self.old.standing.window }
        ensures window { self.new.standing.window ≡ self.old.standing.window }
        ensures relevant { self.new.relevant ≡ self.old.relevant }
        ensures cells { self.new.cells ≡ self.old.cells }
        ensures ok { OnOk result (self.new.standing.path ≡ self.old.standing.path
            ++ record { var = var; value = value } ∷ []) }
        ensures err { OnErr result (self.new ≡ self.old) }
    {
        self.decisions.push(var, value)
    }

    /// The first `count` decisions alone, and the cells as at a mark.
    pub fn undo(&mut self, count: usize, mark: Mark)
        requires count { count ≤ length self.old.standing.path }
        requires mark { mark.0 ≤ length self.old.cells.trail }
        ensures window { self.new.standing.window ≡ self.old.standing.window }
        ensures path { self.new.standing.path ≡ take count self.old.standing.path }
        ensures relevant { self.new.relevant ≡ self.old.relevant }
        ensures values { self.new.cells.values ≡ restored self.old.cells.values
            (drop mark.0 self.old.cells.trail) }
        ensures trail { self.new.cells.trail ≡ take mark.0 self.old.cells.trail }
        ensures exact { (a : CellsState (List Pair)) → IsLater a self.old.cells → mark.0
            ≡ length a.trail → self.new.cells ≡ a }
    {
        self.decisions.truncate(count);
        self.cells.undo(mark);
    }
}

/// An item agrees where its cell is what its arguments give.
impl<'c> Plant for Held<'c> {
    ghost use Rattle.ht_window.specs.Holding.{item_agrees, KeepsHeld};
    ghost use Rattle.ht_window.specs.Kept.{kept_same, kept_more};

    ghost circuit = { λ h. h.standing.window.circuit };

    ghost frames = { λ h. h.standing.window.frames };

    ghost agrees = { item_agrees };

    ghost keeps = { KeepsHeld };

    ghost price = { λ h. 0 };

    ghost spent = { λ h. 0 };

    #[inline(always)]
    fn recompute(&mut self, frame: u32, local: u32) -> Result<bool, AllocError> {
        let net = self.decisions().inputs() + local;
        if !self.matters(frame, net) {
            return Ok(false);
        }
        let value = self.evaluate(frame, net);
        if self.cell(frame, net) == value {
            return Ok(false);
        }
        self.set(frame, net, value)?;
        Ok(true)
    }

    ghost reflexive = { kept_same };

    ghost transitive = { kept_more };
}
