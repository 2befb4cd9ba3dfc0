//! One frame over sets of pairs.
ghost use Rattle.std.specs.Prelude.{◌≡◌, ◌≤◌, ◌+◌, ◌*◌, Option, flat_map, length, IfOk, OnOk};
ghost use Rattle.std.specs.List.{list_all, range_with_len};
ghost use Rattle.ht_pairs.specs.Pairs.{differs};
ghost use Rattle.ht_net.specs.declared.fault.Fault.{Fault};
ghost use Rattle.ht_net.specs.Circuit.Netlist.{IsCircuit};
ghost use Rattle.ht_tree.specs.Window.Places.{IsSpot};
ghost use Rattle.ht_recompute.specs.WindowStarts.{IsStartOf, latches_by};
ghost use Rattle.ht_recompute.specs.FrameSetsOf.{AreEndsOf, frame_after, inputs_by, latches_after, outputs_of_frame, set_in};
ghost use Rattle.ht_recompute.specs.Differences.{differences_in};

use crate::decisions::write_inputs;
use crate::differences::{Differences, output_differences};
use crate::kept_frames::KeptFrames;
use crate::window_start::{WindowStart, write_latches};
use ht_net::{Circuit, Fault};
use ht_pairs::PairSet;
use ht_tern::Tern;
use ht_tree::Spot;
use std::alloc::{AllocError, Global};
use std::marker::Model;

// The sets at the ends of a frame: of its inputs, of its latches, and of what its outputs show.
#[derive(Drop)]
struct FrameEnds {
    vector: Vec<PairSet>,
    latches: Vec<PairSet>,
    outputs: Vec<PairSet>,
}

/// A frame of the good and of the faulty machine, or of the good machine alone, over sets of pairs. All room is taken
/// once, when it is made.
#[derive(Drop)]
pub struct FrameSets<'c> {
    fault: Option<Fault>,
    ends: FrameEnds,
    // the nets of each frame, so that one settles from where it was at the node before
    kept: KeptFrames<'c>,
    // which of the frames that are kept is the first one here
    first_kept: u32,
}

impl<'c> Model for FrameSets<'c> {
    ghost use Rattle.ht_recompute.specs.FrameSetsOf.{FrameState};

    ghost Value = { FrameState };

    ghost use Rattle.ht_recompute.specs.FrameSetsOf.{frame_state, HasRoom};

    ghost view = { frame_state };

    ghost invariant = { HasRoom };
}

// Room for so many sets.
fn room_for(alloc: Global, count: usize) -> Result<Vec<PairSet>, AllocError>
    ensures { IfOk result (λ sets. length sets.items ≡ count) }
{
    vec![in alloc; PairSet::both_same(); count]
}

impl FrameEnds {
    // Room for those of a circuit.
    fn new(alloc: Global, circuit: &Circuit) -> Result<FrameEnds, AllocError>
        ensures { IfOk result (AreEndsOf circuit.now) }
    {
        Ok(FrameEnds {
            vector: room_for(alloc, circuit.inputs() as usize)?,
            latches: room_for(alloc, circuit.dffs() as usize)?,
            outputs: room_for(alloc, circuit.outputs() as usize)?,
        })
    }
}

// Makes frames until so many are kept, and room for the sets at the ends of one.
fn frame_room(alloc: Global, kept: &mut KeptFrames, count: u32) -> Result<FrameEnds, AllocError>
    ensures ends { IfOk result (AreEndsOf kept.old.circuit) }
    ensures count { OnOk result (count ≤ kept.new.count) }
    ensures circuit { kept.new.circuit ≡ kept.old.circuit }
{
    kept.make(alloc, count)?;
    FrameEnds::new(alloc, kept.circuit())
}

impl<'c> FrameSets<'c> {
    /// So many frames of a fault, or of the good machine alone, and one at least: of the frames that are kept those
    /// from `first_kept` on. It makes more of these where there are too few.
    ///
    /// # Errors
    /// Out of memory.
    pub fn new(
        alloc: Global,
        mut kept: KeptFrames<'c>,
        fault: Option<Fault>,
        first_kept: u32,
        frames: u32,
    ) -> Result<FrameSets<'c>, AllocError>
        ensures circuit { IfOk result (λ frame. frame.circuit ≡ kept.entry.circuit) }
        ensures fault { IfOk result (λ frame. frame.fault ≡ fault) }
    {
        match frame_room(alloc, &mut kept, first_kept.saturating_add(frames).max(1)) {
            Ok(ends) => Ok(FrameSets {
                fault,
                ends,
                kept,
                first_kept,
            }),
            // for the proof: dropped by name
            Err(error) => {
                drop(kept);
                Err(error)
            },
        }
    }

    /// Gives the frames back.
    pub fn into_kept(self) -> KeptFrames<'c>
        ensures { result.circuit ≡ self.entry.circuit }
    {
        self.kept
    }

    /// Gives the latches the sets of a start under what was decided.
    pub fn begin(&mut self, start: &WindowStart, decisions: &[Option<Tern>])
        requires start { IsStartOf start.now (length self.old.circuit.dffs) }
        requires room { self.old.circuit.inputs + 2 * length self.old.circuit.dffs
            ≤ length decisions.now }
        ensures { self.new ≡ record self.old {
          latches = latches_by start.now decisions.now self.old.circuit;
        } }
    {
        let inputs = self.kept.circuit().inputs() as usize;
        write_latches(start, decisions, inputs, &mut self.ends.latches);
    }

    /// Runs frame `f`, whose inputs have the variables from `first` on: the outputs show what they hold, and the
    /// latches take what stands at their data pins. The last frame that is kept stands for later ones.
    pub fn run(&mut self, decisions: &[Option<Tern>], first: usize, f: u32)
        requires { first + self.old.circuit.inputs ≤ length decisions.now }
        ensures { self.new ≡ frame_after self.old
            (inputs_by decisions.now first self.old.circuit.inputs) }
    {
        write_inputs(decisions, first, &mut self.ends.vector);
        self.kept.run(
            self.first_kept.saturating_add(f),
            self.fault,
            &self.ends.vector,
            &mut self.ends.latches,
            &mut self.ends.outputs,
        );
    }

    /// The circuit.
    pub fn circuit(&self) -> &'c Circuit
        ensures circuit { result.now ≡ self.now.circuit }
        ensures valid { IsCircuit self.now.circuit }
    {
        self.kept.circuit()
    }

    /// The sets of the latches.
    pub fn latches(&self) -> &[PairSet]
        ensures latches { result.now ≡ self.now.latches }
        ensures count { length result.now ≡ length self.now.circuit.dffs }
    {
        &self.ends.latches
    }

    /// Whether a place must differ after a frame: an output, or the next state of a flip-flop.
    pub fn must_differ(&self, place: Spot) -> bool
        requires { IsSpot self.now.circuit place }
        ensures { result ≡ list_all differs (set_in self.now place) }
    {
        match place {
            Spot::Output(o) => self.ends.outputs[o as usize].must_differ(),
            Spot::State(j) => self.ends.latches[j as usize].must_differ(),
            // no place, so no set that may be equal
            Spot::Cube => true,
        }
    }

    /// What the outputs show after a frame.
    pub fn differences(&self) -> Differences
        ensures { result ≡ differences_in self.now.outputs }
    {
        output_differences(&self.ends.outputs)
    }
}

/// Runs so many frames, whose first latches are there, and says what their outputs show.
pub fn run_frames(frame: &mut FrameSets, decisions: &[Option<Tern>], frames: u32) -> Differences
    requires { frames * frame.old.circuit.inputs ≤ length decisions.now }
    ensures shown { result ≡ differences_in (flat_map (outputs_of_frame frame.old decisions.now)
        (range_with_len 0 frames)) }
    ensures latches { frame.new.latches ≡ latches_after frame.old decisions.now frames }
    ensures circuit { frame.new.circuit ≡ frame.old.circuit }
    ensures fault { frame.new.fault ≡ frame.old.fault }
{
    let inputs = frame.circuit().inputs() as usize;
    let mut shown = Differences::none();
    for f in 0..frames {
        frame.run(decisions, f as usize * inputs, f);
        shown = shown.and(frame.differences());
    }
    shown
}
