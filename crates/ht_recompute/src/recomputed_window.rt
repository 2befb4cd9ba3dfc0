//! Windows of every kind, whose frames settle at each node.
ghost use Rattle.std.specs.Prelude.{◌≡◌, ◌<◌, ◌+◌, ◌*◌, ℕ, List, length, get_or, true, IfOk};
ghost use Rattle.std.specs.List.{All, list_all};
ghost use Rattle.std.specs.Prelude.{[]};
ghost use Rattle.ht_tern.specs.declared.tern.Tern.{Tern};
ghost use Rattle.ht_pairs.specs.Pairs.{differs};
ghost use Rattle.ht_tree.specs.Walk.Counts.{seeks_difference};
ghost use Rattle.ht_tree.specs.Window.Places.{IsSpot, set_at};
ghost use Rattle.ht_tree.specs.Window.Variables.{is_latch, may_two};
ghost use Rattle.ht_tree.specs.Window.Nodes.{may_go_before, window_at};
ghost use Rattle.ht_tree.specs.Walk.Walks.{path_of};
ghost use Rattle.ht_tree.specs.Window.WindowStatus.{status_at, without_place};
ghost use Rattle.ht_tree.specs.Window.Windows.{IsStart, back, back_window, forward_window, one_frame, one_frame_window, sweep_window};
ghost use Rattle.ht_tree.specs.Clause.Clauses.{literals_of, literals_of_each};
ghost use Rattle.ht_tree.specs.Clause.ClauseWindows.{breach_status, good_window, under_clauses};
ghost use Rattle.ht_recompute.specs.WindowStarts.{IsStartOf, window_start};
ghost use Rattle.ht_recompute.specs.JudgedKinds.{judged_kind};
ghost use Rattle.ht_recompute.specs.WrittenClauses.{IsKnownClause};

use crate::clauses::{breach_status, under_clauses};
use crate::cube::{cube_status, decided_cube, enter_node, wants_any};
use crate::decisions::write_decisions;
use crate::frame_sets::{FrameSets, run_frames};
use crate::judged_window::JudgedWindow;
use crate::kept_frames::KeptFrames;
use crate::window_start::{WindowStart, first_kept, is_faulty_latch, marks_of, states_show};
use ht_net::{Circuit, Fault};
use ht_tern::Tern;
use ht_tree::{Assign3, Clause, Spot, Status3, WalkNode};
use std::alloc::{AllocError, Global};
use std::marker::Model;

/// A window of any kind, whose frames all settle at each node. All room is taken once, when it is made.
#[derive(Drop)]
pub struct RecomputedWindow<'c, 's> {
    frames: u32,
    start: WindowStart<'s>,
    // what the path has decided for each variable
    decisions: Vec<Option<Tern>>,
    // the cube of a node's window
    cube: Vec<Tern>,
    frame: FrameSets<'c>,
}

impl<'c, 's> Model for RecomputedWindow<'c, 's> {
    ghost use Rattle.ht_tree.specs.Window.Windows.{SearchWindow};

    ghost Value = { SearchWindow };

    ghost use Rattle.ht_recompute.specs.RecomputedWindowOf.{window_of, HasWindowRoom};

    ghost view = { window_of };

    ghost invariant = { HasWindowRoom };
}

// Room for what a path decides in a window of so many frames, and for the cube of a node.
fn node_room(
    alloc: Global,
    circuit: &Circuit,
    frames: u32,
) -> Result<(Vec<Option<Tern>>, Vec<Tern>), AllocError>
    ensures decisions { IfOk result (λ room. length room.0.items
        ≡ frames * circuit.now.inputs + 2 * length circuit.now.dffs) }
    ensures cube { IfOk result (λ room. length room.1.items ≡ length circuit.now.dffs) }
{
    let inputs = circuit.inputs() as usize;
    let dffs = circuit.dffs() as usize;
    let decisions = vec![in alloc; None; frames as usize * inputs + 2 * dffs]?;
    let cube = vec![in alloc; Tern::Unk; dffs]?;
    Ok((decisions, cube))
}

impl<'c, 's> RecomputedWindow<'c, 's> {
    // Room for a window.
    fn new(
        alloc: Global,
        kept: KeptFrames<'c>,
        fault: Option<Fault>,
        frames: u32,
        start: WindowStart<'s>,
    ) -> Result<RecomputedWindow<'c, 's>, AllocError>
        requires fits { IsStart kept.circuit fault frames (window_start start) }
        requires start { IsStartOf start (length kept.circuit.dffs) }
        ensures { IfOk result
            (λ window. window ≡ record {
              circuit = kept.entry.circuit;
              fault = fault;
              frames = frames;
              start = window_start start.entry;
            }) }
    {
        match FrameSets::new(alloc, kept, fault, first_kept(&start), frames) {
            Ok(frame) => RecomputedWindow::of_frame(alloc, frame, frames, start),
            // for the proof: dropped by name
            Err(error) => {
                drop(start);
                Err(error)
            },
        }
    }

    // The window of so many frames from a start, with room for its nodes.
    fn of_frame(
        alloc: Global,
        frame: FrameSets<'c>,
        frames: u32,
        start: WindowStart<'s>,
    ) -> Result<RecomputedWindow<'c, 's>, AllocError>
        requires fits { IsStart frame.circuit frame.fault frames (window_start start) }
        requires start { IsStartOf start (length frame.circuit.dffs) }
        ensures { IfOk result
            (λ window. window ≡ record {
              circuit = frame.entry.circuit;
              fault = frame.entry.fault;
              frames = frames;
              start = window_start start.entry;
            }) }
    {
        match node_room(alloc, frame.circuit(), frames) {
            Ok((decisions, cube)) => Ok(RecomputedWindow {
                frames,
                start,
                decisions,
                cube,
                frame,
            }),
            // for the proof: dropped by name
            Err(error) => {
                drop(frame);
                drop(start);
                Err(error)
            },
        }
    }

    // One frame of a fault, or of the good machine alone, from two states that may differ at the flip-flops of z.
    fn of_set(
        alloc: Global,
        kept: KeptFrames<'c>,
        fault: Option<Fault>,
        z: &'s [u32],
    ) -> Result<RecomputedWindow<'c, 's>, AllocError>
        requires { (i : ℕ) → i < length z.now → get_or z.now i 0 < length kept.circuit.dffs }
        ensures { IfOk result
            (λ window. window ≡ record {
              circuit = kept.entry.circuit;
              fault = fault;
              frames = 1;
              start = one_frame z.now;
            }) }
    {
        match marks_of(alloc, z, kept.circuit().dffs() as usize) {
            Ok(marks) => {
                let start = WindowStart::OneFrame { z, marks };
                RecomputedWindow::new(alloc, kept, fault, 1, start)
            },
            // for the proof: dropped by name
            Err(error) => {
                drop(kept);
                Err(error)
            },
        }
    }

    /// One frame of a fault, from two states that may differ at the flip-flops of z and nowhere else.
    ///
    /// # Errors
    /// Out of memory.
    pub fn one_frame(
        alloc: Global,
        kept: KeptFrames<'c>,
        fault: Fault,
        z: &'s [u32],
    ) -> Result<RecomputedWindow<'c, 's>, AllocError>
        requires { (i : ℕ) → i < length z.now → get_or z.now i 0 < length kept.circuit.dffs }
        ensures { IfOk result (λ window. window ≡ one_frame_window kept.entry.circuit fault z.now) }
    {
        RecomputedWindow::of_set(alloc, kept, Some(fault), z)
    }

    /// One frame of the good machine alone, from any state of bits. The set of flip-flops that it is made with is
    /// empty.
    ///
    /// # Errors
    /// Out of memory.
    pub fn good(
        alloc: Global,
        kept: KeptFrames<'c>,
        z: &'s [u32],
    ) -> Result<RecomputedWindow<'c, 's>, AllocError>
        requires { z.now ≡ [] }
        ensures { IfOk result (λ window. window ≡ good_window kept.entry.circuit) }
    {
        RecomputedWindow::of_set(alloc, kept, None, z)
    }

    /// So many frames of a fault, from all-unknown.
    ///
    /// # Errors
    /// Out of memory.
    pub fn sweep(
        alloc: Global,
        kept: KeptFrames<'c>,
        fault: Fault,
        frames: u32,
    ) -> Result<RecomputedWindow<'c, 's>, AllocError>
        requires { 0 < frames }
        ensures { IfOk result (λ window. window ≡ sweep_window kept.entry.circuit fault frames) }
    {
        RecomputedWindow::new(alloc, kept, Some(fault), frames, WindowStart::Unknown)
    }

    /// So many frames of a fault, from a state of each machine, which has a value for each flip-flop in order.
    ///
    /// # Errors
    /// Out of memory.
    pub fn forward(
        alloc: Global,
        kept: KeptFrames<'c>,
        fault: Fault,
        frames: u32,
        good: &'s [Tern],
        faulty: &'s [Tern],
    ) -> Result<RecomputedWindow<'c, 's>, AllocError>
        requires some { 0 < frames }
        requires good { length good.now ≡ length kept.circuit.dffs }
        requires faulty { length faulty.now ≡ length kept.circuit.dffs }
        ensures { IfOk result
            (λ window. window
            ≡ forward_window kept.entry.circuit fault frames good.now faulty.now) }
    {
        let start = WindowStart::States { good, faulty };
        RecomputedWindow::new(alloc, kept, Some(fault), frames, start)
    }

    /// One frame of the good machine, for a cube of latch values that are wanted after it, with a value for each
    /// flip-flop in order. At most `limit` frames may lead there.
    ///
    /// # Errors
    /// Out of memory.
    pub fn back(
        alloc: Global,
        kept: KeptFrames<'c>,
        cube: &'s [Tern],
        limit: u32,
    ) -> Result<RecomputedWindow<'c, 's>, AllocError>
        requires { length cube.now ≡ length kept.circuit.dffs }
        ensures { IfOk result (λ window. window ≡ back_window kept.entry.circuit cube.now limit) }
    {
        RecomputedWindow::new(alloc, kept, None, 1, WindowStart::Back { cube, limit })
    }
}

impl<'c, 's> RecomputedWindow<'c, 's> {
    /// The status of a window that looks for a difference, at a path.
    pub fn difference_status(&mut self, path: &[Assign3]) -> Status3
        requires { seeks_difference self.old.start ≡ true }
        ensures status { result ≡ without_place (status_at self.old path.now) }
        ensures same { self.new ≡ self.old }
    {
        write_decisions(&mut self.decisions, path);
        self.frame.begin(&self.start, &self.decisions);
        let shown = run_frames(&mut self.frame, &self.decisions, self.frames);
        shown
            .and(states_show(&self.start, self.frame.latches()))
            .status()
    }

    /// Whether a place of a window of one frame must differ at a path: an output, or the next state of a flip-flop.
    pub fn must_differ(&mut self, path: &[Assign3], place: Spot) -> bool
        requires one { self.old.frames ≡ 1 }
        requires place { IsSpot self.old.circuit place }
        ensures shown { result ≡ list_all differs (set_at self.old path.now 0 place) }
        ensures same { self.new ≡ self.old }
    {
        write_decisions(&mut self.decisions, path);
        self.frame.begin(&self.start, &self.decisions);
        self.frame.run(&self.decisions, 0, 0);
        self.frame.must_differ(place)
    }

    /// The status of a window of one frame in which a next state is looked for that doesn't meet a clause, at a path.
    pub fn breach_status(&mut self, path: &[Assign3], clause: &Clause) -> Status3
        requires one { self.old.frames ≡ 1 }
        requires known { IsKnownClause self.old.circuit clause.now }
        ensures status { result ≡ breach_status self.old path.now (literals_of clause.now) }
        ensures same { self.new ≡ self.old }
    {
        write_decisions(&mut self.decisions, path);
        self.frame.begin(&self.start, &self.decisions);
        self.frame.run(&self.decisions, 0, 0);
        breach_status(self.frame.latches(), clause)
    }

    /// What clauses make of the status of a window of one frame, at a path.
    pub fn under_clauses(
        &mut self,
        path: &[Assign3],
        clauses: &[Clause],
        sought: Status3,
    ) -> Status3
        requires one { self.old.frames ≡ 1 }
        requires known { All (IsKnownClause self.old.circuit) clauses.now }
        ensures status { result
            ≡ under_clauses self.old.circuit path.now (literals_of_each clauses.now) sought }
        ensures same { self.new ≡ self.old }
    {
        write_decisions(&mut self.decisions, path);
        let first = self.frame.circuit().inputs();
        under_clauses(&self.decisions, first, clauses, sought)
    }

    /// Whether a variable may be decided to two values.
    pub fn may_decide(&self, var: u32) -> bool
        ensures { result ≡ may_two self.now var }
    {
        let inputs = self.frame.circuit().inputs() as u64;
        if (var as u64) < self.frames as u64 * inputs {
            return true;
        }
        match &self.start {
            WindowStart::OneFrame { z: _, marks } => {
                self.is_latch(var) || is_faulty_latch(self.frame.circuit(), marks, var)
            },
            WindowStart::Unknown
            | WindowStart::States { good: _, faulty: _ }
            | WindowStart::Back { cube: _, limit: _ } => false,
        }
    }
}

impl<'c, 's> RecomputedWindow<'c, 's> {
    // The status of a node's window that looks for a cube.
    fn cube_status(&mut self, cube: &[Tern], limit: u32, node: &WalkNode) -> Status3
        requires { self.old.start ≡ back cube.now limit }
        ensures status { result
            ≡ without_place (status_at (window_at self.old node.now) (path_of node.now)) }
        ensures same { self.new ≡ self.old }
    {
        enter_node(
            self.frame.circuit(),
            cube,
            node,
            &mut self.decisions,
            &mut self.cube,
        );
        self.frame.begin(&self.start, &self.decisions);
        self.frame.run(&self.decisions, 0, 0);
        let left = limit.saturating_sub(node.depth());
        cube_status(&self.cube, self.frame.latches(), left)
    }

    // Whether a window comes under a node whose status is sure, where a cube is looked for.
    fn goes_before(&mut self, limit: u32, node: &WalkNode) -> bool
        requires { (cube : List Tern) × (self.old.start ≡ back cube limit) }
        ensures before { result ≡ may_go_before (window_at self.old node.now) (path_of node.now) }
        ensures same { self.new ≡ self.old }
    {
        decided_cube(
            self.frame.circuit(),
            node.path(),
            &mut self.decisions,
            &mut self.cube,
        );
        node.depth() < limit && wants_any(&self.cube)
    }

    // Whether a variable is that of a latch of the first frame, or of its good half.
    fn is_latch(&self, var: u32) -> bool
        ensures { result ≡ is_latch self.now.circuit var }
    {
        let circuit = self.frame.circuit();
        let inputs = circuit.inputs();
        inputs <= var && var < inputs + circuit.dffs()
    }
}

impl<'c, 's> JudgedWindow<'c> for RecomputedWindow<'c, 's> {
    ghost kind = { λ w. judged_kind w };

    fn token_weight(&self) -> u32 {
        self.frames
    }

    fn status(&mut self, node: &WalkNode) -> Status3 {
        match self.start {
            WindowStart::Back { cube, limit } => self.cube_status(cube, limit, node),
            WindowStart::OneFrame { z: _, marks: _ }
            | WindowStart::Unknown
            | WindowStart::States { good: _, faulty: _ } => self.difference_status(node.path()),
        }
    }

    fn may_two(&self, _node: &WalkNode, var: u32) -> bool {
        self.may_decide(var)
    }

    fn may_three(&self, _node: &WalkNode, var: u32) -> bool {
        match self.start {
            WindowStart::Back { cube: _, limit: _ } => self.is_latch(var),
            WindowStart::OneFrame { z: _, marks: _ }
            | WindowStart::Unknown
            | WindowStart::States { good: _, faulty: _ } => false,
        }
    }

    fn may_go_before(&mut self, node: &WalkNode) -> bool {
        match self.start {
            WindowStart::Back { cube: _, limit } => self.goes_before(limit, node),
            WindowStart::OneFrame { z: _, marks: _ }
            | WindowStart::Unknown
            | WindowStart::States { good: _, faulty: _ } => false,
        }
    }

    fn into_kept(self) -> KeptFrames<'c> {
        self.frame.into_kept()
    }
}
