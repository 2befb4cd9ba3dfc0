//! Windows before their first decision, one made from another.
ghost use Rattle.std.specs.Prelude.{◌≡◌, ◌≤◌, ◌<◌, ℕ, IsTrue, None, [], IfOk};
ghost use Rattle.ht_tree.specs.Window.Windows.{IsStart};
ghost use Rattle.ht_events.specs.Pending.{IsPending};
ghost use Rattle.ht_relevant.specs.Relevant.{IsRelevant};
ghost use Rattle.ht_window.specs.Starts.{start_of};
ghost use Rattle.ht_window.specs.Setups.{IsSetup, window_for};
ghost use Rattle.ht_window.specs.BaseStates.{IsBase, IsBaseFor, IsBaseOf, IsNew};
ghost use Rattle.ht_window.specs.Renewals.{HoldsElsewhere, IsPlanFor};
ghost use Rattle.ht_window.specs.Cells.{AreCells};
ghost use Rattle.ht_window.specs.Matters.{is_relevant};

use crate::decisions::Decisions;
use crate::frames::all_sets;
use crate::held::Held;
use crate::renew::follow_fault;
use crate::restrict::restrict;
use crate::setup::Setup;
use crate::start::Start;
use crate::window::Window;
use ht_events::{Core, FramePlan, MAX_FRAMES};
use ht_net::{Circuit, Fault};
use std::alloc::{AllocError, Global};
use std::rc::Rc;

// A core for a window's frames, in which no item is pending.
fn new_core<'c>(
    alloc: Global,
    frame_plan: &Rc<FramePlan<'c>>,
    frames: u32,
) -> Result<Core<'c>, AllocError>
    requires some { 0 < frames }
    requires few { frames ≤ MAX_FRAMES }
    ensures circuit { IfOk result (λ core. core.plan.circuit ≡ frame_plan.now.value.circuit) }
    ensures frames { IfOk result (λ core. core.plan.frames ≡ frames) }
    ensures none { IfOk result (λ core. (x : ℕ) → ¬ IsPending core x) }
{
    Core::with_plan(alloc, frame_plan.clone()?, frames)
}

impl<'c> Window<'c> {
    // A window with no decision.
    pub(crate) fn undecided(alloc: Global, held: Held<'c>, core: Core<'c>) -> Window<'c>
        requires circuit { core.plan.circuit ≡ held.standing.window.circuit }
        requires frames { core.plan.frames ≡ held.standing.window.frames }
        requires path { held.standing.path ≡ [] }
        requires good { held.standing.window.fault ≡ None → held.relevant ≡ None }
        requires relevant { IsRelevant held.standing.window (is_relevant held.relevant) }
        requires cells { AreCells held.standing.window (is_relevant held.relevant)
            held.standing.path held.cells.values }
        ensures new { IsNew held.entry.standing.window result }
        ensures relevant { result.relevant ≡ held.entry.relevant }
    {
        Window {
            held,
            core,
            marks: Vec::new(alloc),
        }
    }

    // A window with no decision, of cells that hold and in which all nets matter, with events of its own.
    fn with_events(
        alloc: Global,
        frame_plan: &Rc<FramePlan<'c>>,
        held: Held<'c>,
    ) -> Result<Window<'c>, AllocError>
        requires plan { frame_plan.now.value.circuit ≡ held.standing.window.circuit }
        requires path { held.standing.path ≡ [] }
        requires whole { held.relevant ≡ None }
        requires cells { AreCells held.standing.window (is_relevant None) [] held.cells.values }
        ensures new { IfOk result (IsNew held.entry.standing.window) }
        ensures whole { IfOk result (λ w. w.relevant ≡ None) }
    {
        match new_core(alloc, frame_plan, held.decisions().frames()) {
            Ok(core) => Ok(Window::undecided(alloc, held, core)),
            Err(error) => {
                // for the proof: dropped by name
                drop(held);
                Err(error)
            },
        }
    }

    // The cells of a setup's window, in which all nets matter, before any event.
    fn whole_held(
        alloc: Global,
        circuit: &'c Circuit,
        setup: &Setup,
    ) -> Result<Held<'c>, AllocError>
        requires { IsSetup circuit.now setup.now }
        ensures standing { IfOk result (λ h. h.standing ≡ record {
          window = window_for circuit.now setup.now;
          path = [];
        }) }
        ensures whole { IfOk result (λ h. h.relevant ≡ None) }
        ensures cells { IfOk result (λ h. AreCells h.standing.window (is_relevant None) []
            h.cells.values) }
    {
        let decisions = Decisions::new(alloc, setup.start, circuit, setup.fault, setup.frames)?;
        match all_sets(alloc, &decisions) {
            Ok(sets) => Held::new(alloc, decisions, sets),
            Err(error) => {
                // for the proof: dropped by name
                drop(decisions);
                Err(error)
            },
        }
    }

    // A window before its first decision, in which all nets matter. The plan is that of its circuit's frames.
    pub(crate) fn with_plan(
        alloc: Global,
        frame_plan: &Rc<FramePlan<'c>>,
        setup: &Setup,
    ) -> Result<Window<'c>, AllocError>
        requires { IsSetup frame_plan.now.value.circuit setup.now }
        ensures new { IfOk result (IsNew (window_for frame_plan.now.value.circuit setup.now)) }
        ensures whole { IfOk result (λ w. w.relevant ≡ None) }
    {
        let held = Window::whole_held(alloc, frame_plan.circuit(), setup)?;
        Window::with_events(alloc, frame_plan, held)
    }

    // Whether this is a window of a setup's fault and start.
    fn is_of(&self, setup: &Setup) -> bool
        ensures fault { IsTrue result → self.now.window.fault ≡ setup.now.fault }
        ensures start { IsTrue result → self.now.window.start ≡ start_of setup.now.start.now }
    {
        self.fault() == setup.fault && self.start().is_same(setup.start)
    }

    // Whether the first frames of this window are a window, and it may have a start as a whole that they may have.
    pub(crate) fn has_front(&self, setup: &Setup) -> bool
        ensures few { IsTrue result → setup.now.frames ≤ self.now.window.frames }
        ensures front { IsTrue result → 0 < setup.now.frames → IsStart self.now.window.circuit
            self.now.window.fault setup.now.frames self.now.window.start }
        ensures fits { IsTrue result → IsStart self.now.window.circuit setup.now.fault
            setup.now.frames (start_of setup.now.start.now)
            → IsStart self.now.window.circuit setup.now.fault self.now.window.frames
            (start_of setup.now.start.now) }
    {
        // for the proof: the window is well formed
        let _ = self.circuit();
        match (self.start(), setup.start) {
            (Start::Unknown, Start::Unknown)
            | (Start::Pair { state: _ }, Start::Pair { state: _ }) => {
                setup.frames <= self.frames()
            },
            _ => setup.frames == self.frames(),
        }
    }

    // The cells of the first frames under a setup's fault and start, before any event.
    fn held_of(&self, alloc: Global, setup: &Setup) -> Result<Held<'c>, AllocError>
        requires base { IsBaseFor self.now.window.circuit setup.now self.now }
        requires setup { IsSetup self.now.window.circuit setup.now }
        ensures standing { IfOk result (λ h. h.standing ≡ record {
          window = window_for self.now.window.circuit setup.now;
          path = [];
        }) }
        ensures whole { IfOk result (λ h. h.relevant ≡ None) }
        ensures holds { IfOk result (λ h. HoldsElsewhere h self.now.window.fault) }
    {
        // for the proof: there is a cell for each net of each frame
        let whole = self.held.decisions();
        let circuit = whole.circuit();
        let sets = self.held.front(alloc, setup.frames)?;
        let decisions = Decisions::new(alloc, setup.start, circuit, setup.fault, setup.frames)?;
        Held::new(alloc, decisions, sets)
    }

    // The window of cells that hold but for what two faults reach first and for the latches of the first frame.
    fn settled(
        alloc: Global,
        mut held: Held<'c>,
        mut core: Core<'c>,
        before: Option<Fault>,
    ) -> Result<Window<'c>, AllocError>
        requires plan { IsPlanFor core.plan held.standing.window }
        requires path { held.standing.path ≡ [] }
        requires good { held.standing.window.fault ≡ None → held.relevant ≡ None }
        requires relevant { IsRelevant held.standing.window (is_relevant held.relevant) }
        requires holds { HoldsElsewhere held before }
        ensures new { IfOk result (IsNew held.entry.standing.window) }
        ensures relevant { IfOk result (λ w. w.relevant ≡ held.entry.relevant) }
    {
        match follow_fault(&mut held, &mut core, before) {
            Ok(()) => {
                held.forget();
                Ok(Window::undecided(alloc, held, core))
            },
            Err(error) => {
                // for the proof: dropped by name
                drop(held);
                drop(core);
                Err(error)
            },
        }
    }

    // The same, with events of its own.
    fn followed(
        alloc: Global,
        frame_plan: &Rc<FramePlan<'c>>,
        held: Held<'c>,
        before: Option<Fault>,
    ) -> Result<Window<'c>, AllocError>
        requires plan { frame_plan.now.value.circuit ≡ held.standing.window.circuit }
        requires path { held.standing.path ≡ [] }
        requires good { held.standing.window.fault ≡ None → held.relevant ≡ None }
        requires relevant { IsRelevant held.standing.window (is_relevant held.relevant) }
        requires holds { HoldsElsewhere held before }
        ensures new { IfOk result (IsNew held.entry.standing.window) }
        ensures relevant { IfOk result (λ w. w.relevant ≡ held.entry.relevant) }
    {
        match new_core(alloc, frame_plan, held.decisions().frames()) {
            Ok(core) => Window::settled(alloc, held, core, before),
            Err(error) => {
                // for the proof: dropped by name
                drop(held);
                Err(error)
            },
        }
    }

    // This base, once it has followed a setup's fault and start. Its cells and events stay where they are.
    pub(crate) fn following(self, alloc: Global, setup: &Setup) -> Result<Window<'c>, AllocError>
        requires { IsBaseFor self.window.circuit setup.now self }
        ensures { IfOk result (IsBaseOf self.entry.window.circuit setup.now) }
    {
        if self.is_of(setup) {
            return Ok(self);
        }
        let before = self.fault();
        let whole = self.held.decisions();
        let (circuit, frames) = (whole.circuit(), whole.frames());
        match Decisions::new(alloc, setup.start, circuit, setup.fault, frames) {
            Ok(decisions) => {
                let Window {
                    held,
                    core,
                    marks: _,
                } = self;
                Window::settled(alloc, held.under(decisions), core, before)
            },
            Err(error) => {
                // for the proof: dropped by name
                drop(self);
                Err(error)
            },
        }
    }

    // The window of a setup, made of the first frames of this base. In a large circuit those nets alone matter that the
    // fault needs.
    pub(crate) fn restricted(
        &self,
        alloc: Global,
        frame_plan: &Rc<FramePlan<'c>>,
        setup: &Setup,
    ) -> Result<Window<'c>, AllocError>
        requires plan { frame_plan.now.value.circuit ≡ self.now.window.circuit }
        requires base { IsBaseFor self.now.window.circuit setup.now self.now }
        requires setup { IsSetup self.now.window.circuit setup.now }
        ensures { IfOk result (IsNew (window_for self.now.window.circuit setup.now)) }
    {
        let mut held = self.held_of(alloc, setup)?;
        match restrict(alloc, frame_plan, &mut held) {
            Ok(()) => Window::followed(alloc, frame_plan, held, self.fault()),
            Err(error) => {
                // for the proof: dropped by name
                drop(held);
                Err(error)
            },
        }
    }

    // The window of the first frames.
    pub(crate) fn front(
        &self,
        alloc: Global,
        frame_plan: &Rc<FramePlan<'c>>,
        frames: u32,
    ) -> Result<Window<'c>, AllocError>
        requires plan { frame_plan.now.value.circuit ≡ self.now.window.circuit }
        requires base { IsBase self.now.window.circuit self.now }
        requires few { frames ≤ self.now.window.frames }
        requires start { IsStart self.now.window.circuit self.now.window.fault frames
            self.now.window.start }
        ensures { IfOk result (IsNew (record self.now.window { frames = frames })) }
    {
        let whole = self.held.decisions();
        let sets = self.held.front(alloc, frames)?;
        let part = Decisions::new(alloc, whole.start(), whole.circuit(), whole.fault(), frames)?;
        let held = Held::new(alloc, part, sets)?;
        Window::with_events(alloc, frame_plan, held)
    }
}
