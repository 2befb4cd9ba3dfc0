//! Windows from which others are made, one for each kind of start.
ghost use Rattle.std.specs.Prelude.{◌≡◌, ◌<◌, ◌≤◌, [], length, IfOk, IfSome};
ghost use Rattle.ht_tree.specs.Window.Windows.{IsStart};
ghost use Rattle.ht_window.specs.Starts.{start_of, window_from};
ghost use Rattle.ht_window.specs.Setups.{IsSetup, window_for};
ghost use Rattle.ht_window.specs.BaseStates.{BasesState, IsBase, IsBaseFor, IsNew};

use crate::restrict::is_small;
use crate::setup::Setup;
use crate::start::Start;
use crate::window::Window;
use ht_events::{FramePlan, MAX_FRAMES};
use ht_net::{Circuit, Fault};
use std::alloc::{AllocError, Global};
use std::marker::Model;
use std::mem;
use std::rc::Rc;

/// Windows before their first decision, one for each kind of start, of whose first frames a window that is asked for is
/// made. In a small circuit they follow the fault and the start of each window, by events: windows of one frame, two
/// frames and so on are asked for one after the other, and those of two faults are much alike after some frames, and
/// unlike those of the good machine. In a large one they are of the good machine and never change, and the nets that
/// matter follow in the window that is made.
#[derive(Drop)]
pub struct Bases<'c> {
    frame_plan: Rc<FramePlan<'c>>,
    // at most one for each kind of start, as long as the longest that was asked for so far; in one list, since a value
    // with an optional window for each kind could be dropped in many ways, each to be proved
    windows: Vec<Window<'c>>,
}

impl<'c> Model for Bases<'c> {
    ghost use Rattle.ht_window.specs.BaseStates.{BasesState};

    ghost Value = { BasesState };

    ghost use Rattle.ht_window.specs.BaseStates.{AreBases};

    ghost view = { λ a. record { circuit = a.frame_plan.value.circuit } };

    ghost invariant = { AreBases };
}

// Where the base of a start's kind stands, if there is one.
fn find_like(windows: &[Window], start: &Start) -> Option<usize>
    ensures { IfSome result (λ i. i < length windows.now) }
{
    windows
        .iter()
        .position(|window| window.start().is_like(start))
}

impl<'c> Bases<'c> {
    /// No base yet. The plan of a frame is made here, once for all windows.
    ///
    /// # Errors
    /// Out of memory.
    pub fn new(alloc: Global, circuit: &'c Circuit) -> Result<Bases<'c>, AllocError>
        ensures { IfOk result (λ bases. bases.circuit ≡ circuit.now) }
    {
        let frame_plan = Rc::new(alloc, FramePlan::new(alloc, circuit)?)?;
        Ok(Bases {
            frame_plan,
            windows: Vec::new(alloc),
        })
    }

    /// The circuit.
    pub fn circuit(&self) -> &'c Circuit
        ensures circuit { result.now ≡ self.now.circuit }
    {
        self.frame_plan.circuit()
    }

    /// All bases for another owner. None stays here.
    ///
    /// # Errors
    /// Out of memory; the bases stay.
    pub fn hand_over(&mut self, alloc: Global) -> Result<Bases<'c>, AllocError>
        ensures circuit { self.new.circuit ≡ self.old.circuit }
        ensures handed { IfOk result (λ bases. bases.circuit ≡ self.old.circuit) }
    {
        let frame_plan = self.frame_plan.clone()?;
        let windows = mem::replace(&mut self.windows, Vec::new(alloc));
        Ok(Bases {
            frame_plan,
            windows,
        })
    }

    /// Other bases of the circuit in place of these.
    pub fn take_back(&mut self, bases: Bases<'c>)
        requires { bases.circuit ≡ self.old.circuit }
        ensures { self.new.circuit ≡ self.old.circuit }
    {
        let Bases {
            frame_plan: _,
            windows,
        } = bases;
        self.windows = windows;
    }

    // Takes the base of a start's kind out, if there is one.
    fn take(&mut self, start: &Start) -> Option<Window<'c>>
        ensures circuit { self.new.circuit ≡ self.old.circuit }
        ensures base { IfSome result (IsBase self.old.circuit) }
    {
        let index = find_like(&self.windows, start)?;
        Some(self.windows.swap_remove(index))
    }

    // Keeps a window as the base of its start's kind, of which there is none.
    fn keep(&mut self, base: Window<'c>) -> Result<(), AllocError>
        requires { IsBase self.old.circuit base }
        ensures circuit { self.new.circuit ≡ self.old.circuit }
    {
        self.windows.push(base)?;
        Ok(())
    }

    // A new base for a window, in a small circuit with the fault.
    fn new_base(&self, alloc: Global, setup: &Setup) -> Result<Window<'c>, AllocError>
        requires { IsSetup self.now.circuit setup.now }
        ensures { IfOk result (IsBaseFor self.now.circuit setup.now) }
    {
        let fault = if is_small(self.circuit()) {
            setup.fault
        } else {
            None
        };
        let base = Setup {
            fault,
            frames: setup.frames,
            start: setup.start,
        };
        Window::with_plan(alloc, &self.frame_plan, &base)
    }

    // The base of a start's kind, or a new one where it has fewer frames than are asked for.
    fn base(&mut self, alloc: Global, setup: &Setup) -> Result<Window<'c>, AllocError>
        requires { IsSetup self.old.circuit setup.now }
        ensures circuit { self.new.circuit ≡ self.old.circuit }
        ensures base { IfOk result (IsBaseFor self.old.circuit setup.now) }
    {
        if let Some(base) = self.take(setup.start) {
            if base.has_front(setup) {
                return Ok(base);
            }
            // for the proof: dropped by name
            drop(base);
        }
        self.new_base(alloc, setup)
    }

    // A window, made of a base that follows its fault and its start.
    fn window_following(&mut self, alloc: Global, setup: &Setup) -> Result<Window<'c>, AllocError>
        requires { IsSetup self.old.circuit setup.now }
        ensures circuit { self.new.circuit ≡ self.old.circuit }
        ensures new { IfOk result (IsNew (window_for self.old.circuit setup.now)) }
    {
        let old = self.base(alloc, setup)?;
        let base = old.following(alloc, setup)?;
        let made = base.front(alloc, &self.frame_plan, setup.frames);
        self.keep(base).and(made)
    }

    // A window, made of a base that stays as it is.
    fn window_of_good(&mut self, alloc: Global, setup: &Setup) -> Result<Window<'c>, AllocError>
        requires { IsSetup self.old.circuit setup.now }
        ensures circuit { self.new.circuit ≡ self.old.circuit }
        ensures new { IfOk result (IsNew (window_for self.old.circuit setup.now)) }
    {
        let base = self.base(alloc, setup)?;
        let made = base.restricted(alloc, &self.frame_plan, setup);
        self.keep(base).and(made)
    }

    /// A window of `frames` frames from a start, before its first decision.
    ///
    /// # Errors
    /// Out of memory.
    pub fn window(
        &mut self,
        alloc: Global,
        fault: Option<Fault>,
        frames: u32,
        start: &Start,
    ) -> Result<Window<'c>, AllocError>
        requires frames { frames ≤ MAX_FRAMES }
        requires start { IsStart self.old.circuit fault frames (start_of start.now) }
        ensures circuit { self.new.circuit ≡ self.old.circuit }
        ensures window { IfOk result
            (λ w. w.window ≡ window_from self.old.circuit fault frames start.now) }
        ensures decisions { IfOk result (λ w. w.decisions ≡ []) }
        ensures marks { IfOk result (λ w. w.marks ≡ []) }
    {
        let setup = Setup {
            fault,
            frames,
            start,
        };
        if is_small(self.circuit()) {
            self.window_following(alloc, &setup)
        } else {
            self.window_of_good(alloc, &setup)
        }
    }
}
