//! A window in which a list that synchronizes is searched for, as a problem of the search.
ghost use Rattle.std.specs.Prelude.{◌≡◌, ◌<◌, ◌≤◌, ℕ, [], None, Some, IfOk, length};
ghost use Rattle.std.specs.List.{find};
ghost use Rattle.ht_pairs.specs.Pairs.{is_member, pair};
ghost use Rattle.ht_tern.specs.declared.tern.Tern.TheVariants.{Unk};
ghost use Rattle.ht_tree.specs.Walk.Searches.{node_at};
ghost use Rattle.ht_tree.specs.Walk.Walks.{Node};
ghost use Rattle.ht_tree.specs.Window.Windows.{is_undetermined, unknown};
ghost use Rattle.ht_tree.specs.Window.Variables.{IsLegalChoice};
ghost use Rattle.ht_search.specs.Outcomes.{IsOutcome};
ghost use Rattle.ht_search.specs.WindowSteps.{route_of, steps_under};
ghost use Rattle.ht_forward.specs.Goals.{guide_to};
ghost use Rattle.ht_sync.specs.SyncWindows.{flip_flops, last_set, sync_choice, sync_goal, sync_status};
ghost use Rattle.ht_forward.specs.Shallow.{goal_shallow};

use ht_pairs::PairSet;
use ht_search::{Outcome, Point, Problem, search};
use ht_tern::Tern;
use ht_tree::{Choice, Status3};
use ht_window::Window;
use std::alloc::{AllocError, Global};

/// A window of the good machine, in which every latch is to be definite after the last frame.
#[derive(Drop)]
pub struct SyncTrial<'c> {
    /// The window.
    pub window: Window<'c>,
    /// How many frames it has.
    pub frames: u32,
    ghost some: { 0 < frames },
    ghost known: { frames ≡ window.window.frames },
    ghost good: { window.window.fault ≡ None },
}

// Whether a set holds XX.
fn may_be_unknown(set: PairSet) -> bool
    ensures { result ≡ is_member (pair Unk Unk) set }
{
    set.has(Tern::Unk, Tern::Unk)
}

// Whether a set is undetermined: it has two or more members.
fn is_undetermined(set: PairSet) -> bool
    ensures { result ≡ is_undetermined set }
{
    !set.is_single()
}

impl<'c> SyncTrial<'c> {
    // What the decisions so far make of the window.
    fn see(&self) -> Status3
        ensures { result ≡ sync_status self.now.window.window self.now.window.decisions }
    {
        let mut some = false;
        for j in 0..self.window.circuit().dffs() {
            let set = self.window.next_state(j);
            if may_be_unknown(set) {
                if !is_undetermined(set) {
                    return Status3::Dead;
                }
                some = true;
            }
        }
        if some { Status3::Open } else { Status3::Sure }
    }

    // The lowest latch whose set after the last frame is undetermined.
    fn undetermined_latch(&self) -> Option<u32>
        ensures { result ≡ find (λ j. is_undetermined
            (last_set self.now.window.window self.now.window.decisions j))
            (flip_flops self.now.window.window.circuit) }
    {
        for j in 0..self.window.circuit().dffs() {
            if is_undetermined(self.window.next_state(j)) {
                return Some(j);
            }
        }
        None
    }

    // The choice of the next variable.
    fn choose(&self) -> Choice
        requires { sync_status self.now.window.window self.now.window.decisions ≡ Status3.Open }
        ensures choice { result ≡ sync_choice self.now.window.window self.now.window.decisions }
        ensures legal { IsLegalChoice self.now.window.window self.now.window.decisions result }
    {
        match self.undetermined_latch() {
            Some(j) => {
                let circuit = self.window.circuit();
                let last = self.frames - 1;
                self.window.walk_back(last, circuit.dff_data(j), true)
            },
            None => unreachable!(),
        }
    }
}

impl<'c> Problem for SyncTrial<'c> {
    ghost use Rattle.ht_tree.specs.Window.Windows.{SearchWindow};

    ghost Subject = { SearchWindow };

    ghost subject = { λ s. s.window.window };

    ghost guide = { λ w. guide_to (sync_goal w) };

    ghost route = { λ s. route_of (steps_under [] s.window.decisions) };

    ghost shallow = { λ s. goal_shallow (sync_goal s.window.window) };

    fn status(&self) -> Status3 {
        self.see()
    }

    fn pick(&self) -> Choice {
        self.choose()
    }

    fn decide(&mut self, var: u32, value: Tern) -> Result<(), AllocError> {
        self.window.decide(var, value)?;
        Ok(())
    }

    fn deeper(&mut self) -> Result<bool, AllocError> {
        Ok(false)
    }

    fn mark(&self) -> Point {
        Point {
            level: 0,
            mark: self.window.decision_count() as u64,
        }
    }

    fn undo(&mut self, point: Point) {
        self.window.undo_to(point.mark as usize);
    }
}

/// Searches a window from its root within a budget, where each token weighs the window's frames. The window stands then
/// where the outcome says.
///
/// # Errors
/// Out of memory; the window is the same, with some decisions.
pub fn explore<'c>(
    alloc: Global,
    trial: &mut SyncTrial<'c>,
    budget: u64,
) -> Result<Outcome, AllocError>
    requires { trial.old.window.decisions ≡ [] }
    ensures window { trial.new.window.window ≡ trial.old.window.window }
    ensures outcome { IfOk result (IsOutcome (guide_to (sync_goal trial.old.window.window)) budget
        trial.old.window.window.frames (node_at trial.new.window.decisions)) }
{
    let unit = trial.frames as u64;
    let outcome = search(alloc, trial, budget, unit)?;
    Ok(outcome)
}
