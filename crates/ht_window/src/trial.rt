//! The search of one window.
ghost use Rattle.std.specs.Prelude.{◌≡◌, ◌<◌, ◌*◌, ◌≤◌, ℕ, [], true, IfOk};
ghost use Rattle.ht_tree.specs.Walk.Walks.{Node, root};
ghost use Rattle.ht_tree.specs.Window.WindowStatus.{without_place};
ghost use Rattle.ht_tree.specs.Walk.Searches.{guide_of, node_at};
ghost use Rattle.ht_tree.specs.Walk.Counts.{Measures, most_tokens, seeks_difference};
ghost use Rattle.ht_search.specs.Outcomes.{IsClosed, IsOutcome, IsSpent};
ghost use Rattle.ht_search.specs.WindowSteps.{route_of, steps_under};
ghost use Rattle.ht_window.specs.Shallow.{window_shallow};

use crate::window::Window;
use ht_search::{Outcome, Point, Problem, search};
use ht_tern::Tern;
use ht_tree::{Choice, Status, Status3};
use std::alloc::{AllocError, Global};

/// A window in which a difference of the two machines is searched for.
#[derive(Drop)]
pub struct Trial<'c> {
    /// The window.
    pub window: Window<'c>,
    ghost seeks: { seeks_difference window.window.start ≡ true },
}

/// A status without its place.
pub fn without_place(status: Status) -> Status3
    ensures { result ≡ without_place status }
{
    match status {
        Status::Dead => Status3::Dead,
        Status::Sure { frame: _, place: _ } => Status3::Sure,
        Status::Open => Status3::Open,
    }
}

impl<'c> Problem for Trial<'c> {
    ghost use Rattle.ht_tree.specs.Window.Windows.{SearchWindow};

    ghost Subject = { SearchWindow };

    ghost subject = { λ s. s.window.window };

    ghost guide = { guide_of };

    ghost route = { λ s. route_of (steps_under [] s.window.decisions) };

    ghost shallow = { λ s. window_shallow s.window.window };

    fn status(&self) -> Status3 {
        without_place(self.window.status())
    }

    fn pick(&self) -> Choice {
        self.window.pick()
    }

    fn decide(&mut self, var: u32, value: Tern) -> Result<(), AllocError> {
        self.window.decide(var, value)?;
        Ok(())
    }

    fn deeper(&mut self) -> Result<bool, AllocError> {
        Ok(false)
    }

    fn mark(&self) -> Point {
        Point {
            level: 0,
            mark: self.window.decision_count() as u64,
        }
    }

    fn undo(&mut self, point: Point) {
        self.window.undo_to(point.mark as usize);
    }
}

/// Searches a window from its root within a budget, where each token weighs a unit. The window stands then where the
/// outcome says.
///
/// # Errors
/// Out of memory; the window is the same, with some decisions.
pub fn explore<'c>(
    alloc: Global,
    trial: &mut Trial<'c>,
    budget: u64,
    unit: u64,
) -> Result<Outcome, AllocError>
    requires unit { 0 < unit }
    requires start { trial.old.window.decisions ≡ [] }
    ensures window { trial.new.window.window ≡ trial.old.window.window }
    ensures outcome { IfOk result (IsOutcome (guide_of trial.old.window.window) budget unit
        (node_at trial.new.window.decisions)) }
    ensures closed { IfOk result
        (λ outcome. IsClosed outcome → trial.new.window.decisions ≡ []) }
    ensures enough { (left : Node → ℕ) → Measures (guide_of trial.old.window.window).judge left
        → most_tokens (left root) * unit ≤ budget → IfOk result (λ outcome. ¬ IsSpent outcome) }
{
    let outcome = search(alloc, trial, budget, unit)?;
    Ok(outcome)
}
