//! The search of a one-frame window under clauses.
ghost use Rattle.std.specs.Prelude.{◌≡◌, ◌≤◌, ℕ, [], true, IfOk};
ghost use Rattle.ht_tree.specs.Walk.Walks.{Node, root};
ghost use Rattle.ht_tree.specs.Walk.Searches.{node_at};
ghost use Rattle.ht_tree.specs.Walk.Counts.{Measures, most_tokens};
ghost use Rattle.ht_tree.specs.Clause.ClauseWindows.{is_one_frame, status_under};
ghost use Rattle.ht_tree.specs.Clause.ClauseSearches.{guide_under, pick_under};
ghost use Rattle.ht_search.specs.Outcomes.{IsClosed, IsOutcome, IsSpent};
ghost use Rattle.ht_search.specs.WindowSteps.{route_of, steps_under};
ghost use Rattle.ht_window.specs.Shallow.{window_shallow};
ghost use Rattle.ht_invariant.specs.Trials.{clause_window, knows_each, knows_sought, suits_sought};

use crate::literals::{breaks_some, meets_each, to_clause};
use crate::look::{open_if_sure, sought_choice, sought_status};
use crate::sought::Sought;
use ht_search::{Outcome, Point, Problem, search};
use ht_tern::Tern;
use ht_tree::{Choice, Clause, Status3};
use ht_window::Window;
use std::alloc::{AllocError, Global};

/// A one-frame window under clauses, with what is looked for.
#[derive(Drop)]
pub struct ClauseTrial<'c, 'k> {
    /// The window.
    pub window: Window<'c>,
    /// What is looked for.
    pub sought: Sought,
    /// The clauses.
    pub clauses: &'k [Clause],
    ghost one_frame: { is_one_frame window.window.start ≡ true },
    ghost known_sought: { knows_sought window.window.circuit sought ≡ true },
    ghost suited: { suits_sought window.window.fault sought ≡ true },
    ghost known_clauses: { knows_each window.window.circuit clauses.now ≡ true },
}

impl<'c, 'k> ClauseTrial<'c, 'k> {
    // The status under the clauses.
    fn see(&self) -> Status3
        ensures { result ≡ status_under (clause_window self.now.window.window self.now.sought
            self.now.clauses.now) self.now.window.decisions }
    {
        // for the proof: the window is well formed
        let _ = self.window.circuit();
        if breaks_some(&self.window, self.clauses) {
            return Status3::Dead;
        }
        let status = sought_status(&self.window, self.sought);
        if meets_each(&self.window, self.clauses) {
            return status;
        }
        open_if_sure(status)
    }

    // The choice of the next variable under the clauses.
    fn choose(&self) -> Choice
        ensures { result ≡ pick_under (clause_window self.now.window.window self.now.sought
            self.now.clauses.now) self.now.window.decisions }
    {
        // for the proof: the window is well formed
        let _ = self.window.circuit();
        match sought_choice(&self.window, self.sought) {
            Some(choice) => choice,
            None => to_clause(&self.window, self.clauses),
        }
    }
}

impl<'c, 'k> Problem for ClauseTrial<'c, 'k> {
    ghost use Rattle.ht_tree.specs.Clause.ClauseWindows.{ClauseWindow};

    ghost Subject = { ClauseWindow };

    ghost subject = { λ s. clause_window s.window.window s.sought s.clauses.now };

    ghost guide = { guide_under };

    ghost route = { λ s. route_of (steps_under [] s.window.decisions) };

    ghost shallow = { λ s. window_shallow s.window.window };

    fn status(&self) -> Status3 {
        self.see()
    }

    fn pick(&self) -> Choice {
        // for the proof: the window is well formed
        let _ = self.window.circuit();
        self.choose()
    }

    fn decide(&mut self, var: u32, value: Tern) -> Result<(), AllocError> {
        self.window.decide(var, value)?;
        Ok(())
    }

    fn deeper(&mut self) -> Result<bool, AllocError> {
        Ok(false)
    }

    fn mark(&self) -> Point {
        Point {
            level: 0,
            mark: self.window.decision_count() as u64,
        }
    }

    fn undo(&mut self, point: Point) {
        self.window.undo_to(point.mark as usize);
    }
}

/// Searches a window under clauses from its root within a budget, of which each token takes one. The window stands then
/// where the outcome says.
///
/// # Errors
/// Out of memory.
pub fn explore_under<'c, 'k>(
    alloc: Global,
    trial: &mut ClauseTrial<'c, 'k>,
    budget: u64,
) -> Result<Outcome, AllocError>
    requires { trial.old.window.decisions ≡ [] }
    ensures subject { clause_window trial.new.window.window trial.new.sought trial.new.clauses.now
        ≡ clause_window trial.old.window.window trial.old.sought trial.old.clauses.now }
    ensures outcome { IfOk result (IsOutcome
        (guide_under (clause_window trial.old.window.window trial.old.sought
        trial.old.clauses.now)) budget 1 (node_at trial.new.window.decisions)) }
    ensures enough { (left : Node → ℕ) → Measures
        (guide_under (clause_window trial.old.window.window trial.old.sought
        trial.old.clauses.now)).judge left
        → most_tokens (left root) ≤ budget → IfOk result (λ outcome. ¬ IsSpent outcome) }
{
    let outcome = search(alloc, trial, budget, 1)?;
    Ok(outcome)
}
