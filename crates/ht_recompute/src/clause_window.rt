//! Windows under clauses, whose frame settles at each node.
ghost use Rattle.std.specs.Prelude.{◌≡◌, ◌<◌, ℕ, length, get_or, IfOk};
ghost use Rattle.std.specs.List.{All};
ghost use Rattle.ht_tree.specs.Clause.Clauses.{literals_of, literals_of_each};
ghost use Rattle.ht_tree.specs.Clause.ClauseWindows.{closing_window, sought_status, under_clauses, window_under};
ghost use Rattle.ht_recompute.specs.JudgedKinds.{judged_kind_under};
ghost use Rattle.ht_recompute.specs.WrittenClauses.{IsKnownClause};

use crate::judged_window::JudgedWindow;
use crate::kept_frames::KeptFrames;
use crate::recomputed_window::RecomputedWindow;
use ht_net::Fault;
use ht_tree::{Assign3, Clause, Status3, WalkNode};
use std::alloc::{AllocError, Global};
use std::marker::Model;

/// What is looked for under clauses.
#[derive(Clone, Copy)]
pub enum Goal<'s> {
    /// A difference of the two machines.
    Difference,
    /// A next state that doesn't meet a clause.
    Breach(&'s Clause),
}

/// A window of one frame under clauses.
#[derive(Drop)]
pub struct RecomputedClauseWindow<'c, 's> {
    window: RecomputedWindow<'c, 's>,
    goal: Goal<'s>,
    clauses: &'s [Clause],
}

impl<'c, 's> Model for RecomputedClauseWindow<'c, 's> {
    ghost use Rattle.ht_tree.specs.Clause.ClauseWindows.{ClauseWindow};

    ghost Value = { ClauseWindow };

    ghost use Rattle.ht_recompute.specs.RecomputedClauseWindowOf.{clause_window_of, IsOneFrameUnder};

    ghost view = { clause_window_of };

    ghost invariant = { IsOneFrameUnder };
}

impl<'c, 's> RecomputedClauseWindow<'c, 's> {
    /// The one-frame window of a fault and a set of flip-flops, under clauses.
    ///
    /// # Errors
    /// Out of memory.
    pub fn one_frame(
        alloc: Global,
        kept: KeptFrames<'c>,
        fault: Fault,
        z: &'s [u32],
        clauses: &'s [Clause],
    ) -> Result<RecomputedClauseWindow<'c, 's>, AllocError>
        requires z { (i : ℕ) → i < length z.now → get_or z.now i 0 < length kept.circuit.dffs }
        requires clauses { All (IsKnownClause kept.circuit) clauses.now }
        ensures { IfOk result (λ window. window
            ≡ window_under kept.entry.circuit fault z.now (literals_of_each clauses.now)) }
    {
        // for the proof: a match is far cheaper to check than `?` on what owns so much
        match RecomputedWindow::one_frame(alloc, kept, fault, z) {
            Ok(window) => Ok(RecomputedClauseWindow {
                window,
                goal: Goal::Difference,
                clauses,
            }),
            Err(error) => Err(error),
        }
    }

    /// The closing window of a clause under clauses.
    ///
    /// # Errors
    /// Out of memory.
    pub fn closing(
        alloc: Global,
        kept: KeptFrames<'c>,
        clause: &'s Clause,
        clauses: &'s [Clause],
    ) -> Result<RecomputedClauseWindow<'c, 's>, AllocError>
        requires clause { IsKnownClause kept.circuit clause.now }
        requires clauses { All (IsKnownClause kept.circuit) clauses.now }
        ensures { IfOk result (λ window. window
            ≡ closing_window kept.entry.circuit (literals_of_each clauses.now)
            (literals_of clause.now)) }
    {
        // for the proof: a match is far cheaper to check than `?` on what owns so much
        match RecomputedWindow::good(alloc, kept, &[]) {
            Ok(window) => Ok(RecomputedClauseWindow {
                window,
                goal: Goal::Breach(clause),
                clauses,
            }),
            Err(error) => Err(error),
        }
    }
}

impl<'c, 's> RecomputedClauseWindow<'c, 's> {
    // The status of what is looked for, whatever the clauses, at a path.
    fn sought(&mut self, path: &[Assign3]) -> Status3
        ensures status { result ≡ sought_status self.old.window path.now self.old.sought }
        ensures same { self.new ≡ self.old }
    {
        match self.goal {
            Goal::Difference => self.window.difference_status(path),
            Goal::Breach(clause) => self.window.breach_status(path, clause),
        }
    }

    // What the clauses make of that status.
    fn under(&mut self, path: &[Assign3], sought: Status3) -> Status3
        ensures status { result
            ≡ under_clauses self.old.window.circuit path.now self.old.clauses sought }
        ensures same { self.new ≡ self.old }
    {
        self.window.under_clauses(path, self.clauses, sought)
    }
}

impl<'c, 's> JudgedWindow<'c> for RecomputedClauseWindow<'c, 's> {
    ghost kind = { λ w. judged_kind_under w };

    fn token_weight(&self) -> u32 {
        self.window.token_weight()
    }

    fn status(&mut self, node: &WalkNode) -> Status3 {
        let path = node.path();
        let sought = self.sought(path);
        self.under(path, sought)
    }

    fn may_two(&self, node: &WalkNode, var: u32) -> bool {
        self.window.may_two(node, var)
    }

    fn may_three(&self, node: &WalkNode, var: u32) -> bool {
        self.window.may_three(node, var)
    }

    fn may_go_before(&mut self, _node: &WalkNode) -> bool {
        // for the proof: the window is of one frame
        let _goal = self.goal;
        false
    }

    fn into_kept(self) -> KeptFrames<'c> {
        self.window.into_kept()
    }
}
