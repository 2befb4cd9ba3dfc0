//! The search for a solution: propagate, decide, learn, restart (Een and Sorensson 2003, An Extensible SAT-solver).
ghost use Rattle.std.specs.Prelude.{◌≡◌, ◌≤◌, ◌+◌};

use crate::arena::ClauseRef;
use crate::effort::Effort;
use crate::literal::{Literal, Value};
use crate::state::State;
use crate::watches::Propagated;
use std::alloc::{AllocError, Global};

/// What a solver says of assumptions.
#[derive(Drop)]
pub enum Answer {
    /// All clauses are met: a variable is true where its value is, and all others are false.
    Satisfiable,
    /// The core: some of the assumptions, which can't all be true. It is empty where the clauses alone can't be met.
    Unsatisfiable(Vec<Literal>),
    /// The budget is spent, or the solver is full.
    GivenUp,
}

// What the assumptions ask for at a decision level.
#[derive(Clone, Copy)]
enum Assumption {
    Denied(Literal),
    Open(Literal),
    AllTrue,
}

// So many conflicts come before the first restart, and a tenth of all so far more before each later one.
const RESTART: u64 = 200;

// When the search goes back to level 0.
#[derive(Clone, Copy)]
struct Restarts {
    begun: u64,
    next: u64,
}

impl Restarts {
    fn new(conflicts: u64) -> Restarts {
        Restarts {
            begun: conflicts,
            next: conflicts.saturating_add(RESTART),
        }
    }

    // Whether a restart is due after so many conflicts; it then sets the next one.
    fn is_due(&mut self, conflicts: u64) -> bool {
        if conflicts <= self.next {
            return false;
        }
        let more = conflicts.saturating_sub(self.begun) / 10;
        self.next = conflicts.saturating_add(RESTART).saturating_add(more);
        true
    }
}

impl State {
    // Propagates within a number of literals spent in all.
    fn propagate(&mut self, most: u64) -> Result<Propagated, AllocError>
        requires { self.old.spent.propagations ≤ most }
        ensures propagations { self.new.spent.propagations ≤ most }
        ensures conflicts { self.new.spent.conflicts ≡ self.old.spent.conflicts }
    {
        let ended = self.watches.propagate(
            &mut self.arena,
            &mut self.assigned,
            &mut self.spent.propagations,
            most,
        )?;
        if let Some(log) = &mut self.log
            && self.assigned.level() == 0
        {
            log.add_units(&mut self.arena, &self.assigned)?;
        }
        Ok(ended)
    }

    fn decide(&mut self, literal: Literal) -> Result<(), AllocError>
        ensures { self.new.spent ≡ self.old.spent }
    {
        self.assigned.begin_level()?;
        self.assigned.assign(literal, None)
    }

    // The first assumption without a level: each has a level of its own, with no decision where it is true already.
    fn next_assumption(&mut self, assumptions: &[Literal]) -> Result<Assumption, AllocError>
        ensures { self.new.spent ≡ self.old.spent }
    {
        let Some(rest) = assumptions.get(self.assigned.level()..) else {
            return Ok(Assumption::AllTrue);
        };
        for literal in rest {
            match self.assigned.value(*literal) {
                Value::True => self.assigned.begin_level()?,
                Value::False => return Ok(Assumption::Denied(*literal)),
                Value::Open => return Ok(Assumption::Open(*literal)),
            }
        }
        Ok(Assumption::AllTrue)
    }

    // Decides what comes next; the answer where nothing is left to decide.
    fn decide_next(&mut self, assumptions: &[Literal]) -> Result<Option<Answer>, AllocError>
        ensures { self.new.spent ≡ self.old.spent }
    {
        match self.next_assumption(assumptions)? {
            Assumption::Denied(literal) => {
                let core = self.analysis.core(literal, &self.arena, &self.assigned)?;
                return Ok(Some(Answer::Unsatisfiable(core)));
            }
            Assumption::Open(literal) => self.decide(literal)?,
            Assumption::AllTrue => {
                match self.decisions.pick(&self.arena, &mut self.assigned) {
                    None => return Ok(Some(Answer::Satisfiable)),
                    Some(literal) => self.decide(literal)?,
                }
            }
        }
        Ok(None)
    }

    // Learns from a conflict within a number of conflicts in all; the answer where nothing can be learnt.
    fn resolve(&mut self, conflict: ClauseRef, most: u64) -> Result<Option<Answer>, AllocError>
        requires { self.old.spent.conflicts ≤ most }
        ensures conflicts { self.new.spent.conflicts ≤ most }
        ensures propagations { self.new.spent.propagations ≡ self.old.spent.propagations }
    {
        if self.assigned.level() == 0 {
            self.refute(conflict)?;
            return Ok(Some(Answer::Unsatisfiable(Vec::new(self.alloc))));
        }
        if self.spent.conflicts >= most || !self.learn(conflict)? {
            return Ok(Some(Answer::GivenUp));
        }
        self.spent.conflicts += 1;
        Ok(None)
    }

    /// Looks for a solution in which the assumptions are true, from the levels that stand: those are of the first
    /// assumptions, in order.
    ///
    /// # Errors
    /// Out of memory.
    pub fn search(&mut self, assumptions: &[Literal], budget: Effort) -> Result<Answer, AllocError>
        ensures conflicts { self.new.spent.conflicts
            ≤ self.old.spent.conflicts + budget.conflicts }
        ensures propagations { self.new.spent.propagations
            ≤ self.old.spent.propagations + budget.propagations }
    {
        if self.refuted {
            return Ok(Answer::Unsatisfiable(Vec::new(self.alloc)));
        }
        let most = Effort {
            conflicts: self.spent.conflicts.saturating_add(budget.conflicts),
            propagations: self.spent.propagations.saturating_add(budget.propagations),
        };
        let mut restarts = Restarts::new(self.spent.conflicts);
        // In fact the budget ends it: each pass propagates a decision, meets a conflict or answers.
        for _ in 0..u64::MAX {
            match self.propagate(most.propagations)? {
                Propagated::Spent => return Ok(Answer::GivenUp),
                Propagated::All => {
                    if let Some(answer) = self.decide_next(assumptions)? {
                        return Ok(answer);
                    }
                }
                Propagated::Conflict(conflict) => {
                    if let Some(answer) = self.resolve(conflict, most.conflicts)? {
                        return Ok(answer);
                    }
                    if restarts.is_due(self.spent.conflicts) {
                        self.assigned.back_to(0);
                    }
                    self.reduce_when_full()?;
                }
            }
        }
        Ok(Answer::GivenUp)
    }
}
