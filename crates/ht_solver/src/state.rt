//! The parts of a solver, and what adds to them.
ghost use Rattle.std.specs.Prelude.{◌≡◌};

use crate::analysis::Analysis;
use crate::arena::{Arena, ClauseRef};
use crate::assignment::Assignment;
use crate::decisions::Decisions;
use crate::effort::Effort;
use crate::literal::{Literal, Value};
use crate::log::Log;
use crate::watches::Watches;
use std::alloc::{AllocError, Global};

// So many lemmas are kept at first before some are let go.
const FIRST_ROOM: usize = 4000;

/// The clauses, what is true, what a conflict and a decision look at, and what was spent. It has no invariant: each read
/// by a number that stands in a list is checked, and has a harmless answer where there is nothing.
#[derive(Clone, Drop)]
pub struct State {
    pub alloc: Global,
    pub arena: Arena,
    pub assigned: Assignment,
    pub watches: Watches,
    pub analysis: Analysis,
    pub decisions: Decisions,
    pub log: Option<Log>,
    /// The lemmas that are clauses of the arena, in order.
    pub learnt: Vec<ClauseRef>,
    /// Once there are more of them some are let go.
    pub room: usize,
    /// Whether the clauses can't all be met.
    pub refuted: bool,
    pub spent: Effort,
}

impl State {
    /// No variable, no clause, nothing spent.
    pub fn new(alloc: Global, keeps_log: bool) -> State
        ensures { result.spent ≡ record { conflicts = 0; propagations = 0 } }
    {
        let log = if keeps_log {
            Some(Log::new(alloc))
        } else {
            None
        };
        State {
            alloc,
            arena: Arena::new(alloc),
            assigned: Assignment::new(alloc),
            watches: Watches::new(alloc),
            analysis: Analysis::new(alloc),
            decisions: Decisions::new(alloc),
            log,
            learnt: Vec::new(alloc),
            room: FIRST_ROOM,
            refuted: false,
            spent: Effort {
                conflicts: 0,
                propagations: 0,
            },
        }
    }

    /// Adds a variable.
    ///
    /// # Errors
    /// Out of memory.
    pub fn add_variable(&mut self, cost: u32) -> Result<(), AllocError>
        ensures { self.new.spent ≡ self.old.spent }
    {
        self.assigned.add_variable()?;
        self.watches.add_variable()?;
        self.analysis.add_variable()?;
        self.decisions.add_variable(cost)?;
        match &mut self.log {
            None => Ok(()),
            Some(log) => log.add_variable(),
        }
    }

    // The literals of a clause: the true ones first and the false ones last, so that the first two can be watched.
    fn sorted(&self, literals: &[Literal]) -> Result<Vec<Literal>, AllocError> {
        let mut sorted = Vec::with_capacity(self.alloc, literals.len())?;
        for wanted in [Value::True, Value::Open, Value::False] {
            self.push_those(&mut sorted, literals, wanted)?;
        }
        Ok(sorted)
    }

    // Adds those of a value.
    fn push_those(
        &self,
        sorted: &mut Vec<Literal>,
        literals: &[Literal],
        wanted: Value,
    ) -> Result<(), AllocError> {
        for literal in literals {
            if self.assigned.value(*literal) == wanted {
                sorted.push(*literal)?;
            }
        }
        Ok(())
    }

    fn value_at(&self, literals: &[Literal], at: usize) -> Value {
        match literals.get(at) {
            None => Value::False,
            Some(literal) => self.assigned.value(*literal),
        }
    }

    /// Adds a clause, and takes back all decisions. None where the arena is full.
    ///
    /// # Errors
    /// Out of memory.
    pub fn add(
        &mut self,
        literals: &[Literal],
        is_support: bool,
    ) -> Result<Option<ClauseRef>, AllocError>
        ensures { self.new.spent ≡ self.old.spent }
    {
        self.assigned.back_to(0);
        let sorted = self.sorted(literals)?;
        let Some(clause) = self.arena.add(&sorted)? else {
            return Ok(None);
        };
        if is_support {
            self.decisions.add_support(clause, &sorted)?;
        }
        let first = self.value_at(&sorted, 0);
        let second = self.value_at(&sorted, 1);
        if first == Value::False {
            self.refute(clause)?;
            return Ok(Some(clause));
        }
        self.watches.add(clause, &sorted)?;
        if first == Value::Open
            && second == Value::False
            && let Some(literal) = sorted.first()
        {
            self.assigned.assign(*literal, Some(clause))?;
        }
        Ok(Some(clause))
    }

    /// Notes that all literals of a clause are false at level 0: the clauses can't all be met.
    ///
    /// # Errors
    /// Out of memory.
    pub fn refute(&mut self, clause: ClauseRef) -> Result<(), AllocError>
        ensures { self.new.spent ≡ self.old.spent }
    {
        if self.refuted {
            return Ok(());
        }
        self.refuted = true;
        if let Some(log) = &mut self.log {
            log.add_units(&mut self.arena, &self.assigned)?;
            let number = self.arena.skip_number();
            log.add(clause, &[], number, &self.arena, &self.assigned)?;
        }
        Ok(())
    }
}
