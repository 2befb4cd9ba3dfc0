//! The solver, as others call it.
ghost use Rattle.std.specs.Prelude.{◌≡◌, ◌≤◌, ◌+◌};

use crate::arena::ClauseRef;
use crate::effort::Effort;
use crate::literal::{Literal, Value};
use crate::log::Lemma;
use crate::search::Answer;
use crate::state::State;
use std::alloc::{AllocError, Global};
use std::marker::Model;

/// A conflict-driven solver for clauses. It is asked again and again under assumptions, and may get more variables and
/// clauses in between; a copy of it goes on from where it stands. Clauses see what it has spent.
#[derive(Clone, Drop)]
pub struct Solver {
    state: State,
    // what the call before assumed: its levels may stand still
    assumed: Vec<Literal>,
}

impl Model for Solver {
    ghost use Rattle.ht_solver.specs.declared.effort.Effort.{Effort};

    ghost Value = { Effort };

    ghost view = { λ a. a.state.spent };
}

impl Solver {
    /// A solver with no variable and no clause. One that keeps a log says of each lemma what it follows from.
    pub fn new(alloc: Global, keeps_log: bool) -> Solver
        ensures { result ≡ record { conflicts = 0; propagations = 0 } }
    {
        Solver {
            state: State::new(alloc, keeps_log),
            assumed: Vec::new(alloc),
        }
    }

    /// Adds a variable, the next from 0. Of two that conflicts met alike the one that costs less is decided.
    ///
    /// # Errors
    /// Out of memory; the solver is of no more use.
    pub fn add_variable(&mut self, cost: u32) -> Result<(), AllocError>
        ensures { self.new ≡ self.old }
    {
        self.state.add_variable(cost)
    }

    /// How many variables there are.
    pub fn variables(&self) -> usize {
        self.state.assigned.variables()
    }

    /// Adds a clause that propagation alone looks at: where all but one of its literals are false, that one is true. None
    /// where the solver is full.
    ///
    /// # Errors
    /// Out of memory; the solver is of no more use.
    pub fn add_clause(&mut self, literals: &[Literal]) -> Result<Option<ClauseRef>, AllocError>
        ensures { self.new ≡ self.old }
    {
        self.state.add(literals, false)
    }

    /// Adds a support clause, `-y, x1, .., xk`: where y is true some xi has to be, and one is decided if none follows. None
    /// where the solver is full.
    ///
    /// # Errors
    /// Out of memory; the solver is of no more use.
    pub fn add_support(&mut self, literals: &[Literal]) -> Result<Option<ClauseRef>, AllocError>
        ensures { self.new ≡ self.old }
    {
        self.state.add(literals, true)
    }

    /// Lets a clause go that a literal meets for ever: one of its own that a clause of one literal made true.
    pub fn let_go(&mut self, clause: ClauseRef)
        ensures { self.new ≡ self.old }
    {
        self.state.assigned.back_to(0);
        self.state.arena.let_go(clause);
    }

    // How many assumptions, from the first on, are those of the call before.
    fn kept(&self, assumptions: &[Literal]) -> usize {
        let mut kept: usize = 0;
        for (before, now) in self.assumed.iter().zip(assumptions) {
            if *before != *now {
                break;
            }
            kept = kept.saturating_add(1);
        }
        kept
    }

    /// Looks for a solution in which the assumptions are true, and spends no more than the budget. What follows from the
    /// first assumptions, as far as the call before had the same, is kept.
    ///
    /// # Errors
    /// Out of memory; the solver is of no more use.
    pub fn solve(&mut self, assumptions: &[Literal], budget: Effort) -> Result<Answer, AllocError>
        ensures conflicts { self.new.conflicts ≤ self.old.conflicts + budget.conflicts }
        ensures propagations { self.new.propagations
            ≤ self.old.propagations + budget.propagations }
    {
        let kept = self.kept(assumptions);
        self.state.assigned.back_to(kept);
        self.assumed.clear();
        let answer = self.state.search(assumptions, budget)?;
        match answer {
            Answer::GivenUp => {}
            _ => self.assumed.extend_from_slice(assumptions)?,
        }
        Ok(answer)
    }

    /// What is known of a literal since the last call of `solve`; one of no variable here is false.
    pub fn value(&self, literal: Literal) -> Value {
        self.state.assigned.value(literal)
    }

    /// How much conflicts met a variable of late.
    pub fn activity(&self, variable: u32) -> u64 {
        self.state.decisions.activity(variable)
    }

    /// What all calls of `solve` spent.
    pub fn spent(&self) -> Effort
        ensures { result ≡ self.now }
    {
        self.state.spent
    }

    /// The lemmas so far, in order, where a log is kept.
    pub fn lemmas(&self) -> &[Lemma] {
        match &self.state.log {
            None => &[],
            Some(log) => log.lemmas(),
        }
    }
}
