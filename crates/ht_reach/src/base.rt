//! The solver of one frame, before anything is forbidden in it.
ghost use Rattle.ht_solver.specs.Efforts.{IsNoMore};

use crate::cube::Cube;
use crate::frame::excluding;
use crate::problem::{Problem, Source};
use crate::question::{add_literal, ask};
use ht_solver::{Effort, Literal, Solver, Value};
use std::alloc::{AllocError, Global};

/// A solver with the clauses of a frame, and variables that say that an output differs. The first variables are the
/// problem's.
#[derive(Drop)]
pub struct Base {
    pub solver: Solver,
    /// It has so many clauses at most, what it learnt left aside: the price of a copy goes by them.
    pub clauses: usize,
    /// True only where some output differs; none where the solver has too many variables.
    pub differs: Option<Literal>,
    /// By difference of the problem: true only where it shows.
    pub shown: Vec<Option<Literal>>,
}

fn add_variables(solver: &mut Solver, costs: &[u32]) -> Result<(), AllocError> {
    for cost in costs {
        solver.add_variable(*cost)?;
    }
    Ok(())
}

fn add_clauses(solver: &mut Solver, clauses: &[Vec<Literal>]) -> Result<(), AllocError> {
    for clause in clauses {
        solver.add_support(clause)?;
    }
    Ok(())
}

// A variable is true only where a source is.
fn add_source(solver: &mut Solver, literal: Literal, source: Source) -> Result<(), AllocError> {
    match source {
        Source::Always => {}
        Source::Never => {
            solver.add_clause(&[literal.opposite()])?;
        }
        Source::Variable(variable) => {
            if let Some(needed) = Literal::new(variable, true) {
                solver.add_support(&[literal.opposite(), needed])?;
            }
        }
    }
    Ok(())
}

// A clause for each of both sources of a difference, and one that some difference shows, come to those of a frame.
fn most_clauses(problem: &Problem) -> usize {
    let sources = problem.differences.len().saturating_mul(2);
    problem
        .clauses
        .len()
        .saturating_add(sources)
        .saturating_add(1)
}

impl Base {
    /// The base of a problem.
    ///
    /// # Errors
    /// Out of memory.
    pub fn new(alloc: Global, problem: &Problem) -> Result<Base, AllocError> {
        let mut solver = Solver::new(alloc, false);
        add_variables(&mut solver, &problem.costs)?;
        add_clauses(&mut solver, &problem.clauses)?;
        let mut base = Base {
            solver,
            clauses: most_clauses(problem),
            differs: None,
            shown: Vec::new(alloc),
        };
        base.add_differences(alloc, problem)?;
        Ok(base)
    }

    // Adds the variables of the differences: where some output differs one of them shows.
    fn add_differences(&mut self, alloc: Global, problem: &Problem) -> Result<(), AllocError> {
        self.differs = add_literal(&mut self.solver)?;
        let mut some = Vec::new(alloc);
        if let Some(literal) = self.differs {
            some.push(literal.opposite())?;
        }
        for difference in &problem.differences {
            let shown = add_literal(&mut self.solver)?;
            if let Some(literal) = shown {
                some.push(literal)?;
                add_source(&mut self.solver, literal, difference.good)?;
                add_source(&mut self.solver, literal, difference.faulty)?;
            }
            self.shown.push(shown)?;
        }
        self.solver.add_support(&some)?;
        Ok(())
    }

    /// Forbids a cube, in each copy too.
    ///
    /// # Errors
    /// Out of memory.
    pub fn forbid(&mut self, alloc: Global, cube: &Cube) -> Result<(), AllocError> {
        let clause = excluding(alloc, cube, None)?;
        self.solver.add_clause(&clause)?;
        self.clauses = self.clauses.saturating_add(1);
        Ok(())
    }

    /// Propagates what follows from the clauses alone, so that no frame has to.
    ///
    /// # Errors
    /// Out of memory.
    pub fn propagate(&mut self, left: &mut Effort) -> Result<(), AllocError>
        ensures { IsNoMore left.new left.old }
    {
        ask(&mut self.solver, &[], u64::MAX, left)?;
        Ok(())
    }

    /// The variables that make the first difference show that a solution has, those of its sources.
    ///
    /// # Errors
    /// Out of memory.
    pub fn targets(
        &self,
        alloc: Global,
        problem: &Problem,
        solver: &Solver,
    ) -> Result<Vec<u32>, AllocError> {
        let mut targets = Vec::new(alloc);
        for (difference, shown) in problem.differences.iter().zip(&self.shown) {
            if let Some(literal) = shown
                && solver.value(*literal) == Value::True
            {
                push_variable(&mut targets, difference.good)?;
                push_variable(&mut targets, difference.faulty)?;
                break;
            }
        }
        Ok(targets)
    }
}

/// Adds the variable of a source, if it has one.
///
/// # Errors
/// Out of memory.
pub fn push_variable(variables: &mut Vec<u32>, source: Source) -> Result<(), AllocError> {
    if let Source::Variable(variable) = source {
        variables.push(variable)?;
    }
    Ok(())
}
