//! What a solution needs of the state before it: a walk back from variables that are true, over what supports them.
//!
//! A solver's solution has more than is needed. The walk keeps one support of each variable that is wanted, so the cube
//! that it comes to is small, and from every state that has it the same vector leads to the wanted variables.
use crate::cube::Cube;
use crate::problem::Problem;
use crate::supports::Supports;
use ht_solver::{Literal, Solver, Value};
use std::alloc::{AllocError, Global};

/// A cube, and a vector that leads from each state that has it to what was wanted. The vector has a bit for each input,
/// 0 where it doesn't matter.
#[derive(Drop)]
pub struct Predecessor {
    pub cube: Cube,
    pub vector: Vec<bool>,
}

/// Walks back. What it keeps between walks is only room.
#[derive(Drop)]
pub struct Walk {
    alloc: Global,
    supports: Supports,
    // by variable: it is wanted
    wanted: Vec<bool>,
    // all wanted variables, and those that still need support
    all: Vec<u32>,
    waiting: Vec<u32>,
}

/// Whether a variable is true in a solver's solution.
pub fn is_true(solver: &Solver, variable: u32) -> bool {
    match Literal::new(variable, true) {
        Some(literal) => solver.value(literal) == Value::True,
        None => false,
    }
}

impl Walk {
    /// A walk over a problem's variables.
    ///
    /// # Errors
    /// Out of memory.
    pub fn new(alloc: Global, problem: &Problem) -> Result<Walk, AllocError> {
        Ok(Walk {
            alloc,
            supports: Supports::new(alloc, problem)?,
            wanted: vec![in alloc; false; problem.costs.len()]?,
            all: Vec::new(alloc),
            waiting: Vec::new(alloc),
        })
    }

    // Whether a variable is wanted already; one that isn't the problem's always is.
    fn is_wanted(&self, variable: u32) -> bool {
        self.wanted.get(variable as usize).copied().unwrap_or(true)
    }

    fn want(&mut self, variable: u32) -> Result<(), AllocError> {
        let Some(wanted) = self.wanted.get_mut(variable as usize) else {
            return Ok(());
        };
        if *wanted {
            return Ok(());
        }
        *wanted = true;
        self.all.push(variable)?;
        self.waiting.push(variable)?;
        Ok(())
    }

    // Of a clause's true variables one that is wanted already, else the cheapest, the first of these.
    fn cheapest(&self, clause: &[Literal], problem: &Problem, solver: &Solver) -> Option<u32> {
        let mut best = None;
        let mut least = 0;
        for literal in clause {
            if !literal.is_positive() || solver.value(*literal) != Value::True {
                continue;
            }
            let variable = literal.variable();
            if self.is_wanted(variable) {
                return Some(variable);
            }
            let cost = problem.cost_of(variable);
            if best.is_none() || cost < least {
                best = Some(variable);
                least = cost;
            }
        }
        best
    }

    // Wants one support for each support clause of a variable.
    fn want_supports(
        &mut self,
        variable: u32,
        problem: &Problem,
        solver: &Solver,
    ) -> Result<(), AllocError> {
        for at in 0..self.supports.of(variable).len() {
            let Some(number) = self.supports.of(variable).get(at).copied() else {
                break;
            };
            let found = self.cheapest(problem.clause(number), problem, solver);
            if let Some(needed) = found {
                self.want(needed)?;
            }
        }
        Ok(())
    }

    // Nothing is wanted any more.
    fn clear(&mut self) {
        for variable in &self.all {
            if let Some(wanted) = self.wanted.get_mut(*variable as usize) {
                *wanted = false;
            }
        }
        self.all.clear();
        self.waiting.clear();
    }

    // Walks back from what is wanted: adds the rails of latches to `latches`, and writes the inputs into `vector`.
    fn follow(
        &mut self,
        problem: &Problem,
        solver: &Solver,
        latches: &mut Vec<u32>,
        vector: &mut Vec<bool>,
    ) -> Result<(), AllocError> {
        // a variable waits once at most
        for _ in 0..problem.costs.len() {
            let Some(variable) = self.waiting.pop() else {
                break;
            };
            if let Some(bit) = problem.input_of(variable) {
                if let Some(value) = vector.get_mut(bit.input as usize) {
                    *value = bit.value;
                }
            } else if problem.next_of(variable).is_some() {
                latches.push(variable)?;
            } else {
                self.want_supports(variable, problem, solver)?;
            }
        }
        Ok(())
    }

    /// What targets that are true in a solver's solution need of the latches and the inputs.
    ///
    /// # Errors
    /// Out of memory.
    pub fn back(
        &mut self,
        problem: &Problem,
        solver: &Solver,
        targets: &[u32],
    ) -> Result<Predecessor, AllocError> {
        let mut vector = vec![in self.alloc; false; problem.width]?;
        let mut latches = Vec::new(self.alloc);
        for target in targets {
            self.want(*target)?;
        }
        self.follow(problem, solver, &mut latches, &mut vector)?;
        self.clear();
        Ok(Predecessor {
            cube: Cube::new(latches),
            vector,
        })
    }
}
