//! What some number of vectors may lead to, at most (Bradley 2011, SAT-Based Model Checking without Unrolling).
use crate::cube::Cube;
use crate::question::{add_literal, push_negative};
use ht_solver::{ClauseRef, Literal, Solver};
use std::alloc::{AllocError, Global};

/// A frame: a solver in which all its cubes are forbidden, and those of its cubes that no later frame has.
#[derive(Drop)]
pub struct Frame {
    pub solver: Solver,
    pub cubes: Vec<Cube>,
}

/// A cube that is excluded for one question.
#[derive(Clone, Copy)]
pub struct Excluded {
    /// Assumed, it excludes the cube.
    pub literal: Literal,
    clause: ClauseRef,
}

/// The clause that says that not all rails of a cube hold; where a literal is given, only if that one is true.
///
/// # Errors
/// Out of memory.
pub fn excluding(
    alloc: Global,
    cube: &Cube,
    guard: Option<Literal>,
) -> Result<Vec<Literal>, AllocError> {
    let mut clause = Vec::with_capacity(alloc, cube.variables().len().saturating_add(1))?;
    if let Some(literal) = guard {
        clause.push(literal.opposite())?;
    }
    push_negative(&mut clause, cube.variables())?;
    Ok(clause)
}

impl Frame {
    /// A frame with no cube.
    ///
    /// # Errors
    /// Out of memory.
    pub fn new(alloc: Global, base: &Solver) -> Result<Frame, AllocError> {
        Ok(Frame {
            solver: base.clone()?,
            cubes: Vec::new(alloc),
        })
    }

    /// Forbids a cube for ever.
    ///
    /// # Errors
    /// Out of memory.
    pub fn forbid(&mut self, alloc: Global, cube: &Cube) -> Result<(), AllocError> {
        let clause = excluding(alloc, cube, None)?;
        self.solver.add_clause(&clause)?;
        Ok(())
    }

    /// Excludes a cube for one question. None where the solver is full.
    ///
    /// # Errors
    /// Out of memory.
    pub fn exclude(&mut self, alloc: Global, cube: &Cube) -> Result<Option<Excluded>, AllocError> {
        let Some(literal) = add_literal(&mut self.solver)? else {
            return Ok(None);
        };
        let clause = excluding(alloc, cube, Some(literal))?;
        match self.solver.add_clause(&clause)? {
            None => Ok(None),
            Some(clause) => Ok(Some(Excluded { literal, clause })),
        }
    }

    /// Excludes it no more.
    ///
    /// # Errors
    /// Out of memory.
    pub fn release(&mut self, excluded: Excluded) -> Result<(), AllocError> {
        self.solver.add_clause(&[excluded.literal.opposite()])?;
        self.solver.let_go(excluded.clause);
        Ok(())
    }

    /// Drops the cubes within which another one is: it forbids more.
    pub fn drop_covered(&mut self, part: &Cube) {
        self.cubes.retain(|cube| !part.is_within(cube));
    }

    /// Whether one of its own cubes is within a cube.
    pub fn forbids(&self, cube: &Cube) -> bool {
        self.cubes.iter().any(|part| part.is_within(cube))
    }

    /// Whether a cube is one of its own.
    pub fn has(&self, cube: &Cube) -> bool {
        self.cubes
            .iter()
            .any(|own| own.variables() == cube.variables())
    }
}
