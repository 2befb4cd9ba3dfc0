//! The parts of a search, and its frames.
ghost use Rattle.std.specs.Prelude.{◌≡◌, IfOk};
ghost use Rattle.ht_solver.specs.Efforts.{IsNoMore};

use crate::base::Base;
use crate::cube::Cube;
use crate::frame::Frame;
use crate::predecessor::{Predecessor, Walk};
use crate::problem::Problem;
use crate::question::{ask, charge_copy, is_spent};
use crate::room::FrameVariables;
use ht_solver::{Answer, Effort, Literal, Solver};
use std::alloc::{AllocError, Global};

/// A search. Frame 0 is the start, and frame k has at least each state that k vectors lead to from it.
#[derive(Drop)]
pub struct Search<'a> {
    pub alloc: Global,
    pub problem: &'a Problem,
    pub base: Base,
    pub frames: Vec<Frame>,
    /// What all frames have of variables.
    pub held: FrameVariables,
    /// Cubes of earlier faults that no vector ever leads to: they are forbidden in every frame.
    pub known: Vec<Cube>,
    pub walk: Walk,
    /// By variable: room for a core.
    pub marks: Vec<bool>,
    pub left: Effort,
}

impl<'a> Search<'a> {
    /// A search with no frame, within this effort.
    ///
    /// # Errors
    /// Out of memory.
    pub fn new(
        alloc: Global,
        problem: &'a Problem,
        budget: Effort,
    ) -> Result<Search<'a>, AllocError>
        ensures { IfOk result (λ search. IsNoMore search.left budget) }
    {
        let mut left = budget;
        let mut base = Base::new(alloc, problem)?;
        base.propagate(&mut left)?;
        Ok(Search {
            alloc,
            problem,
            base,
            frames: Vec::new(alloc),
            held: FrameVariables::new(),
            known: Vec::new(alloc),
            walk: Walk::new(alloc, problem)?,
            marks: vec![in alloc; false; problem.costs.len()]?,
            left,
        })
    }

    /// Adds a frame after the last, at the price of a copy of the base. False where nothing is left then, or the frames
    /// would have too many variables.
    ///
    /// # Errors
    /// Out of memory.
    pub fn add_frame(&mut self) -> Result<bool, AllocError>
        ensures { IsNoMore self.new.left self.old.left }
    {
        charge_copy(self.base.clauses, &mut self.left);
        if is_spent(self.left) || !self.held.add(self.base.solver.variables()) {
            return Ok(false);
        }
        let frame = Frame::new(self.alloc, &self.base.solver)?;
        self.frames.push(frame)?;
        Ok(true)
    }

    /// Adds frame 0: a rail that no latch has at the start is false there. False as for any other frame.
    ///
    /// # Errors
    /// Out of memory.
    pub fn add_start(&mut self) -> Result<bool, AllocError>
        ensures { IsNoMore self.new.left self.old.left }
    {
        if !self.add_frame()? {
            return Ok(false);
        }
        if let Some(frame) = self.frames.get_mut(0) {
            forbid_rest(self.problem, &mut frame.solver)?;
        }
        Ok(true)
    }

    /// The last frame.
    pub fn last(&self) -> usize {
        self.frames.len().saturating_sub(1)
    }

    /// Whether the start has each rail of a cube.
    pub fn is_start(&self, cube: &Cube) -> bool {
        is_start(self.problem, cube)
    }

    /// Asks the solver of a frame.
    ///
    /// # Errors
    /// Out of memory.
    pub fn ask(&mut self, frame: usize, assumptions: &[Literal]) -> Result<Answer, AllocError>
        ensures { IsNoMore self.new.left self.old.left }
    {
        match self.frames.get_mut(frame) {
            None => Ok(Answer::GivenUp),
            Some(frame) => ask(&mut frame.solver, assumptions, u64::MAX, &mut self.left),
        }
    }

    /// What targets need that are true in the solution of a frame's solver.
    ///
    /// # Errors
    /// Out of memory.
    pub fn walk_back(&mut self, frame: usize, targets: &[u32]) -> Result<Predecessor, AllocError>
        ensures { self.new.left ≡ self.old.left }
    {
        match self.frames.get(frame) {
            Some(frame) => self.walk.back(self.problem, &frame.solver, targets),
            None => Ok(Predecessor {
                cube: Cube::new(Vec::new(self.alloc)),
                vector: Vec::new(self.alloc),
            }),
        }
    }
}

/// Whether the start has each rail of a cube.
pub fn is_start(problem: &Problem, cube: &Cube) -> bool {
    cube.variables()
        .iter()
        .all(|variable| problem.is_initial(*variable))
}

// Says of each rail of a latch that the start hasn't that it is false.
fn forbid_rest(problem: &Problem, solver: &mut Solver) -> Result<(), AllocError> {
    for at in 0..problem.next.len() {
        let Ok(variable) = u32::try_from(at) else {
            break;
        };
        if problem.next_of(variable).is_some()
            && !problem.is_initial(variable)
            && let Some(literal) = Literal::new(variable, false)
        {
            solver.add_clause(&[literal])?;
        }
    }
    Ok(())
}
