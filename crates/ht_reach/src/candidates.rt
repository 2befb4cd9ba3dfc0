//! Cubes of earlier faults: the greatest part of them that no vector leads out of.
ghost use Rattle.ht_solver.specs.Efforts.{IsNoMore};

use crate::base::{Base, push_variable};
use crate::cube::Cube;
use crate::frame::excluding;
use crate::problem::{Problem, Source};
use crate::question::{add_literal, ask, charge, is_spent, push_positive};
use crate::search::is_start;
use ht_solver::{Answer, Effort, Literal, Solver};
use std::alloc::{AllocError, Global};

// A question about a candidate takes no more conflicts.
const MAX_CONFLICTS: u64 = 2000;

// A cube on trial.
#[derive(Drop)]
struct Candidate {
    cube: Cube,
    // assumed, it forbids the cube
    guard: Literal,
    // it still stands
    stands: bool,
    // it waits to be looked at
    waits: bool,
    // the candidates on which it stands, as last seen
    core: Vec<usize>,
}

/// Candidates on trial, in a solver of their own. A candidate stands where one vector, from a state that has none of those
/// that stand, doesn't lead to it.
#[derive(Drop)]
pub struct Candidates {
    alloc: Global,
    solver: Solver,
    candidates: Vec<Candidate>,
    // those that are to be looked at
    waiting: Vec<usize>,
    // by variable of the solver, from the first guard on
    first: u32,
}

impl Candidates {
    /// The cubes of a pool that the start hasn't.
    ///
    /// # Errors
    /// Out of memory.
    pub fn new(
        alloc: Global,
        base: &Base,
        problem: &Problem,
        pool: &[Cube],
    ) -> Result<Candidates, AllocError> {
        let solver = base.solver.clone()?;
        let first = u32::try_from(solver.variables()).unwrap_or(u32::MAX);
        let mut candidates = Candidates {
            alloc,
            solver,
            candidates: Vec::new(alloc),
            waiting: Vec::new(alloc),
            first,
        };
        for cube in pool {
            if !is_start(problem, cube) {
                candidates.add(cube)?;
            }
        }
        Ok(candidates)
    }

    fn add(&mut self, cube: &Cube) -> Result<(), AllocError> {
        let Some(guard) = add_literal(&mut self.solver)? else {
            return Ok(());
        };
        let clause = excluding(self.alloc, cube, Some(guard))?;
        self.solver.add_clause(&clause)?;
        self.waiting.push(self.candidates.len())?;
        self.candidates.push(Candidate {
            cube: cube.clone()?,
            guard,
            stands: true,
            waits: true,
            core: Vec::new(self.alloc),
        })?;
        Ok(())
    }

    /// Whether there is none.
    pub fn is_empty(&self) -> bool {
        self.candidates.is_empty()
    }

    // Asks for a solution in which all that stand are forbidden.
    fn ask(
        &mut self,
        targets: &[Literal],
        most_conflicts: u64,
        left: &mut Effort,
    ) -> Result<Answer, AllocError>
        ensures { IsNoMore left.new left.old }
    {
        let mut assumptions = Vec::new(self.alloc);
        for candidate in &self.candidates {
            if candidate.stands {
                assumptions.push(candidate.guard)?;
            }
        }
        assumptions.extend_from_slice(targets)?;
        ask(&mut self.solver, &assumptions, most_conflicts, left)
    }

    // The candidates in a core.
    fn in_core(&self, core: &[Literal]) -> Result<Vec<usize>, AllocError> {
        let mut found = Vec::new(self.alloc);
        for literal in core {
            if let Some(at) = literal.variable().checked_sub(self.first)
                && (at as usize) < self.candidates.len()
            {
                found.push(at as usize)?;
            }
        }
        Ok(found)
    }

    // The next candidate to be looked at.
    fn take(&mut self) -> Option<usize> {
        let at = self.waiting.pop()?;
        if let Some(candidate) = self.candidates.get_mut(at) {
            candidate.waits = false;
        }
        Some(at)
    }

    fn set_core(&mut self, at: usize, core: Vec<usize>) {
        if let Some(candidate) = self.candidates.get_mut(at) {
            candidate.core = core;
        }
    }

    // A candidate doesn't stand: those that stood on it are looked at again.
    fn refuse(&mut self, at: usize) -> Result<(), AllocError> {
        if let Some(candidate) = self.candidates.get_mut(at) {
            candidate.stands = false;
        }
        for other in 0..self.candidates.len() {
            if let Some(candidate) = self.candidates.get_mut(other)
                && candidate.stands
                && !candidate.waits
                && candidate.core.contains(&at)
            {
                candidate.waits = true;
                self.waiting.push(other)?;
            }
        }
        Ok(())
    }

    // What leads to a candidate in one vector; none where nothing does.
    fn targets(&self, problem: &Problem, at: usize) -> Result<Option<Vec<Literal>>, AllocError> {
        let mut sources = Vec::new(self.alloc);
        if let Some(candidate) = self.candidates.get(at) {
            for variable in candidate.cube.variables() {
                match problem.next_of(*variable) {
                    None => {}
                    Some(Source::Never) => return Ok(None),
                    Some(source) => push_variable(&mut sources, source)?,
                }
            }
        }
        let mut targets = Vec::new(self.alloc);
        push_positive(&mut targets, &sources)?;
        Ok(Some(targets))
    }

    // Looks whether a candidate stands.
    fn look_at(&mut self, problem: &Problem, at: usize, left: &mut Effort) -> Result<(), AllocError>
        ensures { IsNoMore left.new left.old }
    {
        let Some(targets) = self.targets(problem, at)? else {
            charge(left);
            return Ok(());
        };
        match self.ask(&targets, MAX_CONFLICTS, left)? {
            Answer::Unsatisfiable(core) => {
                let core = self.in_core(&core)?;
                self.set_core(at, core);
                Ok(())
            }
            _ => self.refuse(at),
        }
    }

    /// Looks at each candidate until all that are left stand. False where the budget is spent before.
    ///
    /// # Errors
    /// Out of memory.
    pub fn settle(&mut self, problem: &Problem, left: &mut Effort) -> Result<bool, AllocError>
        ensures { IsNoMore left.new left.old }
    {
        // In fact it ends since a candidate is looked at again only when another one fell.
        for _ in 0..u64::MAX {
            let Some(at) = self.take() else {
                return Ok(true);
            };
            if is_spent(*left) {
                return Ok(false);
            }
            let stands = match self.candidates.get(at) {
                Some(candidate) => candidate.stands,
                None => false,
            };
            if stands {
                self.look_at(problem, at, left)?;
            }
        }
        Ok(false)
    }

    // By candidate: whether it is one of these, or one on which they stand.
    fn closure(&self, core: Vec<usize>) -> Result<Vec<bool>, AllocError> {
        let mut inside = vec![in self.alloc; false; self.candidates.len()]?;
        let mut waiting = core;
        // In fact it ends since each candidate adds its own core once.
        for _ in 0..u64::MAX {
            let Some(at) = waiting.pop() else {
                break;
            };
            let Some(mark) = inside.get_mut(at) else {
                continue;
            };
            if *mark {
                continue;
            }
            *mark = true;
            if let Some(candidate) = self.candidates.get(at) {
                waiting.extend_from_slice(&candidate.core)?;
            }
        }
        Ok(inside)
    }

    /// Cubes that stand and leave no output to differ, if those that stand do.
    ///
    /// # Errors
    /// Out of memory.
    pub fn refuting(
        &mut self,
        differs: Literal,
        left: &mut Effort,
    ) -> Result<Option<Vec<Cube>>, AllocError>
        ensures { IsNoMore left.new left.old }
    {
        let Answer::Unsatisfiable(core) = self.ask(&[differs], u64::MAX, left)? else {
            return Ok(None);
        };
        let core = self.in_core(&core)?;
        let inside = self.closure(core)?;
        let mut cubes = Vec::new(self.alloc);
        for (candidate, is_inside) in self.candidates.iter().zip(&inside) {
            if *is_inside {
                cubes.push(candidate.cube.clone()?)?;
            }
        }
        Ok(Some(cubes))
    }

    /// The cubes that stand.
    ///
    /// # Errors
    /// Out of memory.
    pub fn standing(&self) -> Result<Vec<Cube>, AllocError> {
        let mut cubes = Vec::new(self.alloc);
        for candidate in &self.candidates {
            if candidate.stands {
                cubes.push(candidate.cube.clone()?)?;
            }
        }
        Ok(cubes)
    }
}
