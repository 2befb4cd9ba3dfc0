//! Whether a frame leads to a cube.
ghost use Rattle.std.specs.Prelude.{◌≡◌};
ghost use Rattle.ht_solver.specs.Efforts.{IsNoMore};

use crate::base::push_variable;
use crate::cube::Cube;
use crate::frame::Excluded;
use crate::predecessor::Predecessor;
use crate::problem::{Problem, Source};
use crate::question::{charge, push_positive};
use crate::search::Search;
use ht_solver::{Answer, Literal};
use std::alloc::{AllocError, Global};

/// What a frame says of a cube.
#[derive(Drop)]
pub enum Reach {
    /// This leads to it.
    From(Predecessor),
    /// Nothing in the frame leads to this part of it, which the start hasn't.
    Never(Cube),
    /// The budget is spent, or the frames have no room for a variable.
    GivenUp,
}

// A rail of a cube that never holds after a frame.
fn never_rail(problem: &Problem, cube: &Cube) -> Option<u32> {
    for variable in cube.variables() {
        if problem.next_of(*variable) == Some(Source::Never) {
            return Some(*variable);
        }
    }
    None
}

// The variables that make the rails of a cube hold in the next frame.
fn sources(alloc: Global, problem: &Problem, cube: &Cube) -> Result<Vec<u32>, AllocError> {
    let mut sources = Vec::with_capacity(alloc, cube.variables().len())?;
    for variable in cube.variables() {
        if let Some(source) = problem.next_of(*variable) {
            push_variable(&mut sources, source)?;
        }
    }
    Ok(sources)
}

fn is_marked(marks: &[bool], variable: u32) -> bool {
    marks.get(variable as usize).copied().unwrap_or(false)
}

fn mark_core(marks: &mut Vec<bool>, core: &[Literal], value: bool) {
    for literal in core {
        if let Some(mark) = marks.get_mut(literal.variable() as usize) {
            *mark = value;
        }
    }
}

// The rails of a cube whose sources are marked.
fn marked_rails(
    alloc: Global,
    problem: &Problem,
    cube: &Cube,
    marks: &[bool],
) -> Result<Vec<u32>, AllocError> {
    let mut rails = Vec::new(alloc);
    for variable in cube.variables() {
        if let Some(Source::Variable(source)) = problem.next_of(*variable)
            && is_marked(marks, source)
        {
            rails.push(*variable)?;
        }
    }
    Ok(rails)
}

// The part of a cube that a rail that never holds makes: that rail alone, unless the start has it.
fn never_part(
    alloc: Global,
    problem: &Problem,
    cube: &Cube,
    variable: u32,
) -> Result<Cube, AllocError> {
    if problem.is_initial(variable) {
        return cube.clone();
    }
    Ok(Cube::new(Vec::from_slice(alloc, &[variable])?))
}

impl Search<'_> {
    // The part of a cube that a core forbids: the rails whose sources are in it. Where the start has all of these, one more
    // that it hasn't.
    fn part(&mut self, cube: &Cube, core: &[Literal]) -> Result<Cube, AllocError>
        ensures { self.new.left ≡ self.old.left }
    {
        mark_core(&mut self.marks, core, true);
        let mut rails = marked_rails(self.alloc, self.problem, cube, &self.marks)?;
        mark_core(&mut self.marks, core, false);
        let problem = self.problem;
        if rails.iter().all(|variable| problem.is_initial(*variable))
            && let Some(other) = cube
                .variables()
                .iter()
                .find(|variable| !problem.is_initial(**variable))
        {
            rails.push(*other)?;
        }
        Ok(Cube::new(rails))
    }

    fn exclude(&mut self, frame: usize, cube: &Cube) -> Result<Option<Excluded>, AllocError>
        ensures { self.new.left ≡ self.old.left }
    {
        match self.frames.get_mut(frame) {
            None => Ok(None),
            Some(frame) => frame.exclude(self.alloc, cube),
        }
    }

    fn release(&mut self, frame: usize, excluded: Excluded) -> Result<(), AllocError>
        ensures { self.new.left ≡ self.old.left }
    {
        match self.frames.get_mut(frame) {
            None => Ok(()),
            Some(frame) => frame.release(excluded),
        }
    }

    // Asks a frame for a solution in which the sources of a cube are true.
    fn ask_sources(
        &mut self,
        cube: &Cube,
        frame: usize,
        excluded: Option<Excluded>,
    ) -> Result<Reach, AllocError>
        ensures { IsNoMore self.new.left self.old.left }
    {
        let targets = sources(self.alloc, self.problem, cube)?;
        let mut assumptions = Vec::new(self.alloc);
        if let Some(excluded) = excluded {
            assumptions.push(excluded.literal)?;
        }
        push_positive(&mut assumptions, &targets)?;
        match self.ask(frame, &assumptions)? {
            Answer::Satisfiable => Ok(Reach::From(self.walk_back(frame, &targets)?)),
            Answer::Unsatisfiable(core) => Ok(Reach::Never(self.part(cube, &core)?)),
            Answer::GivenUp => Ok(Reach::GivenUp),
        }
    }

    /// Whether a frame leads to a cube in one vector; where `excludes`, from a state that hasn't the cube itself: what holds
    /// by induction may be forbidden.
    ///
    /// # Errors
    /// Out of memory.
    pub fn reach(&mut self, cube: &Cube, frame: usize, excludes: bool) -> Result<Reach, AllocError>
        ensures { IsNoMore self.new.left self.old.left }
    {
        if let Some(variable) = never_rail(self.problem, cube) {
            charge(&mut self.left);
            let part = never_part(self.alloc, self.problem, cube, variable)?;
            return Ok(Reach::Never(part));
        }
        let excluded = if excludes && frame > 0 {
            if !self.held.add(1) {
                return Ok(Reach::GivenUp);
            }
            self.exclude(frame, cube)?
        } else {
            None
        };
        let reach = self.ask_sources(cube, frame, excluded)?;
        if let Some(excluded) = excluded {
            self.release(frame, excluded)?;
        }
        Ok(reach)
    }
}
