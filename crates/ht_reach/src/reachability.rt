//! The whole search, frame by frame.
ghost use Rattle.std.specs.Prelude.{◌≡◌};
ghost use Rattle.ht_solver.specs.Efforts.{IsNoMore};

use crate::block::Blocked;
use crate::candidates::Candidates;
use crate::cube::Cube;
use crate::problem::Problem;
use crate::question::{charge_copy, is_spent};
use crate::reach::Reach;
use crate::search::Search;
use ht_solver::{Answer, Effort};
use std::alloc::{AllocError, Global};

// No search has more frames.
const MAX_SEARCH_FRAMES: usize = 1000;

/// What a search comes to. None of it is promised to be so: whoever asks judges it.
#[derive(Drop)]
pub enum Reached {
    /// These cubes never come about, and where none does no output differs. There is none where no output can differ at
    /// all.
    Refuted(Vec<Cube>),
    /// These vectors lead from the start to a difference: in order, each with a bit for each input.
    Detected(Vec<Vec<bool>>),
    /// The budget is spent.
    GivenUp,
}

fn push_copies(all: &mut Vec<Cube>, cubes: &[Cube]) -> Result<(), AllocError> {
    for cube in cubes {
        all.push(cube.clone()?)?;
    }
    Ok(())
}

impl Search<'_> {
    // Tries the cubes of a pool: a refutation by them alone where there is one. Else what stands of them is forbidden in
    // every frame.
    fn try_pool(&mut self, pool: &[Cube]) -> Result<Option<Vec<Cube>>, AllocError>
        ensures { IsNoMore self.new.left self.old.left }
    {
        let Some(differs) = self.base.differs else {
            return Ok(None);
        };
        if pool.is_empty() {
            return Ok(None);
        }
        charge_copy(self.base.clauses, &mut self.left);
        if is_spent(self.left) {
            return Ok(None);
        }
        let mut candidates = Candidates::new(self.alloc, &self.base, self.problem, pool)?;
        if candidates.is_empty() || !candidates.settle(self.problem, &mut self.left)? {
            return Ok(None);
        }
        let cubes = candidates.refuting(differs, &mut self.left)?;
        if cubes.is_none() {
            let standing = candidates.standing()?;
            self.forbid_always(standing)?;
        }
        Ok(cubes)
    }

    // Forbids cubes in every frame to come.
    fn forbid_always(&mut self, cubes: Vec<Cube>) -> Result<(), AllocError>
        ensures { self.new.left ≡ self.old.left }
    {
        for cube in &cubes {
            self.base.forbid(self.alloc, cube)?;
        }
        self.known = cubes;
        Ok(())
    }

    // Blocks all that leads to a difference in the last frame.
    fn block_all(&mut self) -> Result<Blocked, AllocError>
        ensures { IsNoMore self.new.left self.old.left }
    {
        let last = self.last();
        let Some(differs) = self.base.differs else {
            return Ok(Blocked::GivenUp);
        };
        // In fact the budget ends it: each pass asks a question.
        for _ in 0..u64::MAX {
            match self.ask(last, &[differs])? {
                Answer::GivenUp => return Ok(Blocked::GivenUp),
                Answer::Unsatisfiable(_) => return Ok(Blocked::Done),
                Answer::Satisfiable => {}
            }
            let targets = self.shown_targets(last)?;
            let from = self.walk_back(last, &targets)?;
            match self.block(from)? {
                Blocked::Done => {}
                ended => return Ok(ended),
            }
        }
        Ok(Blocked::GivenUp)
    }

    // What makes a difference show in the solution of a frame's solver.
    fn shown_targets(&self, frame: usize) -> Result<Vec<u32>, AllocError> {
        match self.frames.get(frame) {
            Some(frame) => self.base.targets(self.alloc, self.problem, &frame.solver),
            None => Ok(Vec::new(self.alloc)),
        }
    }

    // Copies of the cubes of a frame that no later frame has.
    fn cubes_of(&self, frame: usize) -> Result<Vec<Cube>, AllocError> {
        match self.frames.get(frame) {
            Some(frame) => frame.cubes.clone(),
            None => Ok(Vec::new(self.alloc)),
        }
    }

    fn has_cube(&self, frame: usize, cube: &Cube) -> bool {
        match self.frames.get(frame) {
            Some(frame) => frame.has(cube),
            None => false,
        }
    }

    // Forbids the cubes of a frame in the next one too, where the frame doesn't lead to them. False where the budget is
    // spent.
    fn push_on(&mut self, frame: usize) -> Result<bool, AllocError>
        ensures { IsNoMore self.new.left self.old.left }
    {
        let cubes = self.cubes_of(frame)?;
        for cube in &cubes {
            if is_spent(self.left) {
                return Ok(false);
            }
            if self.has_cube(frame, cube)
                && let Reach::Never(part) = self.reach(cube, frame, false)?
            {
                self.forbid(part, frame.saturating_add(1))?;
            }
        }
        Ok(!is_spent(self.left))
    }

    // The cubes of all frames after one, and those that are forbidden in every frame.
    fn cubes_after(&self, frame: usize) -> Result<Vec<Cube>, AllocError> {
        let mut all = self.known.clone()?;
        for later in frame.saturating_add(1)..self.frames.len() {
            if let Some(frame) = self.frames.get(later) {
                push_copies(&mut all, &frame.cubes)?;
            }
        }
        Ok(all)
    }

    // Pushes the cubes of all frames on. Where a frame has none of its own left it is the same as the next one, so no vector
    // leads out of it.
    fn push_all(&mut self) -> Result<Option<Reached>, AllocError>
        ensures { IsNoMore self.new.left self.old.left }
    {
        for frame in 1..self.last() {
            if !self.push_on(frame)? {
                return Ok(Some(Reached::GivenUp));
            }
            let is_closed = match self.frames.get(frame) {
                Some(frame) => frame.cubes.is_empty(),
                None => false,
            };
            if is_closed {
                return Ok(Some(Reached::Refuted(self.cubes_after(frame)?)));
            }
        }
        Ok(None)
    }

    // Searches frame by frame.
    fn run(&mut self, pool: &[Cube]) -> Result<Reached, AllocError>
        ensures { IsNoMore self.new.left self.old.left }
    {
        if let Some(cubes) = self.try_pool(pool)? {
            return Ok(Reached::Refuted(cubes));
        }
        if !self.add_start()? {
            return Ok(Reached::GivenUp);
        }
        for _ in 0..MAX_SEARCH_FRAMES {
            match self.block_all()? {
                Blocked::GivenUp => return Ok(Reached::GivenUp),
                Blocked::Detected(vectors) => return Ok(Reached::Detected(vectors)),
                Blocked::Done => {}
            }
            if !self.add_frame()? {
                return Ok(Reached::GivenUp);
            }
            if let Some(reached) = self.push_all()? {
                return Ok(reached);
            }
        }
        Ok(Reached::GivenUp)
    }
}

/// Looks for vectors that lead from the start to a difference, or for cubes that exclude every difference, by property
/// directed reachability. Cubes of a pool, which earlier faults of the circuit needed, are tried first. It spends no more
/// than what is left, and takes what it spends from it; a question counts one propagation at least, and a clause that is
/// copied for a frame a quarter of one. It gives up before its frames have more than 2^21 variables.
///
/// # Errors
/// Out of memory; what is left is then unchanged.
pub fn decide_reachability(
    alloc: Global,
    problem: &Problem,
    pool: &[Cube],
    left: &mut Effort,
) -> Result<Reached, AllocError>
    ensures { IsNoMore left.new left.old }
{
    if problem.differences.is_empty() {
        return Ok(Reached::Refuted(Vec::new(alloc)));
    }
    let mut search = Search::new(alloc, problem, *left)?;
    let reached = search.run(pool)?;
    *left = search.left;
    Ok(reached)
}
