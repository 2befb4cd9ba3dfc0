//! Blocks cubes: shows frame by frame that nothing leads to them, or finds the vectors that do.
ghost use Rattle.std.specs.Prelude.{◌≡◌};
ghost use Rattle.ht_solver.specs.Efforts.{IsNoMore};

use crate::cube::Cube;
use crate::obligations::{Obligations, Task};
use crate::predecessor::Predecessor;
use crate::question::is_spent;
use crate::reach::Reach;
use crate::search::Search;
use std::alloc::AllocError;

/// How the work on a cube ends.
#[derive(Drop)]
pub enum Blocked {
    /// It is forbidden in its frame.
    Done,
    /// These vectors lead to it from the start, and on to a difference.
    Detected(Vec<Vec<bool>>),
    /// The budget is spent.
    GivenUp,
}

impl Search<'_> {
    // Whether a frame forbids a cube, by a cube of its own or of a later frame.
    fn is_blocked(&self, cube: &Cube, frame: usize) -> bool {
        match self.frames.get(frame..) {
            Some(frames) => frames.iter().any(|frame| frame.forbids(cube)),
            None => false,
        }
    }

    /// Forbids a cube up to a frame.
    ///
    /// # Errors
    /// Out of memory.
    pub fn forbid(&mut self, cube: Cube, upto: usize) -> Result<(), AllocError>
        ensures { self.new.left ≡ self.old.left }
    {
        for at in 1..=upto {
            if let Some(frame) = self.frames.get_mut(at) {
                frame.drop_covered(&cube);
                frame.forbid(self.alloc, &cube)?;
            }
        }
        if let Some(frame) = self.frames.get_mut(upto) {
            frame.cubes.push(cube)?;
        }
        Ok(())
    }

    // The rails of a cube, first those that conflicts of a frame's solver met least.
    fn least_active(&self, cube: &Cube, frame: usize) -> Result<Vec<u32>, AllocError> {
        let mut rails = Vec::from_slice(self.alloc, cube.variables())?;
        if let Some(frame) = self.frames.get(frame) {
            rails.sort_by_key(|variable| frame.solver.activity(*variable))?;
        }
        Ok(rails)
    }

    // A cube without a rail, or what of that suffices, where a frame still doesn't lead to it.
    fn without(
        &mut self,
        cube: &Cube,
        variable: u32,
        frame: usize,
    ) -> Result<Option<Cube>, AllocError>
        ensures { IsNoMore self.new.left self.old.left }
    {
        if !cube.contains(variable) {
            return Ok(None);
        }
        let rest = cube.without(variable)?;
        if self.is_start(&rest) {
            return Ok(None);
        }
        match self.reach(&rest, frame, true)? {
            Reach::Never(part) => Ok(Some(part)),
            _ => Ok(None),
        }
    }

    // Leaves rails out of a cube that a frame doesn't lead to, one after the other, as long as it doesn't: what is smaller
    // forbids more.
    fn generalize(&mut self, cube: Cube, frame: usize) -> Result<Cube, AllocError>
        ensures { IsNoMore self.new.left self.old.left }
    {
        let order = self.least_active(&cube, frame)?;
        let mut cube = cube;
        for variable in &order {
            if cube.variables().len() < 2 || is_spent(self.left) {
                break;
            }
            if let Some(part) = self.without(&cube, *variable, frame)? {
                cube = part;
            }
        }
        Ok(cube)
    }

    // Forbids a cube that the frame before `frame` doesn't lead to, as far up as that holds; the frame after those.
    fn forbid_upward(&mut self, cube: Cube, frame: usize) -> Result<usize, AllocError>
        ensures { IsNoMore self.new.left self.old.left }
    {
        let mut cube = self.generalize(cube, frame.saturating_sub(1))?;
        let mut upto = frame;
        for before in frame..self.last() {
            match self.reach(&cube, before, true)? {
                Reach::Never(part) => cube = part,
                _ => break,
            }
            upto = before.saturating_add(1);
        }
        self.forbid(cube, upto)?;
        Ok(upto.saturating_add(1))
    }

    // Adds a cube that is to be blocked in a frame; the vectors where the start has it.
    fn oblige(
        &self,
        obligations: &mut Obligations,
        from: Predecessor,
        parent: Option<usize>,
        frame: usize,
    ) -> Result<Option<Vec<Vec<bool>>>, AllocError> {
        let is_start = self.is_start(&from.cube);
        let number = obligations.add(from, parent)?;
        if is_start {
            return Ok(Some(obligations.vectors(number)?));
        }
        obligations.put(frame, number)?;
        Ok(None)
    }

    // Puts an obligation off to a frame, unless that is after the last.
    fn put_off(
        &self,
        obligations: &mut Obligations,
        frame: usize,
        obligation: usize,
    ) -> Result<(), AllocError> {
        if frame <= self.last() {
            obligations.put(frame, obligation)?;
        }
        Ok(())
    }

    // One step of blocking; how it ends, if it does.
    fn block_one(
        &mut self,
        obligations: &mut Obligations,
        task: Task,
    ) -> Result<Option<Blocked>, AllocError>
        ensures { IsNoMore self.new.left self.old.left }
    {
        let cube = match obligations.cube(task.obligation) {
            Some(cube) => cube.clone()?,
            None => return Ok(None),
        };
        if self.is_blocked(&cube, task.frame) {
            self.put_off(obligations, task.frame.saturating_add(1), task.obligation)?;
            return Ok(None);
        }
        let before = task.frame.saturating_sub(1);
        match self.reach(&cube, before, true)? {
            Reach::GivenUp => return Ok(Some(Blocked::GivenUp)),
            Reach::From(from) => {
                let vectors = self.oblige(obligations, from, Some(task.obligation), before)?;
                if let Some(vectors) = vectors {
                    return Ok(Some(Blocked::Detected(vectors)));
                }
                obligations.put(task.frame, task.obligation)?;
            }
            Reach::Never(part) => {
                let next = self.forbid_upward(part, task.frame)?;
                self.put_off(obligations, next, task.obligation)?;
            }
        }
        Ok(None)
    }

    /// Blocks a cube of the last frame, and all that leads to it.
    ///
    /// # Errors
    /// Out of memory.
    pub fn block(&mut self, from: Predecessor) -> Result<Blocked, AllocError>
        ensures { IsNoMore self.new.left self.old.left }
    {
        let mut obligations = Obligations::new(self.alloc);
        if let Some(vectors) = self.oblige(&mut obligations, from, None, self.last())? {
            return Ok(Blocked::Detected(vectors));
        }
        // In fact the budget ends it: each pass asks a question, or moves an obligation up a frame.
        for _ in 0..u64::MAX {
            let Some(task) = obligations.take() else {
                return Ok(Blocked::Done);
            };
            if let Some(blocked) = self.block_one(&mut obligations, task)? {
                return Ok(blocked);
            }
        }
        Ok(Blocked::GivenUp)
    }
}
