//! What is searched: one frame as clauses, latches, inputs and differences.
use ht_solver::Literal;
use std::alloc::{AllocError, Global};

/// What makes a rail of a latch hold in the next frame, or a side of a difference show.
#[derive(Clone, Copy, PartialEq, Eq)]
pub enum Source {
    /// Nothing does.
    Never,
    /// It always does, in each frame.
    Always,
    /// It does where this variable is true in the frame.
    Variable(u32),
}

/// An input and its bit.
#[derive(Clone, Copy)]
pub struct InputBit {
    /// The input, from 0.
    pub input: u32,
    /// The bit.
    pub value: bool,
}

/// Two sources that show a difference at an output where both are true in one frame.
#[derive(Clone, Copy)]
pub struct Difference {
    /// The one of the good machine.
    pub good: Source,
    /// The one of the faulty machine.
    pub faulty: Source,
}

/// One frame, as data. A variable is a rail: it is true where a line of one of the machines definitely holds a value. All
/// lists by variable have one entry for each variable, counted from 0; a list that is shorter has the harmless entry
/// there (cost 0, no latch, no input, not in the start).
#[derive(Drop)]
pub struct Problem {
    /// By variable: what it costs to make it true. Inputs cost little, latches much. Its length is how many variables
    /// there are.
    pub costs: Vec<u32>,
    /// The clauses of a frame. One with a single negative literal and others, `-y, x1, .., xk`, says what supports y:
    /// where y is true some xi is. Variables that no clause makes true may stay false.
    pub clauses: Vec<Vec<Literal>>,
    /// By variable: where it is a rail of a latch, what makes it hold in the next frame; else none.
    pub next: Vec<Option<Source>>,
    /// By variable: the input whose bit it says, if it is a rail of an input.
    pub inputs: Vec<Option<InputBit>>,
    /// How an output may show a difference.
    pub differences: Vec<Difference>,
    /// By variable: whether it is a rail that a latch has at the start.
    pub initial: Vec<bool>,
    /// How many inputs there are: the width of a vector.
    pub width: usize,
}

impl Problem {
    /// A problem with no variable, no clause and no difference, and vectors of this width.
    pub fn new(alloc: Global, width: usize) -> Problem {
        Problem {
            costs: Vec::new(alloc),
            clauses: Vec::new(alloc),
            next: Vec::new(alloc),
            inputs: Vec::new(alloc),
            differences: Vec::new(alloc),
            initial: Vec::new(alloc),
            width,
        }
    }

    /// Adds the next variable: at first it is a rail of neither a latch nor an input.
    ///
    /// # Errors
    /// Out of memory.
    pub fn add_variable(&mut self, cost: u32) -> Result<(), AllocError> {
        self.costs.push(cost)?;
        self.next.push(None)?;
        self.inputs.push(None)?;
        self.initial.push(false)?;
        Ok(())
    }

    /// Whether the start has this rail.
    pub fn is_initial(&self, variable: u32) -> bool {
        self.initial
            .get(variable as usize)
            .copied()
            .unwrap_or(false)
    }

    /// What makes this rail of a latch hold in the next frame.
    pub fn next_of(&self, variable: u32) -> Option<Source> {
        self.next.get(variable as usize).copied().flatten()
    }

    /// The input whose bit this variable says.
    pub fn input_of(&self, variable: u32) -> Option<InputBit> {
        self.inputs.get(variable as usize).copied().flatten()
    }

    /// What this variable costs.
    pub fn cost_of(&self, variable: u32) -> u32 {
        self.costs.get(variable as usize).copied().unwrap_or(0)
    }

    /// A clause, by its number from 0; one with no literal where there is none.
    pub fn clause(&self, number: u32) -> &[Literal] {
        match self.clauses.get(number as usize) {
            Some(clause) => clause,
            None => &[],
        }
    }
}
