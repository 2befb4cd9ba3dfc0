//! Faults in one frame, as others ask about them.
ghost use Rattle.std.specs.Prelude.{◌≡◌, ◌≤◌, IfOk};
ghost use Rattle.ht_solver.specs.Efforts.{IsNoMore};

use crate::clauses::Frame;
use crate::patterns::Patterns;
use crate::rails::{Rails, Stuck};
use ht_net::{Circuit, Fault};
use ht_solver::{Answer, Effort, Literal, Solver};
use ht_wiring::{Cone, Line, Wiring};
use std::alloc::{AllocError, Global};

/// What is said of a fault in one frame from a state that both machines have in common.
#[derive(Clone, Copy, PartialEq, Eq, Debug)]
pub enum Shown {
    /// No vector shows a difference at an output or a data pin.
    Never,
    /// Some vector does.
    Somewhere,
    /// The budget is spent, or the solver is full.
    Open,
}

/// The frames of faults of a circuit.
#[derive(Drop)]
pub struct OneFrames {
    alloc: Global,
    wiring: Wiring,
    patterns: Patterns,
    cone: Cone,
    rails: Rails,
}

// The net at which a line has its value in the good machine.
fn read_net(wiring: &Wiring, line: Line) -> u32 {
    match line {
        Line::Net(net) => net,
        Line::Data { dff } => wiring.data(dff),
        Line::Pin { net, pin } => match wiring.gate(net) {
            Some(gate) => match wiring.pins(gate).get(pin) {
                Some(read) => *read,
                None => u32::MAX,
            },
            None => u32::MAX,
        },
    }
}

// Asks a solver whether these can be true, within a budget, and says what was spent.
fn ask_solver(
    alloc: Global,
    solver: &mut Solver,
    literals: &[Option<Literal>],
    most: Effort,
) -> Result<(Shown, Effort), AllocError>
    ensures { IfOk result (λ asked. IsNoMore asked.1 most) }
{
    let mut assumptions = Vec::new(alloc);
    for literal in literals {
        match literal {
            Some(literal) => assumptions.push(*literal)?,
            None => {
                let none = Effort {
                    conflicts: 0,
                    propagations: 0,
                };
                return Ok((Shown::Open, none));
            }
        }
    }
    let before = solver.spent();
    let shown = match solver.solve(&assumptions, most)? {
        Answer::Satisfiable => Shown::Somewhere,
        Answer::Unsatisfiable(_) => Shown::Never,
        Answer::GivenUp => Shown::Open,
    };
    let after = solver.spent();
    let spent = Effort {
        conflicts: after.conflicts.saturating_sub(before.conflicts),
        propagations: after.propagations.saturating_sub(before.propagations),
    };
    Ok((shown, spent))
}

impl OneFrames {
    /// The frames of a circuit, with no patterns yet.
    ///
    /// # Errors
    /// Out of memory.
    pub fn new(alloc: Global, circuit: &Circuit, seed: u64) -> Result<OneFrames, AllocError> {
        let wiring = Wiring::new(alloc, circuit)?;
        Ok(OneFrames {
            alloc,
            patterns: Patterns::new(alloc, &wiring, seed)?,
            cone: Cone::new(alloc, &wiring)?,
            rails: Rails::new(alloc, &wiring)?,
            wiring,
        })
    }

    /// Draws 64 patterns of inputs and states.
    pub fn draw(&mut self) {
        self.patterns.draw(&self.wiring);
    }

    /// Whether a fault shows in one of the patterns, at an output or a data pin.
    ///
    /// # Errors
    /// Out of memory.
    pub fn shows(&mut self, fault: Fault) -> Result<bool, AllocError> {
        let line = self.wiring.line(fault.site);
        self.patterns.shows(&self.wiring, line, fault.value)
    }

    /// The gates that were evaluated so far, each in 64 patterns.
    pub fn work(&self) -> u64 {
        self.patterns.work
    }

    // The outputs and the nets at data pins among the cone.
    fn ends(&self) -> Result<Vec<u32>, AllocError> {
        let mut ends = Vec::new(self.alloc);
        for net in self.cone.nets() {
            if self.wiring.is_output(*net) || !self.wiring.latches(*net).is_empty() {
                ends.push(*net)?;
            }
        }
        Ok(ends)
    }

    // Says the frame of a fault as clauses: the literals that are true where it shows.
    fn literals(
        &mut self,
        solver: &mut Solver,
        stuck: Stuck,
        ends: &[u32],
    ) -> Result<[Option<Literal>; 2], AllocError> {
        let site = read_net(&self.wiring, stuck.line);
        self.rails.clear();
        self.rails.add_nets(solver, &self.cone, &[site])?;
        self.rails.add_nets(solver, &self.cone, ends)?;
        self.rails.add_read(solver, &self.wiring, &self.cone)?;
        let frame = Frame {
            alloc: self.alloc,
            wiring: &self.wiring,
            cone: &self.cone,
            rails: &self.rails,
            stuck,
        };
        frame.add_nets(solver)?;
        let opposite = frame.has_value(site, !stuck.value);
        match stuck.line {
            Line::Data { .. } => Ok([opposite, opposite]),
            Line::Net(_) | Line::Pin { .. } => {
                Ok([frame.add_differences(solver, ends)?, opposite])
            }
        }
    }

    /// Asks a solver for a vector and a common state that show a fault, within a budget. What it says, and what it spent.
    ///
    /// # Errors
    /// Out of memory.
    pub fn ask(&mut self, fault: Fault, most: Effort) -> Result<(Shown, Effort), AllocError>
        ensures { IfOk result (λ asked. IsNoMore asked.1 most) }
    {
        let line = self.wiring.line(fault.site);
        self.cone.find(&self.wiring, line, false)?;
        let ends = self.ends()?;
        let mut solver = Solver::new(self.alloc, false);
        let stuck = Stuck {
            line,
            value: fault.value,
        };
        let literals = self.literals(&mut solver, stuck, &ends)?;
        ask_solver(self.alloc, &mut solver, &literals, most)
    }
}
