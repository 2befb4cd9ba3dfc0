//! Rails of nets, as variables of a solver.
use ht_solver::{Literal, Solver};
use ht_wiring::{Cone, Line, Wiring};
use std::alloc::{AllocError, Global};

/// What a line's value is: never so, always, or where a variable is true.
#[derive(Clone, Copy, PartialEq, Eq, Debug)]
pub enum Rail {
    Never,
    Always,
    Variable(u32),
}

// No rails are known of a net.
const UNKNOWN: u32 = u32::MAX;

/// The first of the two rails of each net, for 0 and then for 1, of the good and of the faulty machine.
#[derive(Drop)]
pub struct Rails {
    good: Vec<u32>,
    faulty: Vec<u32>,
    /// The nets that have rails of the good machine, each once.
    pub nets: Vec<u32>,
}

impl Rails {
    /// No net has rails.
    ///
    /// # Errors
    /// Out of memory.
    pub fn new(alloc: Global, wiring: &Wiring) -> Result<Rails, AllocError> {
        Ok(Rails {
            good: vec![in alloc; UNKNOWN; wiring.nets()]?,
            faulty: vec![in alloc; UNKNOWN; wiring.nets()]?,
            nets: Vec::new(alloc),
        })
    }

    /// Forgets all rails.
    pub fn clear(&mut self) {
        for net in &self.nets {
            if let Some(first) = self.good.get_mut(*net as usize) {
                *first = UNKNOWN;
            }
            if let Some(first) = self.faulty.get_mut(*net as usize) {
                *first = UNKNOWN;
            }
        }
        self.nets.clear();
    }

    // Gives a net its rails if it has none yet, in the cone those of both machines.
    fn add(&mut self, solver: &mut Solver, cone: &Cone, net: u32) -> Result<(), AllocError> {
        let Some(first) = self.good.get_mut(net as usize) else {
            return Ok(());
        };
        if *first != UNKNOWN {
            return Ok(());
        }
        *first = add_pair(solver)?;
        self.nets.push(net)?;
        if cone.has(net)
            && let Some(first) = self.faulty.get_mut(net as usize)
        {
            *first = add_pair(solver)?;
        }
        Ok(())
    }

    // Gives rails to the nets at the pins of the gate that drives a net.
    fn add_pins(
        &mut self,
        solver: &mut Solver,
        wiring: &Wiring,
        cone: &Cone,
        net: u32,
    ) -> Result<(), AllocError> {
        if let Some(gate) = wiring.gate(net) {
            for read in wiring.pins(gate) {
                self.add(solver, cone, *read)?;
            }
        }
        Ok(())
    }

    /// Gives rails to nets.
    ///
    /// # Errors
    /// Out of memory.
    pub fn add_nets(
        &mut self,
        solver: &mut Solver,
        cone: &Cone,
        nets: &[u32],
    ) -> Result<(), AllocError> {
        for net in nets {
            self.add(solver, cone, *net)?;
        }
        Ok(())
    }

    /// Gives rails to all that nets with rails read in one frame.
    ///
    /// # Errors
    /// Out of memory.
    pub fn add_read(
        &mut self,
        solver: &mut Solver,
        wiring: &Wiring,
        cone: &Cone,
    ) -> Result<(), AllocError> {
        for at in 0..wiring.nets() {
            let Some(net) = self.nets.get(at) else {
                break;
            };
            let net = *net;
            self.add_pins(solver, wiring, cone, net)?;
        }
        Ok(())
    }

    // The first rail of a net, in the faulty machine or in the good one; outside the cone they are the same.
    fn first(&self, faulty: bool, net: u32) -> u32 {
        if faulty
            && let Some(first) = self.faulty.get(net as usize)
            && *first != UNKNOWN
        {
            return *first;
        }
        match self.good.get(net as usize) {
            Some(first) => *first,
            None => UNKNOWN,
        }
    }

    /// The rail of a net for a value.
    pub fn of(&self, faulty: bool, net: u32, value: bool) -> Rail {
        let first = self.first(faulty, net);
        if first == UNKNOWN {
            return Rail::Never;
        }
        let side = if value { 1 } else { 0 };
        Rail::Variable(first.saturating_add(side))
    }
}

// Adds the two rails of a net to a solver. The first of them.
fn add_pair(solver: &mut Solver) -> Result<u32, AllocError> {
    let first = u32::try_from(solver.variables()).unwrap_or(UNKNOWN);
    solver.add_variable(1)?;
    solver.add_variable(1)?;
    Ok(first)
}

/// A variable more, if the solver has room.
///
/// # Errors
/// Out of memory.
pub fn new_literal(solver: &mut Solver) -> Result<Option<Literal>, AllocError> {
    let variable = u32::try_from(solver.variables()).unwrap_or(UNKNOWN);
    solver.add_variable(1)?;
    Ok(Literal::new(variable, true))
}

/// A stuck line of the faulty machine.
#[derive(Clone, Copy)]
pub struct Stuck {
    pub line: Line,
    pub value: bool,
}

impl Stuck {
    /// The rail of a line that is stuck, or another one.
    pub fn rail(self, faulty: bool, line: Line, value: bool, other: Rail) -> Rail {
        if !faulty || self.line != line {
            return other;
        }
        if value == self.value {
            Rail::Always
        } else {
            Rail::Never
        }
    }
}
