//! One frame as clauses.
use crate::rails::{Rail, Rails, Stuck, new_literal};
use ht_solver::{Literal, Solver};
use ht_tern::Kind;
use ht_wiring::{Cone, Gate, Line, Wiring};
use std::alloc::{AllocError, Global};

// Gates of parity with more pins have no clauses that tie their value: a pattern may be found that isn't one.
const MAX_PARITY_PINS: usize = 8;

/// The frame of a fault, and its clauses as they are added to a solver.
#[derive(Drop)]
pub struct Frame<'a> {
    pub alloc: Global,
    pub wiring: &'a Wiring,
    pub cone: &'a Cone,
    pub rails: &'a Rails,
    pub stuck: Stuck,
}

// The literal of a rail that is a variable.
fn literal(rail: Rail, positive: bool) -> Option<Literal> {
    match rail {
        Rail::Variable(variable) => Literal::new(variable, positive),
        Rail::Never | Rail::Always => None,
    }
}

impl<'a> Frame<'a> {
    // The rail of a net.
    fn net(&self, faulty: bool, net: u32, value: bool) -> Rail {
        let own = self.rails.of(faulty, net, value);
        self.stuck.rail(faulty, Line::Net(net), value, own)
    }

    // The rail of a pin.
    fn pin(&self, faulty: bool, net: u32, pin: usize, read: u32, value: bool) -> Rail {
        let own = self.net(faulty, read, value);
        self.stuck.rail(faulty, Line::Pin { net, pin }, value, own)
    }

    // Where a literal is true one of these rails is.
    fn support(&self, solver: &mut Solver, of: Literal, rails: &[Rail]) -> Result<(), AllocError> {
        if rails.contains(&Rail::Always) {
            return Ok(());
        }
        let mut clause = Vec::with_capacity(self.alloc, rails.len().saturating_add(1))?;
        clause.push(of.opposite())?;
        for rail in rails {
            if let Some(literal) = literal(*rail, true)
                && !clause.contains(&literal)
            {
                clause.push(literal)?;
            }
        }
        if clause.len() == 1 {
            solver.add_clause(&clause)?;
        } else {
            solver.add_support(&clause)?;
        }
        Ok(())
    }

    // Where a literal is true each of these rails is.
    fn support_each(
        &self,
        solver: &mut Solver,
        of: Literal,
        rails: &[Rail],
    ) -> Result<(), AllocError> {
        for rail in rails {
            self.support(solver, of, &[*rail])?;
        }
        Ok(())
    }

    // The rails for a value of the pins of the gate that drives a net.
    fn pin_rails(
        &self,
        faulty: bool,
        net: u32,
        gate: Gate,
        value: bool,
    ) -> Result<Vec<Rail>, AllocError> {
        let mut rails = Vec::new(self.alloc);
        for (pin, read) in self.wiring.pins(gate).iter().enumerate() {
            rails.push(self.pin(faulty, net, pin, *read, value))?;
        }
        Ok(rails)
    }

    // The clauses of a gate for a value of what it folds: what the rail of that value needs.
    fn add_folded(
        &self,
        solver: &mut Solver,
        faulty: bool,
        net: u32,
        gate: Gate,
        value: bool,
    ) -> Result<(), AllocError> {
        let own = self.rails.of(faulty, net, value != gate.kind.inverts());
        let Some(of) = literal(own, true) else {
            return Ok(());
        };
        let rails = self.pin_rails(faulty, net, gate, value)?;
        match gate.kind {
            Kind::And | Kind::Nand if value => self.support_each(solver, of, &rails),
            Kind::Or | Kind::Nor if !value => self.support_each(solver, of, &rails),
            Kind::Xor | Kind::Xnor if rails.len() > 1 => {
                let zeros = self.pin_rails(faulty, net, gate, false)?;
                let ones = self.pin_rails(faulty, net, gate, true)?;
                self.add_parity(solver, of, value, &zeros, &ones)
            }
            _ => self.support(solver, of, &rails),
        }
    }

    // Where a literal is true each pin is definite.
    fn support_definite(
        &self,
        solver: &mut Solver,
        of: Literal,
        zeros: &[Rail],
        ones: &[Rail],
    ) -> Result<(), AllocError> {
        for (zero, one) in zeros.iter().zip(ones) {
            self.support(solver, of, &[*zero, *one])?;
        }
        Ok(())
    }

    // The clauses of a gate of parity for a value: each pin is definite, and no choice of values with the other parity
    // holds. A bit of the choice is set where the pin is 1.
    fn add_parity(
        &self,
        solver: &mut Solver,
        of: Literal,
        value: bool,
        zeros: &[Rail],
        ones: &[Rail],
    ) -> Result<(), AllocError> {
        self.support_definite(solver, of, zeros, ones)?;
        if ones.len() > MAX_PARITY_PINS {
            return Ok(());
        }
        for choice in 0..1u32 << ones.len() {
            let odd = choice.count_ones() % 2 == 1;
            if odd != value {
                self.forbid(solver, of, zeros, ones, choice)?;
            }
        }
        Ok(())
    }

    // Forbids a choice of values of the pins of a gate where a literal is true.
    fn forbid(
        &self,
        solver: &mut Solver,
        of: Literal,
        zeros: &[Rail],
        ones: &[Rail],
        choice: u32,
    ) -> Result<(), AllocError> {
        let mut clause = Vec::new(self.alloc);
        clause.push(of.opposite())?;
        let mut rest = choice;
        for (zero, one) in zeros.iter().zip(ones) {
            let chosen = if rest % 2 == 1 { *one } else { *zero };
            rest /= 2;
            if chosen == Rail::Never {
                return Ok(());
            }
            if let Some(literal) = literal(chosen, false)
                && !clause.contains(&literal)
            {
                clause.push(literal)?;
            }
        }
        solver.add_clause(&clause)?;
        Ok(())
    }

    // The clauses of a net in one machine.
    fn add_gate(
        &self,
        solver: &mut Solver,
        faulty: bool,
        net: u32,
        gate: Gate,
    ) -> Result<(), AllocError> {
        self.add_folded(solver, faulty, net, gate, false)?;
        self.add_folded(solver, faulty, net, gate, true)
    }

    // The clauses of a source in the good machine: it holds one value.
    fn add_source(&self, solver: &mut Solver, net: u32) -> Result<(), AllocError> {
        let zero = literal(self.rails.of(false, net, false), false);
        let one = literal(self.rails.of(false, net, true), false);
        if let Some(zero) = zero
            && let Some(one) = one
        {
            solver.add_clause(&[zero, one])?;
        }
        Ok(())
    }

    // The clauses of a net in both machines.
    fn add_net(&self, solver: &mut Solver, net: u32) -> Result<(), AllocError> {
        match self.wiring.gate(net) {
            None => self.add_source(solver, net),
            Some(gate) => {
                self.add_gate(solver, false, net, gate)?;
                if self.cone.has(net) {
                    self.add_gate(solver, true, net, gate)?;
                }
                Ok(())
            }
        }
    }

    /// Adds the clauses of all nets that have rails.
    ///
    /// # Errors
    /// Out of memory.
    pub fn add_nets(&self, solver: &mut Solver) -> Result<(), AllocError> {
        for net in &self.rails.nets {
            self.add_net(solver, *net)?;
        }
        Ok(())
    }

    // Adds that a net shows a difference, of this value in the good machine, where that may be.
    fn add_difference(
        &self,
        solver: &mut Solver,
        net: u32,
        value: bool,
        shown: &mut Vec<Rail>,
    ) -> Result<(), AllocError> {
        let good = self.net(false, net, value);
        let faulty = self.net(true, net, !value);
        if good == Rail::Never || faulty == Rail::Never {
            return Ok(());
        }
        if let Some(literal) = new_literal(solver)? {
            self.support(solver, literal, &[good])?;
            self.support(solver, literal, &[faulty])?;
            shown.push(Rail::Variable(literal.variable()))?;
        }
        Ok(())
    }

    /// Adds that one of these nets shows a difference; the literal that says so.
    ///
    /// # Errors
    /// Out of memory.
    pub fn add_differences(
        &self,
        solver: &mut Solver,
        ends: &[u32],
    ) -> Result<Option<Literal>, AllocError> {
        let mut shown = Vec::new(self.alloc);
        for net in ends {
            self.add_difference(solver, *net, false, &mut shown)?;
            self.add_difference(solver, *net, true, &mut shown)?;
        }
        let Some(differs) = new_literal(solver)? else {
            return Ok(None);
        };
        self.support(solver, differs, &shown)?;
        Ok(Some(differs))
    }

    /// The literal that says that a net has a value in the good machine.
    pub fn has_value(&self, net: u32, value: bool) -> Option<Literal> {
        literal(self.rails.of(false, net, value), true)
    }
}
