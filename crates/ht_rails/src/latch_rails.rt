//! Which rail of a latch a variable is.
ghost use Rattle.std.specs.Prelude.{◌<◌, length};

use ht_cubes::{Cube, Rail, Rails};
use ht_items::Items;
use ht_reach::Cube as Reached;
use std::alloc::{AllocError, Global};

/// The rails of the latches of a fault's machines, by their variables.
#[derive(Drop)]
pub struct LatchRails {
    rails: Vec<Option<Rail>>,
}

/// Writes at a place of a list by variable, if the list has it.
pub fn write<T: Copy>(list: &mut Vec<T>, variable: u32, value: T) {
    if let Some(place) = list.get_mut(variable as usize) {
        *place = value;
    }
}

impl LatchRails {
    /// The rails of the latches.
    ///
    /// # Errors
    /// Out of memory.
    pub fn new(alloc: Global, rails: &Rails<'_>) -> Result<LatchRails, AllocError> {
        let mut own = LatchRails {
            rails: vec![in alloc; None; rails.last_variable() as usize + 1]?,
        };
        let circuit = rails.circuit();
        for dff in 0..circuit.dffs() {
            own.add_latch(rails, dff);
        }
        Ok(own)
    }

    // The rails of a flip-flop: those of the good machine last, so that what both have is the good one's.
    fn add_latch(&mut self, rails: &Rails<'_>, dff: u32)
        requires { dff < length rails.now.circuit.dffs }
    {
        for value in [false, true] {
            self.add_rail(
                rails,
                Rail {
                    faulty: true,
                    dff,
                    value,
                },
            );
            self.add_rail(
                rails,
                Rail {
                    faulty: false,
                    dff,
                    value,
                },
            );
        }
    }

    // A rail by its variable.
    fn add_rail(&mut self, rails: &Rails<'_>, rail: Rail)
        requires { rail.dff < length rails.now.circuit.dffs }
    {
        write(&mut self.rails, rails.held(rail).variable, Some(rail));
    }

    /// The rail of a latch that a variable is, if it is one.
    pub fn rail(&self, variable: u32) -> Option<Rail> {
        self.rails.get(variable as usize).copied().flatten()
    }

    /// A cube of variables as a cube of rails.
    ///
    /// # Errors
    /// Out of memory.
    pub fn cube(&self, alloc: Global, cube: &Reached) -> Result<Cube, AllocError> {
        let mut rails = Items::new(alloc);
        for variable in cube.variables() {
            if let Some(rail) = self.rail(*variable) {
                rails.push(rail)?;
            }
        }
        Ok(rails)
    }
}

/// A cube of rails as a cube of variables, for another fault of the circuit. Outside the fault's cone the faulty
/// machine has the rails of the good one.
///
/// # Errors
/// Out of memory.
pub fn candidate(alloc: Global, rails: &Rails<'_>, cube: &[Rail]) -> Result<Reached, AllocError> {
    let mut variables = Vec::with_capacity(alloc, cube.len())?;
    let circuit = rails.circuit();
    for rail in cube {
        if rail.dff < circuit.dffs() {
            variables.push(rails.held(*rail).variable)?;
        }
    }
    Ok(Reached::new(variables))
}
