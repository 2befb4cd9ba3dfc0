//! Cubes of rails.
use std::alloc::AllocError;

/// Rails of latches, by their variables, rising, each once: together they are forbidden, or to be shown unreachable.
#[derive(Clone, Drop)]
pub struct Cube {
    variables: Vec<u32>,
}

impl Cube {
    /// A cube of these rails, in any order.
    pub fn new(variables: Vec<u32>) -> Cube {
        let mut variables = variables;
        variables.sort_unstable();
        variables.dedup();
        Cube { variables }
    }

    /// The variables of its rails, rising.
    pub fn variables(&self) -> &[u32] {
        &self.variables
    }

    /// Whether one of its rails has this variable.
    pub fn contains(&self, variable: u32) -> bool {
        self.variables.contains(&variable)
    }

    /// Whether each of its rails is one of another cube: then whatever meets that cube meets this one.
    pub fn is_within(&self, other: &Cube) -> bool {
        if self.variables.len() > other.variables.len() {
            return false;
        }
        let mut rest = other.variables.iter();
        for variable in &self.variables {
            if !rest.any(|there| *there == *variable) {
                return false;
            }
        }
        true
    }

    /// The same without one rail.
    ///
    /// # Errors
    /// Out of memory.
    pub fn without(&self, variable: u32) -> Result<Cube, AllocError> {
        let mut variables = self.variables.clone()?;
        variables.retain(|other| *other != variable);
        Ok(Cube { variables })
    }
}
