//! Which clauses say what supports a variable.
use crate::problem::Problem;
use ht_solver::Literal;
use std::alloc::{AllocError, Global};

/// The support clauses of each variable, by their numbers in the problem.
#[derive(Drop)]
pub struct Supports {
    rows: Vec<Vec<u32>>,
}

impl Supports {
    /// The support clauses of a problem.
    ///
    /// # Errors
    /// Out of memory.
    pub fn new(alloc: Global, problem: &Problem) -> Result<Supports, AllocError> {
        let mut rows = empty_rows(alloc, problem.costs.len())?;
        let mut number = 0u32;
        for clause in &problem.clauses {
            if let Some(variable) = supported_by(clause)
                && let Some(row) = rows.get_mut(variable as usize)
            {
                row.push(number)?;
            }
            number = number.saturating_add(1);
        }
        Ok(Supports { rows })
    }

    /// The numbers of the support clauses of a variable.
    pub fn of(&self, variable: u32) -> &[u32] {
        match self.rows.get(variable as usize) {
            Some(row) => row,
            None => &[],
        }
    }
}

fn empty_rows(alloc: Global, count: usize) -> Result<Vec<Vec<u32>>, AllocError> {
    let mut rows = Vec::with_capacity(alloc, count)?;
    for _ in 0..count {
        rows.push(Vec::new(alloc))?;
    }
    Ok(rows)
}

// The variable that a clause supports: that of its only negative literal, where there are others.
fn supported_by(clause: &[Literal]) -> Option<u32> {
    let mut found = None;
    let mut count = 0u32;
    for literal in clause {
        if !literal.is_positive() {
            found = Some(literal.variable());
            count = count.saturating_add(1);
        }
    }
    if count == 1 && clause.len() > 1 {
        found
    } else {
        None
    }
}
