//! Clauses of the formula as clauses of the solver.
use ht_cubes::SignedVar;
use ht_items::FlatRows;
use ht_solver::Literal;
use std::alloc::{AllocError, Global};

/// The literals of a clause, each once: a gate may read a net at two pins. Variables have the numbers of the formula;
/// one that is too great for a literal is left out.
///
/// # Errors
/// Out of memory.
pub fn literals_of(alloc: Global, clause: &[SignedVar]) -> Result<Vec<Literal>, AllocError> {
    let mut literals = Vec::with_capacity(alloc, clause.len())?;
    for signed in clause {
        if let Some(literal) = Literal::new(signed.variable, signed.value)
            && !literals.contains(&literal)
        {
            literals.push(literal)?;
        }
    }
    Ok(literals)
}

/// The literals of each clause.
///
/// # Errors
/// Out of memory.
pub fn all_literals(
    alloc: Global,
    clauses: &FlatRows<SignedVar>,
) -> Result<Vec<Vec<Literal>>, AllocError> {
    let mut all = Vec::with_capacity(alloc, clauses.len())?;
    for i in 0..clauses.len() {
        all.push(literals_of(alloc, clauses.row(i))?)?;
    }
    Ok(all)
}
