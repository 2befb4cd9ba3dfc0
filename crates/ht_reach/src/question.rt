//! Questions to a solver, and what they cost.
ghost use Rattle.std.specs.Prelude.{◌≡◌, ◌≤◌, ◌+◌, ◌-◌, ◌/◌, OnOk};
ghost use Rattle.ht_solver.specs.Efforts.{IsNoMore};

use ht_solver::{Answer, Effort, Literal, Solver};
use std::alloc::AllocError;

// A solver with so many clauses is copied at the price of one propagation.
const CLAUSES_A_PROPAGATION: usize = 4;

/// Adds the positive literals of variables.
///
/// # Errors
/// Out of memory.
pub fn push_positive(literals: &mut Vec<Literal>, variables: &[u32]) -> Result<(), AllocError> {
    for variable in variables {
        if let Some(literal) = Literal::new(*variable, true) {
            literals.push(literal)?;
        }
    }
    Ok(())
}

/// Adds the negative literals of variables: with them a clause says that not all are true.
///
/// # Errors
/// Out of memory.
pub fn push_negative(literals: &mut Vec<Literal>, variables: &[u32]) -> Result<(), AllocError> {
    for variable in variables {
        if let Some(literal) = Literal::new(*variable, false) {
            literals.push(literal)?;
        }
    }
    Ok(())
}

/// Adds a variable to a solver; its literal, or none where the solver has too many.
///
/// # Errors
/// Out of memory.
pub fn add_literal(solver: &mut Solver) -> Result<Option<Literal>, AllocError> {
    let Ok(variable) = u32::try_from(solver.variables()) else {
        return Ok(None);
    };
    solver.add_variable(1)?;
    Ok(Literal::new(variable, true))
}

/// Whether nothing more can be asked.
pub fn is_spent(left: Effort) -> bool {
    left.conflicts == 0 || left.propagations == 0
}

/// Takes one propagation from what is left: the price of a question, besides what the solver spends.
pub fn charge(left: &mut Effort)
    ensures conflicts { left.new.conflicts ≡ left.old.conflicts }
    ensures propagations { left.new.propagations ≡ left.old.propagations - 1 }
{
    left.propagations = left.propagations.saturating_sub(1);
}

/// Takes from what is left the price of a copy of a solver with so many clauses: a quarter of a propagation a clause.
pub fn charge_copy(clauses: usize, left: &mut Effort)
    ensures conflicts { left.new.conflicts ≡ left.old.conflicts }
    ensures propagations { left.new.propagations
        ≡ left.old.propagations - clauses / CLAUSES_A_PROPAGATION }
    ensures less { IsNoMore left.new left.old }
{
    let price = clauses / CLAUSES_A_PROPAGATION;
    left.propagations = left.propagations.saturating_sub(price as u64);
}

/// Asks a solver under assumptions, for as many conflicts at most, within what is left, and takes from it what the solver
/// spends, and one propagation more: so a loop that asks ends.
///
/// # Errors
/// Out of memory.
pub fn ask(
    solver: &mut Solver,
    assumptions: &[Literal],
    most_conflicts: u64,
    left: &mut Effort,
) -> Result<Answer, AllocError>
    ensures conflicts { OnOk result (solver.new.conflicts + left.new.conflicts
        ≤ solver.old.conflicts + left.old.conflicts) }
    ensures propagations { OnOk result (solver.new.propagations + left.new.propagations
        ≤ solver.old.propagations + left.old.propagations) }
    ensures less { IsNoMore left.new left.old }
    ensures price { left.new.propagations ≤ left.old.propagations - 1 }
{
    charge(left);
    if is_spent(*left) {
        return Ok(Answer::GivenUp);
    }
    let before = solver.spent();
    let budget = Effort {
        conflicts: left.conflicts.min(most_conflicts),
        propagations: left.propagations,
    };
    let answer = solver.solve(assumptions, budget)?;
    let after = solver.spent();
    let conflicts = after.conflicts.saturating_sub(before.conflicts);
    let propagations = after.propagations.saturating_sub(before.propagations);
    left.conflicts = left.conflicts.saturating_sub(conflicts);
    left.propagations = left.propagations.saturating_sub(propagations);
    Ok(answer)
}
