//! The steps of a refutation, written by the log of a solver.
ghost use Rattle.ht_solver.specs.Efforts.{IsNoMore};

use ht_cubes::{ClauseStep, Cube, Formula, Rails, SignedVar};
use ht_items::Items;
use ht_rails::literals_of;
use ht_reach::Problem;
use ht_solver::{Answer, Effort, Lemma, Literal, Solver, needed};
use std::alloc::{AllocError, Global};

// So often cubes that the steps don't cite are dropped, and the steps written again.
const MAX_ROUNDS: usize = 6;

/// Cubes, and steps by which they may refute a fault.
#[derive(Drop)]
pub struct Refutation {
    pub cubes: Items<Cube>,
    pub steps: Items<ClauseStep>,
}

// Steps after a formula, and which cubes have a clause there that they cite.
#[derive(Drop)]
struct Written {
    steps: Vec<ClauseStep>,
    cited: Vec<bool>,
}

// A solver with the clauses of a formula, in their order; it keeps a log.
fn solver_of(alloc: Global, costs: &[u32], formula: &Formula) -> Result<Solver, AllocError> {
    let mut solver = Solver::new(alloc, true);
    for variable in 0..=formula.last {
        let cost = costs.get(variable as usize).copied().unwrap_or(1);
        solver.add_variable(cost)?;
    }
    Ok(solver)
}

fn add_formula(alloc: Global, solver: &mut Solver, formula: &Formula) -> Result<(), AllocError> {
    for i in 0..formula.clauses.len() {
        let literals = literals_of(alloc, formula.clauses.row(i))?;
        solver.add_support(&literals)?;
    }
    Ok(())
}

// The signed variables of a lemma.
fn signed(alloc: Global, literals: &[Literal]) -> Result<Items<SignedVar>, AllocError> {
    let mut signed = Items::new(alloc);
    for literal in literals {
        signed.push(SignedVar {
            variable: literal.variable(),
            value: literal.is_positive(),
        })?;
    }
    Ok(signed)
}

// Lemmas as steps.
fn steps_of(alloc: Global, lemmas: &[Lemma]) -> Result<Vec<ClauseStep>, AllocError> {
    let mut steps = Vec::with_capacity(alloc, lemmas.len())?;
    for lemma in lemmas {
        steps.push(ClauseStep {
            literals: signed(alloc, &lemma.literals)?,
            hints: Items::from_slice(alloc, &lemma.hints)?,
        })?;
    }
    Ok(steps)
}

// Marks the cubes whose clauses are among the hints. They come after those of the frame; clauses count from 1.
fn mark_cited(cited: &mut Vec<bool>, frame: usize, hints: &[u32]) {
    for hint in hints {
        if let Some(cube) = (*hint as usize).checked_sub(frame.saturating_add(1))
            && let Some(mark) = cited.get_mut(cube)
        {
            *mark = true;
        }
    }
}

// Which of the cubes are cited.
fn cited_by(
    alloc: Global,
    lemmas: &[Lemma],
    frame: usize,
    cubes: usize,
) -> Result<Vec<bool>, AllocError> {
    let mut cited = vec![in alloc; false; cubes]?;
    for lemma in lemmas {
        mark_cited(&mut cited, frame, &lemma.hints);
    }
    Ok(cited)
}

// The lemmas that refute a formula; none where it isn't refuted within what is left. As much is taken from that.
fn refuting_lemmas(
    alloc: Global,
    costs: &[u32],
    formula: &Formula,
    left: &mut Effort,
) -> Result<Option<Vec<Lemma>>, AllocError>
    ensures { IsNoMore left.new left.old }
{
    let mut solver = solver_of(alloc, costs, formula)?;
    add_formula(alloc, &mut solver, formula)?;
    let answer = solver.solve(&[], *left)?;
    let spent = solver.spent();
    left.conflicts = left.conflicts.saturating_sub(spent.conflicts);
    left.propagations = left.propagations.saturating_sub(spent.propagations);
    let Answer::Unsatisfiable(_) = answer else {
        return Ok(None);
    };
    let given = u32::try_from(formula.clauses.len()).unwrap_or(u32::MAX);
    Ok(Some(needed(alloc, solver.lemmas(), given)?))
}

// Steps by which cubes refute the fault of a problem.
fn write_once(
    alloc: Global,
    rails: &Rails<'_>,
    problem: &Problem,
    cubes: &[Cube],
    left: &mut Effort,
) -> Result<Option<Written>, AllocError>
    ensures { IsNoMore left.new left.old }
{
    let Some(formula) = rails.formula(alloc, cubes)? else {
        return Ok(None);
    };
    let Some(lemmas) = refuting_lemmas(alloc, &problem.costs, &formula, left)? else {
        return Ok(None);
    };
    Ok(Some(Written {
        steps: steps_of(alloc, &lemmas)?,
        cited: cited_by(alloc, &lemmas, problem.clauses.len(), cubes.len())?,
    }))
}

// Copies of the cubes that are cited; of the first one where none is, since an entry has a cube.
fn keep_cited(alloc: Global, cubes: &[Cube], cited: &[bool]) -> Result<Vec<Cube>, AllocError> {
    let mut kept = Vec::new(alloc);
    for (cube, is_cited) in cubes.iter().zip(cited) {
        if *is_cited {
            kept.push(Items::from_slice(alloc, cube.as_slice())?)?;
        }
    }
    if kept.is_empty()
        && let Some(cube) = cubes.first()
    {
        kept.push(Items::from_slice(alloc, cube.as_slice())?)?;
    }
    Ok(kept)
}

/// A refutation by cubes, or by those of them that are needed; none where they don't refute the fault within what is
/// left.
///
/// # Errors
/// Out of memory, or 2^32 or more that stands in clauses.
pub fn write_refutation(
    alloc: Global,
    rails: &Rails<'_>,
    problem: &Problem,
    cubes: Vec<Cube>,
    left: &mut Effort,
) -> Result<Option<Refutation>, AllocError>
    ensures { IsNoMore left.new left.old }
{
    let mut cubes = cubes;
    let mut found = None;
    for _ in 0..MAX_ROUNDS {
        let Some(written) = write_once(alloc, rails, problem, &cubes, left)? else {
            break;
        };
        let kept = keep_cited(alloc, &cubes, &written.cited)?;
        let is_last = kept.len() == cubes.len();
        found = Some(Refutation {
            cubes: Items::from_vec(cubes),
            steps: Items::from_vec(written.steps),
        });
        cubes = kept;
        if is_last {
            break;
        }
    }
    Ok(found)
}
