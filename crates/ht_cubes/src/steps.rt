//! Whether steps pass: each hint is looked at once.
ghost use Rattle.std.specs.Prelude.{◌≡◌, ◌↔◌, ◌<◌, ◌+◌, ◌-◌, ◌^◌, [], IsTrue, length, List, map, IfOk, OnOk};
ghost use Rattle.std.specs.List.{All};
ghost use Rattle.ht_trail.specs.Trails.{IsLater};
ghost use Rattle.ht_cubes.specs.declared.signed_var.SignedVar.{SignedVar};
ghost use Rattle.ht_cubes.specs.declared.clause_step.ClauseStep.{ClauseStep};
ghost use Rattle.ht_cubes.specs.Formula.{complement};
ghost use Rattle.ht_cubes.specs.Steps.{Clash, EndsEmpty, HasNoOpposites, IsNumber, IsWithin, StepPasses, StepsPass};
ghost use Rattle.ht_cubes.specs.Values.{IsBelow, SayFacts};

use crate::standing::{Standing, stands};
use crate::{ClauseStep, Rows, SignedVar};
use ht_trail::Cells;
use std::alloc::{AllocError, Global};

// Makes all of a clause false. Says whether it has no opposites.
fn deny(values: &mut Cells<Option<bool>>, clause: &[SignedVar]) -> Result<bool, AllocError>
    requires below { IsBelow (length values.old.values) clause.now }
    requires clear { SayFacts [] values.old.values }
    ensures long { OnOk result (length values.new.values ≡ length values.old.values) }
    ensures later { IsLater values.old values.new }
    ensures plain { IfOk result (λ plain. IsTrue plain ↔ HasNoOpposites clause.now) }
    ensures denied { IfOk result (λ plain. IsTrue plain
        → SayFacts (map complement clause.now) values.new.values) }
{
    for literal in clause {
        match values.get(literal.variable) {
            Some(value) => {
                if value == literal.value {
                    return Ok(false);
                }
            }
            None => values.set(literal.variable, Some(!literal.value))?,
        }
    }
    Ok(true)
}

// Whether a hint is the number of a clause.
fn is_number(rows: &Rows, hint: u32) -> bool
    ensures { IsTrue result ↔ IsNumber rows.now hint }
{
    hint != 0 && hint as usize <= rows.len()
}

// Whether the hints lead to a clause that fails. What others found is followed and nothing is searched for, so each
// hint is looked at once and no literal is watched: of its clause one signed variable is left, which becomes true, and
// of the last one none.
fn clash(values: &mut Cells<Option<bool>>, rows: &Rows, hints: &[u32]) -> Result<bool, AllocError>
    requires below { All (IsBelow (length values.old.values)) rows.now }
    ensures later { IsLater values.old values.new }
    ensures exact { IfOk result (λ yes. (facts : List SignedVar) → SayFacts facts values.old.values
        → (IsTrue yes ↔ Clash rows.now facts hints.now)) }
{
    'hints: for (i, hint) in hints.iter().enumerate() {
        if !is_number(rows, *hint) {
            return Ok(false);
        }
        match stands(values.values(), rows.row(*hint as usize - 1)) {
            Standing::Failed => return Ok(i + 1 == hints.len()),
            Standing::Left(literal) => values.set(literal.variable, Some(literal.value))?,
            Standing::Open => return Ok(false),
        }
    }
    Ok(false)
}

// Whether a step passes after these clauses. The values are as before.
fn step_passes(
    values: &mut Cells<Option<bool>>,
    rows: &Rows,
    step: &ClauseStep,
) -> Result<bool, AllocError>
    requires clear { SayFacts [] values.old.values }
    requires rows { All (IsBelow (length values.old.values)) rows.now }
    requires step { IsBelow (length values.old.values) step.now.literals }
    ensures kept { OnOk result (values.new ≡ values.old) }
    ensures exact { IfOk result (λ yes. IsTrue yes ↔ StepPasses rows.now step.now) }
{
    let mark = values.mark();
    let mut passes = deny(values, step.literals.as_slice())?;
    if passes {
        passes = clash(values, rows, step.hints.as_slice())?;
    }
    values.undo(mark);
    Ok(passes)
}

/// Whether steps over the variables up to `last` pass after clauses over them; the steps join the clauses.
///
/// # Errors
/// Out of memory, or 2^32 or more that stands in clauses.
pub(crate) fn steps_pass(
    alloc: Global,
    last: u32,
    rows: &mut Rows,
    steps: &[ClauseStep],
) -> Result<bool, AllocError>
    requires few { last < 2 ^ 32 - 1 }
    requires rows { All (IsBelow (last + 1)) rows.old }
    requires steps { All (λ (s : ClauseStep). IsWithin last s.literals) steps.now }
    ensures { IfOk result (λ yes. IsTrue yes ↔ StepsPass rows.old steps.now) }
{
    let mut values = Cells::new(alloc, last + 1, None)?;
    'steps: for step in steps {
        if !step_passes(&mut values, rows, step)? {
            return Ok(false);
        }
        rows.push(step.literals.as_slice())?;
    }
    Ok(true)
}

// Whether the variables of a clause are from 1 to a number.
fn is_within(last: u32, clause: &[SignedVar]) -> bool
    ensures { IsTrue result ↔ IsWithin last clause.now }
{
    for literal in clause {
        if literal.variable == 0 || literal.variable > last {
            return false;
        }
    }
    true
}

/// Whether the variables of the steps are from 1 to a number.
pub(crate) fn are_within(last: u32, steps: &[ClauseStep]) -> bool
    ensures { IsTrue result ↔ All (λ (s : ClauseStep). IsWithin last s.literals) steps.now }
{
    for step in steps {
        if !is_within(last, step.literals.as_slice()) {
            return false;
        }
    }
    true
}

/// Whether the last of the steps, of at least one, is the empty clause.
pub(crate) fn ends_empty(steps: &[ClauseStep]) -> bool
    ensures { IsTrue result ↔ EndsEmpty steps.now }
{
    if steps.is_empty() {
        return false;
    }
    steps[steps.len() - 1].literals.as_slice().is_empty()
}
