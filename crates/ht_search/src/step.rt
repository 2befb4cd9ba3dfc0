//! One step of a search.
ghost use Rattle.std.specs.Prelude.{◌≡◌, ◌≤◌, true, false, IfOk, OnOk};
ghost use Rattle.ht_search.specs.Progressed.{GoesOn, IsFinished, IsWalked, StepsTo};

use crate::problem::{Point, Problem};
use crate::progress::SearchProgress;
use ht_tern::Tern;
use ht_tree::{Choice, Status3, Token};
use std::alloc::AllocError;

/// What comes after a step.
#[derive(Clone, Copy, Debug)]
pub enum StepAnswer {
    /// Another step.
    Goes,
    /// What is searched for is shown here.
    Found,
    /// Nothing is left to try.
    Closed,
    /// The budget has no room for the next token.
    Spent,
}

// Decides the chosen variable to its first value; the others are put off. Only inputs and latches at a window's start
// are variables, and each of their values is tried: where none is left what is searched for is shown nowhere. That is
// PODEM (P. Goel, "An Implicit Enumeration Algorithm to Generate Tests for Combinational Logic Circuits", 1981).
fn branch<P: Problem>(
    problem: &mut P,
    progress: &mut SearchProgress,
    unit: u64,
) -> Result<(), AllocError>
    requires open { (P.guide (P.subject problem.old)).judge.status (P.route problem.old).here.node
        ≡ Status3.Open }
    requires room { unit ≤ progress.old.left }
    ensures subject { P.subject problem.new ≡ P.subject problem.old }
    ensures goes { OnOk result
        ((start : Point) → IsWalked (P.guide (P.subject problem.old)) start (P.route problem.old) progress.old
        → GoesOn (P.guide (P.subject problem.old)) start unit (P.route problem.old) (P.route problem.new)
        progress.old progress.new) }
{
    let point = problem.mark();
    match problem.pick() {
        Choice::Two { var, first } => {
            progress.write(Token::Two { var, first }, unit)?;
            progress.put_off(point, var, Tern::from(!first))?;
            problem.decide(var, Tern::from(first))?;
        },
        Choice::Three { var } => {
            progress.write(Token::Three { var }, unit)?;
            progress.put_off(point, var, Tern::Unk)?;
            progress.put_off(point, var, Tern::One)?;
            problem.decide(var, Tern::Zero)?;
        },
    }
    Ok(())
}

// Leaves a dead node for the next value that was put off. False means that none is left.
fn go_back<P: Problem>(
    problem: &mut P,
    progress: &mut SearchProgress,
    start: Point,
    unit: u64,
) -> Result<bool, AllocError>
    requires dead { (P.guide (P.subject problem.old)).judge.status (P.route problem.old).here.node
        ≡ Status3.Dead }
    requires room { unit ≤ progress.old.left }
    requires walked { IsWalked (P.guide (P.subject problem.old)) start (P.route problem.old) progress.old }
    ensures subject { P.subject problem.new ≡ P.subject problem.old }
    ensures goes { IfOk result (λ goes. goes ≡ true
        → GoesOn (P.guide (P.subject problem.old)) start unit (P.route problem.old) (P.route problem.new)
        progress.old progress.new) }
    ensures finished { IfOk result (λ goes. goes ≡ false
        → (P.route problem.new ≡ P.route problem.old)
        × IsFinished (P.guide (P.subject problem.old)) unit progress.old progress.new) }
{
    progress.write(Token::Dead, unit)?;
    match progress.untried.pop() {
        None => Ok(false),
        Some(next) => {
            problem.undo(next.point);
            problem.decide(next.var, next.value)?;
            Ok(true)
        },
    }
}

/// One step of a search that began at a point: a token, or the end.
///
/// # Errors
/// Out of memory.
pub fn step<P: Problem>(
    problem: &mut P,
    progress: &mut SearchProgress,
    start: Point,
    unit: u64,
) -> Result<StepAnswer, AllocError>
    requires { IsWalked (P.guide (P.subject problem.old)) start (P.route problem.old) progress.old }
    ensures subject { P.subject problem.new ≡ P.subject problem.old }
    ensures next { IfOk result (StepsTo (P.guide (P.subject problem.old)) start unit (P.route problem.old)
        (P.route problem.new) progress.old progress.new) }
{
    match problem.status() {
        Status3::Sure => {
            let here = problem.mark();
            if !problem.deeper()? {
                return Ok(StepAnswer::Found);
            }
            if !progress.has_room(unit) {
                problem.undo(here);
                return Ok(StepAnswer::Spent);
            }
            progress.write(Token::Before, unit)?;
            Ok(StepAnswer::Goes)
        },
        Status3::Dead => {
            if !progress.has_room(unit) {
                return Ok(StepAnswer::Spent);
            }
            if go_back(problem, progress, start, unit)? {
                Ok(StepAnswer::Goes)
            } else {
                Ok(StepAnswer::Closed)
            }
        },
        Status3::Open => {
            if !progress.has_room(unit) {
                return Ok(StepAnswer::Spent);
            }
            branch(problem, progress, unit)?;
            Ok(StepAnswer::Goes)
        },
    }
}
