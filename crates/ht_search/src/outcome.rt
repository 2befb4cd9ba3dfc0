//! The search over a problem, and how it ends.
ghost use Rattle.std.specs.Prelude.{◌≡◌, ◌<◌, ◌*◌, ◌≤◌, ℕ, OnOk, IfOk};
ghost use Rattle.ht_tree.specs.Walk.Walks.{Node, root};
ghost use Rattle.ht_tree.specs.Walk.Counts.{Measures, most_tokens};
ghost use Rattle.ht_search.specs.Routes.{back_to, stops};
ghost use Rattle.ht_search.specs.Outcomes.{IsClosed, IsOutcome, IsSpent};

use crate::problem::Problem;
use crate::progress::SearchProgress;
use crate::step::{StepAnswer, step};
use ht_tree::Token;
use std::alloc::{AllocError, Global};

/// How a search ended, with its walk.
#[derive(Drop)]
pub enum Outcome {
    /// The problem stands where what is searched for is shown.
    Found { tokens: Vec<Token> },
    /// It is shown nowhere: the walk is complete.
    Closed { tokens: Vec<Token> },
    /// The budget has no room for the next token.
    Spent { tokens: Vec<Token> },
}

/// Walks from the root until what is searched for is shown, each node is dead, or the budget has no room for the next
/// token. Each token weighs a unit.
///
/// After `Closed` the problem stands where it stood before; after the others it can go back there, by the point that it
/// had.
///
/// # Errors
/// Out of memory: the tokens and what is still to be tried take memory, and so does a decision.
pub fn search<P: Problem>(
    alloc: Global,
    problem: &mut P,
    budget: u64,
    unit: u64,
) -> Result<Outcome, AllocError>
    requires unit { 0 < unit }
    requires start { (P.route problem.old).here.node ≡ root }
    ensures subject { P.subject problem.new ≡ P.subject problem.old }
    ensures outcome { IfOk result
        (IsOutcome (P.guide (P.subject problem.old)) budget unit (P.route problem.new).here.node) }
    ensures closed { IfOk result
        (λ outcome. IsClosed outcome → P.route problem.new ≡ P.route problem.old) }
    ensures enough { (left : Node → ℕ) → Measures (P.guide (P.subject problem.old)).judge left
        → most_tokens (left root) * unit ≤ budget → IfOk result (λ outcome. ¬ IsSpent outcome) }
    ensures back { OnOk result
        (back_to (stops (P.route problem.new)) (P.route problem.old).here.point
        ≡ stops (P.route problem.old)) }
{
    let start = problem.mark();
    let mut progress = SearchProgress::new(alloc, budget);
    loop {
        match step(problem, &mut progress, start, unit)? {
            StepAnswer::Goes => {},
            StepAnswer::Found => {
                return Ok(Outcome::Found {
                    tokens: progress.tokens,
                });
            },
            StepAnswer::Closed => {
                problem.undo(start);
                return Ok(Outcome::Closed {
                    tokens: progress.tokens,
                });
            },
            StepAnswer::Spent => {
                return Ok(Outcome::Spent {
                    tokens: progress.tokens,
                });
            },
        }
    }
}
