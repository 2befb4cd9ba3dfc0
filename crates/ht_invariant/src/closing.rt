//! One round: each clause's closing window is searched under the clauses that are still kept.
ghost use Rattle.std.specs.Prelude.{◌≡◌, ◌<◌, ◌≤◌, ◌-◌, ℕ, List, [], true, get_or, slice_set, vec_len, IfOk, OnOk};
ghost use Rattle.ht_tree.specs.declared.token.Assign3.{Assign3};
ghost use Rattle.ht_tree.specs.Walk.Searches.{Guide, node_at};
ghost use Rattle.ht_search.specs.Outcomes.{IsOutcome};
ghost use Rattle.ht_tree.specs.declared.clause.Clause.{Clause};
ghost use Rattle.ht_tree.specs.Clause.Clauses.{literals_of};
ghost use Rattle.ht_tree.specs.Clause.ClauseWindows.{good_window};
ghost use Rattle.ht_invariant.specs.Trials.{knows, knows_each};
ghost use Rattle.ht_invariant.specs.ClosingRounds.{IsClosingAnswer, IsClosingRound, closing_guide};
ghost use Rattle.ht_invariant.specs.UnderWay.{IsUnderWay};

use crate::sought::Sought;
use crate::trial::{ClauseTrial, explore_under};
use ht_items::Items;
use ht_search::Outcome;
use ht_tree::{Clause, Token};
use ht_window::Window;
use std::alloc::{AllocError, Global};

// The window of the closing windows, before its first decision, and the walk of one of them if its search closed it.
#[derive(Drop)]
struct Closing<'c> {
    window: Window<'c>,
    tokens: Option<Items<Token>>,
}

// The walk of a search that is closed, whatever it goes by.
fn closing_tokens(outcome: Outcome) -> Option<Items<Token>>
    ensures { (g : Guide) (budget : ℕ) (path : List Assign3)
        → IsOutcome g budget 1 (node_at path) outcome → IsClosingAnswer g budget result }
{
    match outcome {
        Outcome::Closed { tokens } => Some(Items::from_vec(tokens)),
        Outcome::Found { tokens: _ } => None,
        Outcome::Spent { tokens: _ } => None,
    }
}

// Searches the closing window of a clause under clauses.
fn close<'c>(
    alloc: Global,
    window: Window<'c>,
    clauses: &[Clause],
    clause: &Clause,
    budget: u64,
) -> Result<Closing<'c>, AllocError>
    requires good { window.window ≡ good_window window.window.circuit }
    requires start { window.decisions ≡ [] }
    requires known { knows window.window.circuit (literals_of clause.now) ≡ true }
    requires known_clauses { knows_each window.window.circuit clauses.now ≡ true }
    ensures window { IfOk result (λ closing. closing.window.window ≡ window.entry.window) }
    ensures decisions { IfOk result (λ closing. closing.window.decisions ≡ []) }
    ensures answer { IfOk result (λ closing. IsClosingAnswer
        (closing_guide window.entry.window.circuit clauses.now clause.now) budget closing.tokens) }
{
    let sought = Sought::Breach {
        first: clause.first,
        second: clause.second,
    };
    let mut trial = ClauseTrial {
        window,
        sought,
        clauses,
    };
    let explored = explore_under(alloc, &mut trial, budget);
    let ClauseTrial {
        mut window,
        sought: _,
        clauses: _,
    } = trial;
    window.undo_to(0);
    match explored {
        Ok(outcome) => Ok(Closing {
            window,
            tokens: closing_tokens(outcome),
        }),
        Err(error) => {
            // for the proof: dropped by name
            drop(window);
            Err(error)
        },
    }
}

// Gives clause i its walk, in place of the one of the round before.
fn give_walk(clauses: &mut Vec<Clause>, i: usize, tokens: Items<Token>)
    requires { i < vec_len clauses.old }
    ensures { (d : Clause) → clauses.new.items ≡ slice_set clauses.old.items i
        (record (get_or clauses.old.items i d) { tokens = tokens }) }
{
    clauses[i].tokens = tokens;
}

// The window before its first decision, and the clause that is searched next.
#[derive(Drop)]
struct NextSearch<'c> {
    window: Window<'c>,
    next: usize,
}

// Searches the closing window of clause i: it gets its walk, or is dropped.
fn search_clause<'c>(
    alloc: Global,
    window: Window<'c>,
    clauses: &mut Vec<Clause>,
    i: usize,
    budget: u64,
) -> Result<NextSearch<'c>, AllocError>
    requires good { window.window ≡ good_window window.window.circuit }
    requires start { window.decisions ≡ [] }
    requires known { knows_each window.window.circuit clauses.old.items ≡ true }
    requires inside { i < vec_len clauses.old }
    ensures window { IfOk result (λ step. step.window.window ≡ window.entry.window) }
    ensures decisions { IfOk result (λ step. step.window.decisions ≡ []) }
    ensures way { IfOk result (λ step. (initial : List Clause)
        → IsUnderWay window.entry.window.circuit budget initial clauses.old.items i
        → IsUnderWay window.entry.window.circuit budget initial clauses.new.items step.next) }
    ensures smaller { IfOk result
        (λ step. vec_len clauses.new - step.next < vec_len clauses.old - i) }
{
    let all = clauses.as_slice();
    let clause = &all[i];
    let closing = close(alloc, window, all, clause, budget)?;
    let Closing { window, tokens } = closing;
    match tokens {
        Some(tokens) => {
            give_walk(clauses, i, tokens);
            Ok(NextSearch {
                window,
                next: i + 1,
            })
        },
        None => {
            let _ = clauses.remove(i);
            Ok(NextSearch { window, next: i })
        },
    }
}

/// One round over the clauses: those that aren't closed are dropped at once, the others get their walks. The window
/// stands before its first decision again.
///
/// # Errors
/// Out of memory.
pub fn closing_round<'c>(
    alloc: Global,
    window: Window<'c>,
    clauses: &mut Vec<Clause>,
    budget: u64,
) -> Result<Window<'c>, AllocError>
    requires good { window.window ≡ good_window window.window.circuit }
    requires start { window.decisions ≡ [] }
    requires known { knows_each window.window.circuit clauses.old.items ≡ true }
    ensures window { IfOk result (λ after. after.window ≡ window.entry.window) }
    ensures decisions { IfOk result (λ after. after.decisions ≡ []) }
    ensures known { OnOk result (knows_each window.entry.window.circuit clauses.new.items ≡ true) }
    ensures few { OnOk result (vec_len clauses.new ≤ vec_len clauses.old) }
    ensures round { OnOk result
        (IsClosingRound window.entry.window.circuit budget clauses.old.items clauses.new.items) }
{
    let mut current = window;
    let mut i = 0;
    'each: while i < clauses.len() {
        let step = search_clause(alloc, current, clauses, i, budget)?;
        let NextSearch { window, next } = step;
        current = window;
        i = next;
    }
    Ok(current)
}
