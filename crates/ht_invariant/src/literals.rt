//! What a window says of the clauses under which it is searched.
ghost use Rattle.std.specs.Prelude.{◌≡◌, ◌<◌, ◌+◌, true, not, length};
ghost use Rattle.std.specs.List.{find, list_any, list_all};
ghost use Rattle.ht_tree.specs.Walk.Walks.{decides};
ghost use Rattle.ht_tree.specs.declared.clause.Literal.{Literal};
ghost use Rattle.ht_tree.specs.Clause.Clauses.{is_decided_against, is_decided_to, latch_value, literals_of, literals_of_each, path_breaks, path_meets};
ghost use Rattle.ht_tree.specs.Clause.ClauseSearches.{to_clause, to_literal};
ghost use Rattle.ht_invariant.specs.Trials.{knows, knows_each};

use ht_tern::Tern;
use ht_tree::{Choice, Clause, Literal};
use ht_window::Window;

// The variable of a latch.
fn latch_var(window: &Window, j: u32) -> u32
    requires { j < length window.now.window.circuit.dffs }
    ensures { result ≡ window.now.window.circuit.inputs + j }
{
    window.circuit().inputs() + j
}

// What the decisions give a literal's latch.
fn latch_value(window: &Window, literal: Literal) -> Option<Tern>
    requires { literal.dff < length window.now.window.circuit.dffs }
    ensures { result ≡ latch_value window.now.window.circuit window.now.decisions literal }
{
    window.decided(latch_var(window, literal.dff))
}

// A value is a bit.
fn is_decided_to(bit: bool, value: Option<Tern>) -> bool
    ensures { result ≡ is_decided_to bit value }
{
    match value {
        None => false,
        Some(Tern::Zero) => !bit,
        Some(Tern::One) => bit,
        Some(Tern::Unk) => false,
    }
}

// A value is there, and isn't a bit.
fn is_decided_against(bit: bool, value: Option<Tern>) -> bool
    ensures { result ≡ is_decided_against bit value }
{
    match value {
        None => false,
        Some(value) => !is_decided_to(bit, Some(value)),
    }
}

// The decisions meet a literal.
fn meets_literal(window: &Window, literal: Literal) -> bool
    requires { literal.dff < length window.now.window.circuit.dffs }
    ensures { result ≡ is_decided_to literal.value
        (latch_value window.now.window.circuit window.now.decisions literal) }
{
    is_decided_to(literal.value, latch_value(window, literal))
}

// The decisions break a literal.
fn breaks_literal(window: &Window, literal: Literal) -> bool
    requires { literal.dff < length window.now.window.circuit.dffs }
    ensures { result ≡ is_decided_against literal.value
        (latch_value window.now.window.circuit window.now.decisions literal) }
{
    is_decided_against(literal.value, latch_value(window, literal))
}

// The decisions meet a clause.
fn meets(window: &Window, clause: &Clause) -> bool
    requires { knows window.now.window.circuit (literals_of clause.now) ≡ true }
    ensures { result ≡ path_meets window.now.window.circuit window.now.decisions
        (literals_of clause.now) }
{
    let first = meets_literal(window, clause.first);
    match clause.second {
        None => first,
        Some(second) => first || meets_literal(window, second),
    }
}

// The decisions break a clause.
fn breaks(window: &Window, clause: &Clause) -> bool
    requires { knows window.now.window.circuit (literals_of clause.now) ≡ true }
    ensures { result ≡ path_breaks window.now.window.circuit window.now.decisions
        (literals_of clause.now) }
{
    let first = breaks_literal(window, clause.first);
    match clause.second {
        None => first,
        Some(second) => first && breaks_literal(window, second),
    }
}

/// The decisions break some clause.
pub fn breaks_some(window: &Window, clauses: &[Clause]) -> bool
    requires { knows_each window.now.window.circuit clauses.now ≡ true }
    ensures { result ≡ list_any
        (path_breaks window.now.window.circuit window.now.decisions)
        (literals_of_each clauses.now) }
{
    for clause in clauses {
        if breaks(window, clause) {
            return true;
        }
    }
    false
}

/// The decisions meet every clause.
pub fn meets_each(window: &Window, clauses: &[Clause]) -> bool
    requires { knows_each window.now.window.circuit clauses.now ≡ true }
    ensures { result ≡ list_all
        (path_meets window.now.window.circuit window.now.decisions)
        (literals_of_each clauses.now) }
{
    for clause in clauses {
        if !meets(window, clause) {
            return false;
        }
    }
    true
}

// A literal's latch is undecided.
fn is_undecided(window: &Window, literal: Literal) -> bool
    requires { literal.dff < length window.now.window.circuit.dffs }
    ensures { result ≡ not (decides window.now.decisions
        (window.now.window.circuit.inputs + literal.dff)) }
{
    latch_value(window, literal).is_none()
}

// The first literal of a clause whose latch is undecided.
fn undecided_literal(window: &Window, clause: &Clause) -> Option<Literal>
    requires { knows window.now.window.circuit (literals_of clause.now) ≡ true }
    ensures { result ≡ find (λ (literal : Literal). not (decides window.now.decisions
        (window.now.window.circuit.inputs + literal.dff))) (literals_of clause.now) }
{
    if is_undecided(window, clause.first) {
        return Some(clause.first);
    }
    match clause.second {
        Some(second) if is_undecided(window, second) => Some(second),
        _ => None,
    }
}

// A literal's latch to its bit.
fn to_literal(window: &Window, literal: Option<Literal>) -> Choice
    requires { (l : Literal) → literal ≡ Some l → l.dff < length window.now.window.circuit.dffs }
    ensures { result ≡ to_literal window.now.window.circuit literal }
{
    match literal {
        None => Choice::Two {
            var: 0,
            first: true,
        },
        Some(literal) => Choice::Two {
            var: latch_var(window, literal.dff),
            first: literal.value,
        },
    }
}

/// The first undecided latch of the first clause that isn't met, first to its literal's bit.
pub fn to_clause(window: &Window, clauses: &[Clause]) -> Choice
    requires { knows_each window.now.window.circuit clauses.now ≡ true }
    ensures { result ≡ to_clause window.now.window.circuit window.now.decisions
        (find (λ literals. not (path_meets window.now.window.circuit window.now.decisions
        literals)) (literals_of_each clauses.now)) }
{
    for clause in clauses {
        if !meets(window, clause) {
            return to_literal(window, undecided_literal(window, clause));
        }
    }
    to_literal(window, None)
}
