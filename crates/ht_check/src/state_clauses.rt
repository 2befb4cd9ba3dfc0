//! Clauses of a circuit, and which of them a state meets.
ghost use Rattle.std.specs.Prelude.{◌≡◌, ◌↔◌, IsTrue};
ghost use Rattle.std.specs.List.{All, list_all};
ghost use Rattle.ht_tree.specs.Clause.Clauses.{IsClause, literals_of, literals_of_each, meets, meets_each, meets_literal};

use ht_net::Circuit;
use ht_tree::{Clause, Literal};

// Whether a state has a literal's bit.
fn has(state: &[bool], literal: Literal) -> bool
    ensures { result ≡ meets_literal state.now literal }
{
    let dff = literal.dff as usize;
    let bit = if dff < state.len() { state[dff] } else { false };
    if literal.value { bit } else { !bit }
}

// Whether a state meets a clause.
fn is_met(state: &[bool], clause: &Clause) -> bool
    ensures { result ≡ meets state.now (literals_of clause.now) }
{
    has(state, clause.first) || clause.second.is_some_and(|second| has(state, second))
}

// Whether a state meets every clause, one by one.
fn is_each_met(state: &[bool], clauses: &[Clause]) -> bool
    ensures { result ≡ list_all (λ clause. meets state.now (literals_of clause)) clauses.now }
{
    clauses.iter().all(|clause| is_met(state, clause))
}

/// Whether a state meets every clause.
pub fn are_met(state: &[bool], clauses: &[Clause]) -> bool
    ensures { result ≡ meets_each (literals_of_each clauses.now) state.now }
{
    is_each_met(state, clauses)
}

// Whether the flip-flops of a clause are the circuit's, and rise.
fn is_clause(circuit: &Circuit, clause: &Clause) -> bool
    ensures { IsTrue result ↔ IsClause circuit.now clause.now }
{
    let dffs = circuit.dffs();
    if clause.first.dff >= dffs {
        return false;
    }
    match clause.second {
        None => true,
        Some(literal) => clause.first.dff < literal.dff && literal.dff < dffs,
    }
}

/// Whether all clauses are the circuit's.
pub fn are_clauses(circuit: &Circuit, clauses: &[Clause]) -> bool
    ensures { IsTrue result ↔ All (IsClause circuit.now) clauses.now }
{
    for clause in clauses {
        if !is_clause(circuit, clause) {
            return false;
        }
    }
    true
}
