//! Clauses, and what decisions and next states make of them.
ghost use Rattle.std.specs.Prelude.{◌≡◌, ◌<◌, Option, Some, length};
ghost use Rattle.std.specs.List.{list_any, list_all};
ghost use Rattle.ht_tree.specs.Clause.Clauses.{is_decided_against, is_decided_to, literals_of};
ghost use Rattle.ht_tree.specs.Clause.ClauseWindows.{open_if_sure};
ghost use Rattle.ht_recompute.specs.WrittenClauses.{breach_in, breaks_in, meets_in, under_in, value_in};

use crate::cube::Matches;
use ht_pairs::PairSet;
use ht_tern::Tern;
use ht_tree::{Clause, Literal, Status3};

// What was decided for a literal's latch.
fn latch_value(decisions: &[Option<Tern>], first: u32, literal: Literal) -> Option<Tern>
    ensures { result ≡ value_in decisions.now first literal }
{
    let var = first as usize + literal.dff as usize;
    if var < decisions.len() {
        decisions[var]
    } else {
        None
    }
}

// Whether a literal's latch was decided to its bit.
fn meets_literal(decisions: &[Option<Tern>], first: u32, literal: Literal) -> bool
    ensures { result ≡ is_decided_to literal.value (value_in decisions.now first literal) }
{
    match latch_value(decisions, first, literal) {
        Some(Tern::Zero) => !literal.value,
        Some(Tern::One) => literal.value,
        Some(Tern::Unk) | None => false,
    }
}

// Whether a literal's latch was decided to another value.
fn breaks_literal(decisions: &[Option<Tern>], first: u32, literal: Literal) -> bool
    ensures { result ≡ is_decided_against literal.value (value_in decisions.now first literal) }
{
    match latch_value(decisions, first, literal) {
        Some(Tern::Zero) => literal.value,
        Some(Tern::One) => !literal.value,
        Some(Tern::Unk) => true,
        None => false,
    }
}

// Whether decisions meet a clause.
fn meets(decisions: &[Option<Tern>], first: u32, clause: &Clause) -> bool
    ensures { result ≡ meets_in decisions.now first (literals_of clause.now) }
{
    let met = meets_literal(decisions, first, clause.first);
    match clause.second {
        None => met,
        Some(literal) => met || meets_literal(decisions, first, literal),
    }
}

// Whether decisions break a clause.
fn breaks(decisions: &[Option<Tern>], first: u32, clause: &Clause) -> bool
    ensures { result ≡ breaks_in decisions.now first (literals_of clause.now) }
{
    let lost = breaks_literal(decisions, first, clause.first);
    match clause.second {
        None => lost,
        Some(literal) => lost && breaks_literal(decisions, first, literal),
    }
}

// Whether decisions meet every clause.
fn meets_each(decisions: &[Option<Tern>], first: u32, clauses: &[Clause]) -> bool
    ensures { result
        ≡ list_all (λ clause. meets_in decisions.now first (literals_of clause)) clauses.now }
{
    clauses.iter().all(|clause| meets(decisions, first, clause))
}

// Whether decisions break some clause.
fn breaks_any(decisions: &[Option<Tern>], first: u32, clauses: &[Clause]) -> bool
    ensures { result
        ≡ list_any (λ clause. breaks_in decisions.now first (literals_of clause)) clauses.now }
{
    clauses
        .iter()
        .any(|clause| breaks(decisions, first, clause))
}

// A status that clauses which aren't met leave: what is sure isn't sure yet.
fn open_if_sure(status: Status3) -> Status3
    ensures { result ≡ open_if_sure status }
{
    match status {
        Status3::Dead => Status3::Dead,
        Status3::Sure | Status3::Open => Status3::Open,
    }
}

/// What clauses make of a status, by decisions. The latches have the variables from `first` on.
pub fn under_clauses(
    decisions: &[Option<Tern>],
    first: u32,
    clauses: &[Clause],
    sought: Status3,
) -> Status3
    ensures { result ≡ under_in decisions.now first clauses.now sought }
{
    if breaks_any(decisions, first, clauses) {
        return Status3::Dead;
    }
    if meets_each(decisions, first, clauses) {
        return sought;
    }
    open_if_sure(sought)
}

/// What next states of these sets make of a clause that is to be missed: Dead where some literal's latch can't have the
/// other bit, Sure where each has it for certain, else Open.
pub fn breach_status(sets: &[PairSet], clause: &Clause) -> Status3
    requires first { clause.now.first.dff < length sets.now }
    requires second { (literal : Literal) → clause.now.second ≡ Some literal
        → literal.dff < length sets.now }
    ensures { result ≡ breach_in sets.now (literals_of clause.now) }
{
    let first = Matches::of_wanted(
        Tern::from(!clause.first.value),
        sets[clause.first.dff as usize],
    );
    match clause.second {
        None => first.status(1),
        Some(literal) => {
            let second = Matches::of_wanted(Tern::from(!literal.value), sets[literal.dff as usize]);
            first.and(second).status(1)
        },
    }
}
