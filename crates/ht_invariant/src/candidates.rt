//! The clauses with which the rounds begin.
ghost use Rattle.std.specs.Prelude.{◌≡◌, ◌<◌, ◌+◌, ◌-◌, ◌^◌, ◌∷◌, [], take, filter, flat_map, min, length, None, Some, IfOk, OnOk};
ghost use Rattle.std.specs.List.{range_with_len};
ghost use Rattle.ht_tree.specs.Clause.Invariants.{max_clauses};
ghost use Rattle.ht_invariant.specs.FoundClauses.{candidates_of, clause_of, is_met_by_each, literal, of_two, reach};
ghost use Rattle.ht_invariant.specs.Offers.{offered};

use crate::states::all_meet;
use ht_items::{FlatRows, Items};
use ht_tree::{Clause, Literal, MAX_CLAUSES};
use std::alloc::{AllocError, Global};

// A second literal is of one of so many flip-flops after the first.
const REACH: u32 = 8;

// A clause without a walk.
fn clause(alloc: Global, first: Literal, second: Option<Literal>) -> Clause
    ensures { result ≡ clause_of first second }
{
    Clause {
        first,
        second,
        tokens: Items::new(alloc),
    }
}

// One more candidate, if it holds at each state and there is room.
fn offer(
    kept: &mut Vec<Clause>,
    states: &FlatRows<bool>,
    candidate: Clause,
) -> Result<(), AllocError>
    ensures { OnOk result (kept.new.items
        ≡ offered (is_met_by_each states.now) kept.old.items (candidate ∷ [])) }
{
    if kept.len() >= MAX_CLAUSES {
        return Ok(());
    }
    if !all_meet(states, &candidate) {
        return Ok(());
    }
    kept.push(candidate)?;
    Ok(())
}

// The clause of two flip-flops and a bit of each.
fn of_two(alloc: Global, i: u32, v: bool, j: u32, w: bool) -> Clause
    ensures { result ≡ clause_of (literal i v) (Some (literal j w)) }
{
    clause(
        alloc,
        Literal { dff: i, value: v },
        Some(Literal { dff: j, value: w }),
    )
}

// The four clauses of two flip-flops.
fn offer_pairs(
    alloc: Global,
    kept: &mut Vec<Clause>,
    states: &FlatRows<bool>,
    i: u32,
    j: u32,
) -> Result<(), AllocError>
    ensures { OnOk result (kept.new.items
        ≡ offered (is_met_by_each states.now) kept.old.items (of_two i j)) }
{
    offer(kept, states, of_two(alloc, i, false, j, false))?;
    offer(kept, states, of_two(alloc, i, false, j, true))?;
    offer(kept, states, of_two(alloc, i, true, j, false))?;
    offer(kept, states, of_two(alloc, i, true, j, true))?;
    Ok(())
}

// The clauses whose first literal is of flip-flop i.
fn offer_from(
    alloc: Global,
    kept: &mut Vec<Clause>,
    states: &FlatRows<bool>,
    i: u32,
    value: bool,
    count: u32,
) -> Result<(), AllocError>
    requires { i < count }
    ensures { OnOk result (kept.new.items
        ≡ offered (is_met_by_each states.now) kept.old.items
        (clause_of (literal i value) None ∷ flat_map (of_two i)
        (range_with_len (i + 1) (min reach (count - (i + 1)))))) }
{
    offer(kept, states, clause(alloc, Literal { dff: i, value }, None))?;
    let next = i + 1;
    let few = REACH.min(count - next);
    for k in 0..few {
        offer_pairs(alloc, kept, states, i, next + k)?;
    }
    Ok(())
}

/// The first candidates of a state that each of some states meets, as many as an invariant may have.
///
/// # Errors
/// Out of memory.
pub fn kept_candidates(
    alloc: Global,
    state: &[bool],
    states: &FlatRows<bool>,
) -> Result<Vec<Clause>, AllocError>
    requires { length state.now < 2 ^ 32 }
    ensures { IfOk result (λ kept. kept.items
        ≡ take max_clauses (filter (is_met_by_each states.now) (candidates_of state.now))) }
{
    let mut kept = Vec::new(alloc);
    for i in 0..state.len() {
        offer_from(
            alloc,
            &mut kept,
            states,
            i as u32,
            state[i],
            state.len() as u32,
        )?;
    }
    Ok(kept)
}
