//! Invariants: clauses that a state meets, and that no frame of the good machine leaves.
ghost use Rattle.std.specs.Prelude.{◌≡◌, ◌↔◌, ◌<◌, ◌≤◌, true, length, IfOk, IsTrue};
ghost use Rattle.std.specs.List.{All};
ghost use Rattle.ht_net.specs.Detect.Detection.{IsState};
ghost use Rattle.ht_tree.specs.declared.clause.Clause.{Clause};
ghost use Rattle.ht_tree.specs.Clause.Clauses.{IsClause, literals_of_each, meets_each};
ghost use Rattle.ht_tree.specs.Clause.Invariants.{IsClosedUnder, IsInvariant, max_clauses};

use crate::state_clauses::{are_clauses, are_met};
use crate::window_walks::is_complete_walk;
use ht_net::Circuit;
use ht_recompute::{KeptFrames, RecomputedClauseWindow};
use ht_tree::{Clause, MAX_CLAUSES};
use std::alloc::{AllocError, Global};

// Whether a state has a bit for each flip-flop, there are 1 to 32 clauses of the circuit, and the state meets each.
fn are_met_clauses(circuit: &Circuit, state: &[bool], clauses: &[Clause]) -> bool
    ensures { IsTrue result ↔ (IsState circuit.now state.now × (0 < length clauses.now)
        × (length clauses.now ≤ max_clauses) × All (IsClause circuit.now) clauses.now
        × (meets_each (literals_of_each clauses.now) state.now ≡ true)) }
{
    if state.len() != circuit.dffs() as usize {
        return false;
    }
    if clauses.is_empty() {
        return false;
    }
    if clauses.len() > MAX_CLAUSES {
        return false;
    }
    if !are_clauses(circuit, clauses) {
        return false;
    }
    are_met(state, clauses)
}

// Whether a clause has a complete walk of its closing window under clauses.
fn is_closed(
    alloc: Global,
    kept: &mut KeptFrames,
    clauses: &[Clause],
    clause: &Clause,
) -> Result<bool, AllocError>
    requires clause { IsClause kept.old.circuit clause.now }
    requires clauses { All (IsClause kept.old.circuit) clauses.now }
    ensures closed { IfOk result
        (λ closed. IsTrue closed ↔ IsClosedUnder kept.old.circuit clauses.now clause.now) }
    ensures circuit { kept.new.circuit ≡ kept.old.circuit }
{
    let window = RecomputedClauseWindow::closing(alloc, kept.take(alloc)?, clause, clauses)?;
    is_complete_walk(alloc, kept, window, clause.tokens.as_slice())
}

// Whether each clause has a complete walk of its closing window under all of them.
fn are_closed(alloc: Global, kept: &mut KeptFrames, clauses: &[Clause]) -> Result<bool, AllocError>
    requires { All (IsClause kept.old.circuit) clauses.now }
    ensures closed { IfOk result
        (λ closed. IsTrue closed ↔ All (IsClosedUnder kept.old.circuit clauses.now) clauses.now) }
    ensures circuit { kept.new.circuit ≡ kept.old.circuit }
{
    for clause in clauses {
        if !is_closed(alloc, kept, clauses, clause)? {
            return Ok(false);
        }
    }
    Ok(true)
}

/// Whether a state and clauses are an invariant of the circuit of frames that are kept: a bit for each flip-flop, 1 to
/// 32 clauses of flip-flops that rise, each met by the state and each with a complete walk of its closing window under
/// all of them.
///
/// # Errors
/// Out of memory.
pub fn is_invariant(
    alloc: Global,
    kept: &mut KeptFrames,
    state: &[bool],
    clauses: &[Clause],
) -> Result<bool, AllocError>
    ensures invariant { IfOk result
        (λ yes. IsTrue yes ↔ IsInvariant kept.old.circuit state.now clauses.now) }
    ensures circuit { kept.new.circuit ≡ kept.old.circuit }
{
    if !are_met_clauses(kept.circuit(), state, clauses) {
        return Ok(false);
    }
    are_closed(alloc, kept, clauses)
}
