//! Refutations from one named state: an invariant of the state, and a refutation as long as its clauses are met.
ghost use Rattle.std.specs.Prelude.{◌≡◌, ◌↔◌, IfOk, IsTrue};
ghost use Rattle.ht_tree.specs.Record.RefutationsFrom.{RefutesFrom};

use crate::invariants::is_invariant;
use crate::refutations::names_flip_flops;
use crate::window_walks::is_complete_walk;
use ht_items::Items;
use ht_net::Fault;
use ht_recompute::{KeptFrames, RecomputedClauseWindow};
use ht_tree::{Clause, Token};
use std::alloc::{AllocError, Global};

/// Whether a state, clauses, a set of flip-flops and a walk are a refutation of a fault from the state: an invariant,
/// and a complete walk of the one-frame window of the fault and the set under the clauses.
///
/// # Errors
/// Out of memory.
pub fn refutes_from(
    alloc: Global,
    kept: &mut KeptFrames,
    fault: Fault,
    state: &Items<bool>,
    clauses: &Items<Clause>,
    z: &Items<u32>,
    tokens: &Items<Token>,
) -> Result<bool, AllocError>
    ensures passes { IfOk result (λ passes. IsTrue passes
        ↔ RefutesFrom kept.old.circuit fault state.now clauses.now z.now tokens.now) }
    ensures circuit { kept.new.circuit ≡ kept.old.circuit }
{
    let z = z.as_slice();
    let clauses = clauses.as_slice();
    if !names_flip_flops(z, kept.circuit().dffs()) {
        return Ok(false);
    }
    if !is_invariant(alloc, kept, state.as_slice(), clauses)? {
        return Ok(false);
    }
    let window = RecomputedClauseWindow::one_frame(alloc, kept.take(alloc)?, fault, z, clauses)?;
    is_complete_walk(alloc, kept, window, tokens.as_slice())
}
