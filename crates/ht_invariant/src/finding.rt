//! The search for an invariant.
ghost use Rattle.std.specs.Prelude.{◌≡◌, ◌<◌, ℕ, [], true, length, IfOk, OnOk};
ghost use Rattle.ht_tree.specs.Clause.ClauseWindows.{good_window};
ghost use Rattle.ht_tree.specs.Clause.Invariants.{IsInvariant};
ghost use Rattle.ht_invariant.specs.Trials.{knows_each};
ghost use Rattle.ht_invariant.specs.ClosingRounds.{AreClosingRounds};
ghost use Rattle.ht_invariant.specs.FoundClauses.{FindsClauses, first_clauses};

use crate::candidates::kept_candidates;
use crate::closing::closing_round;
use crate::marks::no_marks;
use crate::states::tried_states;
use ht_items::Items;
use ht_net::Circuit;
use ht_tree::Clause;
use ht_window::{Bases, Start, Window};
use std::alloc::{AllocError, Global};

/// A state, and clauses that it meets and that no frame of the good machine breaks: each has a complete walk of its
/// closing window under all of them.
#[derive(Drop)]
pub struct Invariant {
    /// A bit for each flip-flop.
    pub state: Items<bool>,
    /// The clauses, at most 32.
    pub clauses: Items<Clause>,
}

// The rounds: the first that drops none gives the walks. A clause was searched under all that were kept then, so where
// one is dropped the others are searched again. A round costs at most 32 searches.
fn close_clauses(
    alloc: Global,
    window: Window,
    clauses: &mut Vec<Clause>,
    budget: u64,
) -> Result<(), AllocError>
    requires good { window.window ≡ good_window window.window.circuit }
    requires start { window.decisions ≡ [] }
    requires known { knows_each window.window.circuit clauses.old.items ≡ true }
    ensures { OnOk result ((n : ℕ) × AreClosingRounds window.entry.window.circuit budget n
        clauses.old.items clauses.new.items) }
{
    let mut current = window;
    'rounds: loop {
        let count = clauses.len();
        let after = closing_round(alloc, current, clauses, budget)?;
        current = after;
        if clauses.len() == count {
            // for the proof: dropped by name
            drop(current);
            return Ok(());
        }
    }
}

// The window of all closing windows, before its first decision.
fn closing_base<'c>(alloc: Global, circuit: &'c Circuit) -> Result<Window<'c>, AllocError>
    ensures window { IfOk result (λ window. window.window ≡ good_window circuit.now) }
    ensures decisions { IfOk result (λ window. window.decisions ≡ []) }
{
    // for the proof: the circuit is well formed
    let _ = circuit.nets();
    let marks = no_marks(alloc, circuit.dffs() as usize)?;
    let z = Items::from_vec(marks);
    let mut bases = Bases::new(alloc, circuit)?;
    let window = bases.window(alloc, None, 1, &Start::OneFrame { z });
    // for the proof: dropped by name
    drop(bases);
    window
}

// The clauses with which the rounds begin.
fn first_clauses(
    alloc: Global,
    circuit: &Circuit,
    state: &[bool],
) -> Result<Vec<Clause>, AllocError>
    requires { length state.now ≡ length circuit.now.dffs }
    ensures { IfOk result (λ clauses. clauses.items ≡ first_clauses circuit.now state.now) }
{
    // for the proof: the circuit is well formed
    let _ = circuit.nets();
    let states = tried_states(alloc, circuit, state)?;
    let clauses = kept_candidates(alloc, state, &states);
    // for the proof: dropped by name
    drop(states);
    clauses
}

/// Finds clauses on the latches that hold in every run of the good machine from a state, which has a bit for each
/// flip-flop. There may be none.
///
/// A candidate says that the latch of one flip-flop keeps its bit of the state, or that one of two flip-flops, the
/// second at most 8 after the first, has a bit. The first 32 are taken that the state meets, and each state after 1 to
/// 64 frames from it under the random vectors of seed 0. Then rounds begin: the closing window of each clause is
/// searched under those that are still kept, with the whole budget, of which a token takes one, and a clause whose
/// search isn't closed is dropped at once. The first round that drops none gives the walks.
///
/// # Errors
/// Out of memory.
pub fn find(
    alloc: Global,
    circuit: &Circuit,
    state: &[bool],
    budget: u64,
) -> Result<Invariant, AllocError>
    requires { length state.now ≡ length circuit.now.dffs }
    ensures state { IfOk result (λ invariant. invariant.state ≡ state.now) }
    ensures clauses { IfOk result
        (λ invariant. FindsClauses circuit.now budget state.now invariant.clauses) }
    ensures holds { IfOk result (λ invariant. 0 < length invariant.clauses
        → IsInvariant circuit.now state.now invariant.clauses) }
{
    // for the proof: the circuit is well formed
    let _ = circuit.nets();
    let mut clauses = first_clauses(alloc, circuit, state)?;
    let window = closing_base(alloc, circuit)?;
    close_clauses(alloc, window, &mut clauses, budget)?;
    let state = Items::from_slice(alloc, state)?;
    Ok(Invariant {
        state,
        clauses: Items::from_vec(clauses),
    })
}
