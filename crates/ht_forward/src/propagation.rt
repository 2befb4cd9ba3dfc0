//! The propagation of a difference from a pair of states.
ghost use Rattle.std.specs.Prelude.{◌≡◌, length, IfOk};
ghost use Rattle.ht_tree.specs.Window.Windows.{forward_frames, forward_window};
ghost use Rattle.ht_forward.specs.AheadSearches.{AheadHolds, IsAhead};

use crate::ahead::{Ahead, search_ahead};
use ht_items::Items;
use ht_net::{Circuit, Fault};
use ht_tree::FORWARD_FRAMES;
use ht_window::{Bases, PairState, Start};
use std::alloc::{AllocError, Global};

/// Searches the window of 16 frames from a state of the good machine and one of the faulty machine, which have a
/// value for each flip-flop, for a list of vectors that shows their difference at an output. Each token weighs 16.
///
/// # Errors
/// Out of memory.
pub fn propagate(
    alloc: Global,
    circuit: &Circuit,
    fault: Fault,
    state: &PairState,
    budget: u64,
) -> Result<Ahead, AllocError>
    requires good { length state.now.good ≡ length circuit.now.dffs }
    requires bad { length state.now.bad ≡ length circuit.now.dffs }
    ensures answer { IfOk result (IsAhead
        (forward_window circuit.now fault forward_frames state.now.good state.now.bad) budget) }
    ensures holds { IfOk result
        (AheadHolds circuit.now fault state.now.good state.now.bad budget) }
{
    let mut bases = Bases::new(alloc, circuit)?;
    propagate_from_bases(alloc, &mut bases, fault, state, budget)
}

/// What `propagate` does for the circuit of some bases, from which the window is copied.
///
/// # Errors
/// Out of memory.
#[tactic(auto, using(crate::proofs::AheadLaws::ahead_holds))]
pub fn propagate_from_bases(
    alloc: Global,
    bases: &mut Bases,
    fault: Fault,
    state: &PairState,
    budget: u64,
) -> Result<Ahead, AllocError>
    requires good { length state.now.good ≡ length bases.old.circuit.dffs }
    requires bad { length state.now.bad ≡ length bases.old.circuit.dffs }
    ensures circuit { bases.new.circuit ≡ bases.old.circuit }
    ensures answer { IfOk result (IsAhead
        (forward_window bases.old.circuit fault forward_frames state.now.good state.now.bad)
        budget) }
    ensures holds { IfOk result
        (AheadHolds bases.old.circuit fault state.now.good state.now.bad budget) }
{
    let state = PairState {
        good: Items::from_slice(alloc, state.good.as_slice())?,
        bad: Items::from_slice(alloc, state.bad.as_slice())?,
    };
    let start = Start::Pair { state };
    search_ahead(alloc, bases, fault, FORWARD_FRAMES, &start, budget)
}
