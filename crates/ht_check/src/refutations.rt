//! Refutations: a set of flip-flops, and a walk that shows that a difference can't leave it.
ghost use Rattle.std.specs.Prelude.{◌≡◌, ◌<◌, ◌↔◌, ℕ, length, get_or, IfOk, IsTrue};
ghost use Rattle.ht_tree.specs.Record.Refutations.{Refutes};
ghost use Rattle.ht_tree.specs.Record.Rising.{Rises};

use crate::window_walks::{is_complete_walk, take_one_frame};
use ht_items::Items;
use ht_net::Fault;
use ht_recompute::KeptFrames;
use ht_tree::Token;
use std::alloc::{AllocError, Global};

/// Whether a set of flip-flops and a walk refute a fault: the flip-flops rise and are the circuit's, and the tokens are a
/// complete walk of the one-frame window of the fault and the set.
///
/// # Errors
/// Out of memory.
pub fn refutes(
    alloc: Global,
    kept: &mut KeptFrames,
    fault: Fault,
    z: &Items<u32>,
    tokens: &Items<Token>,
) -> Result<bool, AllocError>
    ensures passes { IfOk result
        (λ passes. IsTrue passes ↔ Refutes kept.old.circuit fault z.now tokens.now) }
    ensures circuit { kept.new.circuit ≡ kept.old.circuit }
{
    let z = z.as_slice();
    if !names_flip_flops(z, kept.circuit().dffs()) {
        return Ok(false);
    }
    // for the proof: a match is far cheaper to check than `?` on what owns so much
    match take_one_frame(alloc, kept, fault, z) {
        Ok(window) => is_complete_walk(alloc, kept, window, tokens.as_slice()),
        Err(error) => Err(error),
    }
}

/// Whether numbers rise and are below a count.
pub fn names_flip_flops(z: &[u32], count: u32) -> bool
    ensures { IsTrue result
        ↔ (Rises z.now × ((i : ℕ) → i < length z.now → get_or z.now i 0 < count)) }
{
    for i in 0..z.len() {
        if z[i] >= count {
            return false;
        }
        if i + 1 < z.len() && z[i] >= z[i + 1] {
            return false;
        }
    }
    true
}
