//! Starts: what each flip-flop holds before the first vector.
ghost use Rattle.std.specs.Prelude.{◌≡◌, ◌↔◌, IfOk, IsTrue};
ghost use Rattle.ht_net.specs.Detect.Detection.{Allows, some_bit, some_state, unknown_state};

use crate::circuit::Circuit;
use ht_tern::{Tern, refines};
use std::alloc::{AllocError, Global};

/// The start where none is stated: every flip-flop of a circuit is unknown.
///
/// # Errors
/// Out of memory.
pub fn unknown_start(alloc: Global, circuit: &Circuit) -> Result<Vec<Tern>, AllocError>
    ensures { IfOk result (λ latches. latches.items ≡ unknown_state circuit.now) }
{
    let mut latches = Vec::new(alloc);
    latches.resize(circuit.dffs() as usize, Tern::Unk)?;
    Ok(latches)
}

/// Whether a start allows a two-valued state: the state has a bit for each flip-flop, and the one that the start says
/// where it says one.
pub fn allows(start: &[Tern], state: &[bool]) -> bool
    ensures { IsTrue result ↔ Allows start.now state.now }
{
    if start.len() != state.len() {
        return false;
    }
    for (j, value) in start.iter().enumerate() {
        if !refines(Tern::from(state[j]), *value) {
            return false;
        }
    }
    true
}

/// A state that a start allows: 0 where it is unknown.
///
/// # Errors
/// Out of memory.
pub fn some_state(alloc: Global, start: &[Tern]) -> Result<Vec<bool>, AllocError>
    ensures { IfOk result (λ state. state.items ≡ some_state start.now) }
{
    let mut state = Vec::with_capacity(alloc, start.len())?;
    for value in start {
        state.push(some_bit(*value))?;
    }
    Ok(state)
}

// A bit that a value stands for: 0 where it is unknown.
fn some_bit(value: Tern) -> bool
    ensures { result ≡ some_bit value }
{
    match value {
        Tern::One => true,
        Tern::Zero | Tern::Unk => false,
    }
}
