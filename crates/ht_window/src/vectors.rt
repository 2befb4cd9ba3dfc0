//! The vectors that the decisions of a window give.
ghost use Rattle.std.specs.Prelude.{◌≡◌, ◌≤◌, ◌<◌, IfOk};
ghost use Rattle.ht_tree.specs.Walk.FoundLists.{bit_or_zero, list_of, vector_of};

use crate::window::Window;
use ht_net::Vectors;
use ht_tern::Tern;
use std::alloc::{AllocError, Global};

// The bit of a decision; 0 where there is none.
fn bit_or_zero(value: Option<Tern>) -> bool
    ensures { result ≡ bit_or_zero value }
{
    matches!(value, Some(Tern::One))
}

/// The vector of a frame as the decisions give it, with 0 for each input that is undecided. Frames count from 0.
///
/// # Errors
/// Out of memory.
pub fn vector(alloc: Global, window: &Window, frame: u32) -> Result<Vec<bool>, AllocError>
    requires { frame < window.now.window.frames }
    ensures { IfOk result (λ vector. vector.items
        ≡ vector_of window.now.window.circuit window.now.decisions frame) }
{
    let mut vector = Vec::new(alloc);
    for i in 0..window.circuit().inputs() {
        let var = window.input_var(frame, i);
        vector.push(bit_or_zero(window.decided(var)))?;
    }
    Ok(vector)
}

/// The vectors of the first frames.
///
/// # Errors
/// Out of memory.
pub fn list(alloc: Global, window: &Window, frames: u32) -> Result<Vectors, AllocError>
    requires { frames ≤ window.now.window.frames }
    ensures { IfOk result (λ list. list ≡ record {
      width = window.now.window.circuit.inputs;
      list = list_of window.now.window.circuit window.now.decisions frames;
    }) }
{
    let mut list = Vectors::new(alloc, window.circuit().inputs());
    for frame in 0..frames {
        let row = vector(alloc, window, frame)?;
        list.push(&row)?;
    }
    Ok(list)
}
