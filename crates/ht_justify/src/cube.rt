//! Cubes: the values that are wanted of latches, unknown where none is.
ghost use Rattle.std.specs.Prelude.{◌≡◌, IfOk};
ghost use Rattle.ht_tree.specs.Window.Nodes.{cube_of, or_unknown};
ghost use Rattle.ht_tree.specs.Record.AimedAttempts.{is_wanting};

use ht_items::Items;
use ht_tern::Tern;
use ht_window::Window;
use std::alloc::{AllocError, Global};

/// Whether a cube wants some latch at 0 or 1.
pub fn is_wanting(cube: &[Tern]) -> bool
    ensures { result ≡ is_wanting cube.now }
{
    for value in cube {
        match *value {
            Tern::Zero | Tern::One => return true,
            Tern::Unk => {},
        }
    }
    false
}

// The value of a decision; unknown where there is none.
fn or_unknown(value: Option<Tern>) -> Tern
    ensures { result ≡ or_unknown value }
{
    match value {
        Some(value) => value,
        None => Tern::Unk,
    }
}

/// The latches that a window decided, as a cube.
///
/// # Errors
/// Out of memory.
pub fn decided_cube(alloc: Global, window: &Window) -> Result<Items<Tern>, AllocError>
    ensures { IfOk result (λ cube. cube
        ≡ cube_of window.now.window.circuit window.now.decisions) }
{
    let circuit = window.circuit();
    // for the proof: the circuit is well formed
    let _ = circuit.nets();
    let mut cube = Items::new(alloc);
    for j in 0..circuit.dffs() {
        cube.push(or_unknown(window.decided(circuit.inputs() + j)))?;
    }
    Ok(cube)
}
