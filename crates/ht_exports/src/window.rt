//! The decisions of a window, which `bench/window` times.
ghost use Rattle.std.specs.Prelude.{◌≡◌, ◌<◌, ◌≤◌};

use crate::netlist::read_circuit;
use ht_tern::Tern;
use ht_window::{MAX_FRAMES, Start, Window};
use std::alloc::{AllocError, Global};

// Decides each input of a frame to 1 that is undecided, in rising order.
fn decide_frame(window: &mut Window, frame: u32, inputs: u32) -> Result<(), AllocError>
    requires frame { frame < window.old.window.frames }
    requires inputs { inputs ≤ window.old.window.circuit.inputs }
    ensures { window.new.window ≡ window.old.window }
{
    for i in 0..inputs {
        let var = window.input_var(frame, i);
        if window.decided(var).is_none() {
            window.decide(var, Tern::One)?;
        }
    }
    Ok(())
}

// Decides each input of each frame.
fn decide_all(window: &mut Window, frames: u32, inputs: u32) -> Result<(), AllocError>
    requires frames { frames ≤ window.old.window.frames }
    requires inputs { inputs ≤ window.old.window.circuit.inputs }
{
    for frame in 0..frames {
        decide_frame(window, frame, inputs)?;
    }
    Ok(())
}

// Takes all decisions back, one by one.
fn undo_all(window: &mut Window)
    ensures { window.new.window ≡ window.old.window }
{
    while window.decision_count() > 0 {
        window.undo_to(window.decision_count() - 1);
    }
}

// Decides all in a window from an unknown state, and takes it back if that is wanted. How many decisions stand then.
fn decisions(alloc: Global, text: &[u8], frames: u32, decide: bool, undo: bool) -> Option<usize>
    requires some { 0 < frames }
    requires few { frames ≤ MAX_FRAMES }
{
    let circuit = read_circuit(alloc, text)?;
    let inputs = circuit.inputs();
    let mut window = Window::new(alloc, &circuit, None, frames, &Start::Unknown).ok()?;
    if decide {
        decide_all(&mut window, frames, inputs).ok()?;
    }
    if undo {
        undo_all(&mut window);
    }
    Some(window.decision_count())
}

/// A window of so many frames from an unknown state. Where `decide` is set each input of each frame is decided to 1,
/// and where `undo` is set all is taken back, one decision after the other. How many decisions stand then; the greatest
/// number where the text is no netlist, the frames are none or too many, or memory ran out.
#[unsafe(no_mangle)]
pub extern "C" fn ht_window_decisions(
    alloc: Global,
    text: &[u8],
    frames: u32,
    decide: bool,
    undo: bool,
) -> u64 {
    if frames == 0 || frames > MAX_FRAMES {
        return u64::MAX;
    }
    match decisions(alloc, text, frames, decide, undo) {
        Some(count) => count as u64,
        None => u64::MAX,
    }
}
