//! The sets of a whole window, frame by frame.
ghost use Rattle.std.specs.Prelude.{◌≡◌, ◌<◌, ◌≤◌, ◌+◌, ℕ, None, length, get_or, IfOk};
ghost use Rattle.ht_net.specs.Circuit.Netlist.{net_count};
ghost use Rattle.ht_tree.specs.Window.Windows.{cell_at, first_latches, frame_inputs, latches_at};
ghost use Rattle.ht_window.specs.Cells.{AreCells, blank, cell_count};
ghost use Rattle.ht_window.specs.Matters.{is_relevant};

use crate::decisions::Decisions;
use ht_events::MAX_FRAMES;
use ht_frame::{MAX_GATE_PINS, capture, settle};
use ht_pairs::PairSet;
use std::alloc::{AllocError, Global};

// Room for so many sets.
fn room_for(alloc: Global, count: usize) -> Result<Vec<PairSet>, AllocError>
    ensures { IfOk result (λ sets. length sets.items ≡ count) }
{
    vec![in alloc; PairSet::both_same(); count]
}

// Gives each input of a frame its set.
fn write_inputs(decisions: &Decisions, frame: u32, vector: &mut [PairSet])
    requires frame { frame < decisions.now.window.frames }
    requires room { length vector.old ≡ decisions.now.window.circuit.inputs }
    ensures { vector.new ≡ frame_inputs decisions.now.window decisions.now.path frame }
{
    for i in 0..decisions.inputs() {
        vector[i as usize] = decisions.input(frame, i);
    }
}

// Gives each latch of the first frame its set.
fn write_latches(decisions: &Decisions, latches: &mut [PairSet])
    requires { length latches.old ≡ length decisions.now.window.circuit.dffs }
    ensures { latches.new ≡ first_latches decisions.now.window decisions.now.path }
{
    for j in 0..decisions.dffs() {
        latches[j as usize] = decisions.first_latch(j);
    }
}

// Gives each net of a frame its set, and the latches those that they take for the next one. What `vector`, `row` and
// `pins` held before plays no part.
fn run_frame(
    decisions: &Decisions,
    frame: u32,
    vector: &mut [PairSet],
    latches: &mut [PairSet],
    row: &mut [PairSet],
    pins: &mut [PairSet],
)
    requires frame { frame < decisions.now.window.frames }
    requires vector { length vector.old ≡ decisions.now.window.circuit.inputs }
    requires dffs { length latches.old ≡ length decisions.now.window.circuit.dffs }
    requires latches { latches.old ≡ latches_at decisions.now.window decisions.now.path frame }
    requires row { length row.old ≡ net_count decisions.now.window.circuit }
    requires pins { length pins.old ≡ MAX_GATE_PINS }
    ensures row { (x : ℕ) → x < net_count decisions.now.window.circuit → get_or row.new x blank
        ≡ cell_at decisions.now.window decisions.now.path frame x }
    ensures latches { latches.new ≡ latches_at decisions.now.window decisions.now.path (frame + 1) }
{
    let circuit = decisions.circuit();
    let fault = decisions.fault();
    write_inputs(decisions, frame, vector);
    settle(circuit, fault, vector, latches, row, pins);
    capture(circuit, fault, row, latches);
}

/// The set of each net in each frame, under the decisions that stand: net x of frame f has index f * (number of nets) +
/// x.
///
/// # Errors
/// Out of memory.
pub fn all_sets(alloc: Global, decisions: &Decisions) -> Result<Vec<PairSet>, AllocError>
    requires { decisions.now.window.frames ≤ MAX_FRAMES }
    ensures count { IfOk result (λ sets. length sets.items ≡ cell_count decisions.now.window) }
    ensures cells { IfOk result
        (λ sets. AreCells decisions.now.window (is_relevant None) decisions.now.path sets.items) }
{
    let circuit = decisions.circuit();
    let nets = circuit.nets() as usize;
    let mut vector = room_for(alloc, circuit.inputs() as usize)?;
    let mut latches = room_for(alloc, circuit.dffs() as usize)?;
    let mut row = room_for(alloc, nets)?;
    let mut pins = room_for(alloc, MAX_GATE_PINS)?;
    let mut sets = Vec::with_capacity(alloc, decisions.frames() as usize * nets)?;
    write_latches(decisions, &mut latches);
    for frame in 0..decisions.frames() {
        run_frame(
            decisions,
            frame,
            &mut vector,
            &mut latches,
            &mut row,
            &mut pins,
        );
        sets.extend_from_slice(&row)?;
    }
    Ok(sets)
}
