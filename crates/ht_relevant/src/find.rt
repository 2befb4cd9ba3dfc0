//! How the nets are found that matter in a window.
ghost use Rattle.std.specs.Prelude.{◌≡◌, ◌<◌, ◌≤◌, ◌⊎◌, ℕ, true, false, Some, length, get_or, IfOk, OnOk};
ghost use Rattle.ht_net.specs.Circuit.Netlist.{net_count, no_net};
ghost use Rattle.ht_net.specs.Frames.Faults.{is_data_pin};
ghost use Rattle.ht_tree.specs.Window.Windows.{IsWindow, SearchWindow};
ghost use Rattle.ht_relevant.specs.Distances.{HasGrown, number_of};
ghost use Rattle.ht_relevant.specs.Near.{matters};
ghost use Rattle.ht_relevant.specs.Reached.{may_begin_apart};
ghost use Rattle.ht_relevant.specs.Relevant.{IsRelevant, counts_state};

use crate::away::find_away;
use crate::distances::Distances;
use crate::flags::is_set;
use crate::relevant::Relevant;
use crate::spread::spread;
use crate::way::Way;
use ht_events::{FramePlan, MAX_FRAMES};
use ht_net::{Circuit, Fault, Site};
use std::alloc::{AllocError, Global};

// The outputs that are in reach.
fn put_outputs(circuit: &Circuit, away: &Distances, near: &mut Distances) -> Result<(), AllocError>
    requires reach { length away.now.numbers ≡ net_count circuit.now }
    requires count { length near.old.numbers ≡ net_count circuit.now }
    ensures grown { OnOk result (HasGrown near.old near.new) }
    ensures put { OnOk result ((o : ℕ) → o < length circuit.now.outputs
        → number_of away.now (get_or circuit.now.outputs o no_net).0 < away.now.frames
        → number_of near.new (get_or circuit.now.outputs o no_net).0 ≤ near.new.distance) }
{
    // for the proof: the circuit is well formed
    let _ = circuit.nets();
    for o in 0..circuit.outputs() {
        let net = circuit.output(o).0;
        let shown = away.has(net);
        near.put_if(net, shown)?;
    }
    Ok(())
}

// Whether a line is the data pin of a flip-flop.
fn is_data_pin(site: Site, j: u32) -> bool
    ensures { result ≡ is_data_pin site j }
{
    match site {
        Site::DffPin { dff } => j == dff,
        Site::Stem(_) | Site::GatePin { gate: _, pin: _ } => false,
    }
}

// Whether a flip-flop is marked, and its data net is in reach or its data pin is stuck.
fn is_shown(away: &Distances, site: Site, counted: &[bool], j: u32, net: u32) -> bool
    requires net { net < length away.now.numbers }
    ensures { get_or counted.now j false ≡ true
        → (number_of away.now net < away.now.frames) ⊎ (is_data_pin site j ≡ true)
        → result ≡ true }
{
    if !is_set(counted, j) {
        return false;
    }
    if away.has(net) {
        return true;
    }
    is_data_pin(site, j)
}

// What the flip-flops take for the next frame that are counted, where it is in reach or the line is the data pin.
fn put_states(
    circuit: &Circuit,
    site: Site,
    counted: &[bool],
    away: &Distances,
    near: &mut Distances,
) -> Result<(), AllocError>
    requires reach { length away.now.numbers ≡ net_count circuit.now }
    requires count { length near.old.numbers ≡ net_count circuit.now }
    ensures grown { OnOk result (HasGrown near.old near.new) }
    ensures put { OnOk result ((j : ℕ) → j < length circuit.now.dffs
        → get_or counted.now j false ≡ true
        → (number_of away.now (get_or circuit.now.dffs j no_net).0 < away.now.frames)
        ⊎ (is_data_pin site j ≡ true)
        → number_of near.new (get_or circuit.now.dffs j no_net).0 ≤ near.new.distance) }
{
    // for the proof: the circuit is well formed
    let _ = circuit.nets();
    for j in 0..circuit.dffs() {
        let net = circuit.dff_data(j).0;
        let shown = is_shown(away, site, counted, j, net);
        near.put_if(net, shown)?;
    }
    Ok(())
}

/// The nets that matter in so many frames of a circuit in which a fault is looked for: those that are read at the places
/// that it can reach. The latches of the first frame that are marked in `apart` may differ too, and the next states count
/// of the flip-flops that are marked in `counted`.
///
/// # Errors
/// Out of memory.
pub fn find_relevant(
    alloc: Global,
    frame_plan: &FramePlan,
    frames: u32,
    fault: Fault,
    apart: &[bool],
    counted: &[bool],
) -> Result<Relevant, AllocError>
    requires some { 0 < frames }
    requires few { frames ≤ MAX_FRAMES }
    ensures frames { IfOk result (λ r. r.frames ≡ frames) }
    ensures relevant { IfOk result (λ r. (w : SearchWindow) → IsWindow w
        → w.circuit ≡ frame_plan.now.circuit → w.fault ≡ Some fault → w.frames ≡ frames
        → ((j : ℕ) → j < length w.circuit.dffs → may_begin_apart w.start j ≡ true
        → get_or apart.now j false ≡ true)
        → ((j : ℕ) → j < length w.circuit.dffs → counts_state w.start j ≡ true
        → get_or counted.now j false ≡ true)
        → IsRelevant w (matters r)) }
{
    let circuit = frame_plan.circuit();
    let away = find_away(alloc, frame_plan, frames, fault, apart)?;
    let mut near = Distances::new(alloc, circuit.nets(), frames)?;
    put_outputs(circuit, &away, &mut near)?;
    put_states(circuit, fault.site, counted, &away, &mut near)?;
    spread(frame_plan, Way::Drivers, &mut near)?;
    Ok(Relevant {
        frames,
        near: near.into_numbers(),
    })
}
