//! How many frames a fault needs to reach each net.
ghost use Rattle.std.specs.Prelude.{◌≡◌, ◌<◌, ◌≤◌, ◌+◌, ℕ, true, false, Some, length, get_or, IfOk, IfSome, OnOk};
ghost use Rattle.ht_net.specs.Circuit.Netlist.{net_count};
ghost use Rattle.ht_tree.specs.Window.Windows.{SearchWindow};
ghost use Rattle.ht_relevant.specs.Distances.{HasGrown, number_of};
ghost use Rattle.ht_relevant.specs.Near.{has_come};
ghost use Rattle.ht_relevant.specs.Reached.{IsReach, leads_to, may_begin_apart};

use crate::distances::Distances;
use crate::flags::is_set;
use crate::spread::spread;
use crate::way::Way;
use ht_events::{FramePlan, MAX_FRAMES};
use ht_net::{Circuit, Fault, Site};
use std::alloc::{AllocError, Global};

// The net whose stem a line is, or whose driver has it for a pin; none where the circuit has no such line.
fn first_net(circuit: &Circuit, site: Site) -> Option<u32>
    ensures inside { IfSome result (λ x. x < net_count circuit.now) }
    ensures only { (x : ℕ) → x < net_count circuit.now → leads_to circuit.now site x ≡ true
        → result ≡ Some x }
{
    // for the proof: the circuit is well formed
    let _ = circuit.nets();
    match site {
        Site::Stem(net) if net.0 < circuit.nets() => Some(net.0),
        Site::DffPin { dff } if dff < circuit.dffs() => Some(circuit.dff_net(dff).0),
        Site::GatePin { gate, pin: _ } if gate < circuit.gates() => {
            Some(circuit.gate_net(gate).0)
        },
        _ => None,
    }
}

// A difference begins at the first net that the line changes.
fn begin_line(circuit: &Circuit, site: Site, away: &mut Distances) -> Result<(), AllocError>
    requires count { length away.old.numbers ≡ net_count circuit.now }
    ensures grown { OnOk result (HasGrown away.old away.new) }
    ensures begun { OnOk result ((x : ℕ) → x < net_count circuit.now
        → leads_to circuit.now site x ≡ true → number_of away.new x ≤ away.new.distance) }
{
    let Some(net) = first_net(circuit, site) else {
        return Ok(());
    };
    away.put(net)?;
    Ok(())
}

// A difference begins at the latches that are marked.
fn begin_latches(circuit: &Circuit, apart: &[bool], away: &mut Distances) -> Result<(), AllocError>
    requires count { length away.old.numbers ≡ net_count circuit.now }
    ensures grown { OnOk result (HasGrown away.old away.new) }
    ensures begun { OnOk result ((j : ℕ) → j < length circuit.now.dffs
        → get_or apart.now j false ≡ true
        → number_of away.new (circuit.now.inputs + j) ≤ away.new.distance) }
{
    // for the proof: the circuit is well formed
    let _ = circuit.nets();
    let inputs = circuit.inputs();
    for j in 0..circuit.dffs() {
        away.put_if(inputs + j, is_set(apart, j))?;
    }
    Ok(())
}

/// How many frames a fault needs at the least to reach each net of so many frames, where the latches of the first frame
/// that are marked may differ too.
///
/// # Errors
/// Out of memory.
pub fn find_away(
    alloc: Global,
    frame_plan: &FramePlan,
    frames: u32,
    fault: Fault,
    apart: &[bool],
) -> Result<Distances, AllocError>
    requires some { 0 < frames }
    requires few { frames ≤ MAX_FRAMES }
    ensures count { IfOk result
        (λ away. length away.numbers ≡ net_count frame_plan.now.circuit) }
    ensures frames { IfOk result (λ away. away.frames ≡ frames) }
    ensures reach { IfOk result (λ away. (w : SearchWindow) → w.circuit ≡ frame_plan.now.circuit
        → w.fault ≡ Some fault → w.frames ≡ frames
        → ((j : ℕ) → j < length w.circuit.dffs → may_begin_apart w.start j ≡ true
        → get_or apart.now j false ≡ true)
        → IsReach w (has_come (number_of away))) }
{
    let circuit = frame_plan.circuit();
    let mut away = Distances::new(alloc, circuit.nets(), frames)?;
    begin_line(circuit, fault.site, &mut away)?;
    begin_latches(circuit, apart, &mut away)?;
    spread(frame_plan, Way::Readers, &mut away)?;
    Ok(away)
}
