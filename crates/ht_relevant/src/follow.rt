//! Where nets lead.
ghost use Rattle.std.specs.Prelude.{◌≡◌, ◌<◌, ◌≤◌, ◌+◌, ℕ, length, OnOk};
ghost use Rattle.ht_events.specs.Items.{frame_items};
ghost use Rattle.ht_net.specs.Circuit.Netlist.{arg_at, gate_at, net_count};
ghost use Rattle.ht_relevant.specs.declared.way.Way.TheVariants.{Readers, Drivers};
ghost use Rattle.ht_relevant.specs.Distances.{HasGrown, IsFollowed, number_of};
ghost use Rattle.ht_relevant.specs.Offsets.{IsTaken};

use crate::distances::Distances;
use crate::way::Way;
use ht_events::FramePlan;
use ht_net::{Circuit, NetId};
use std::alloc::AllocError;

// Follows a net to the reader at an offset: a gate of its own frame, or a flip-flop one frame on.
#[inline(always)]
fn take(frame_plan: &FramePlan, offset: u32, distances: &mut Distances) -> Result<(), AllocError>
    requires small { offset
        < frame_items frame_plan.now.circuit + frame_items frame_plan.now.circuit }
    requires count { length distances.old.numbers ≡ net_count frame_plan.now.circuit }
    ensures grown { OnOk result (HasGrown distances.old distances.new) }
    ensures taken { OnOk result (IsTaken frame_plan.now distances.new offset) }
{
    let items = frame_plan.items();
    if offset < items {
        let gate = frame_plan.net(frame_plan.item(offset));
        distances.put(gate.0)?;
    } else {
        let dff = frame_plan.net(frame_plan.item(offset - items));
        distances.put_next(dff.0)?;
    }
    Ok(())
}

// Follows a gate to what it reads.
fn put_arguments(circuit: &Circuit, g: u32, distances: &mut Distances) -> Result<(), AllocError>
    requires gate { g < length circuit.now.gates }
    requires count { length distances.old.numbers ≡ net_count circuit.now }
    ensures grown { OnOk result (HasGrown distances.old distances.new) }
    ensures put { OnOk result ((i : ℕ) → i < length (gate_at circuit.now g).args
        → number_of distances.new (arg_at circuit.now g i) ≤ distances.new.distance) }
{
    for arg in circuit.gate_args(g) {
        distances.put(arg.0)?;
    }
    Ok(())
}

// Follows a net to what its driver reads: a gate's arguments, or one frame on a flip-flop's data net.
fn follow_drivers(circuit: &Circuit, net: u32, distances: &mut Distances) -> Result<(), AllocError>
    requires net { net < net_count circuit.now }
    requires count { length distances.old.numbers ≡ net_count circuit.now }
    ensures grown { OnOk result (HasGrown distances.old distances.new) }
    ensures followed { OnOk result (IsFollowed circuit.now Drivers distances.new net) }
{
    // for the proof: the circuit is well formed
    let _ = circuit.nets();
    let inputs = circuit.inputs();
    let first_gate_net = inputs + circuit.dffs();
    if net >= first_gate_net {
        put_arguments(circuit, net - first_gate_net, distances)?;
        return Ok(());
    }
    if net < inputs {
        return Ok(());
    }
    let data = circuit.dff_data(net - inputs);
    distances.put_next(data.0)?;
    Ok(())
}

/// Follows a net one way.
///
/// # Errors
/// Out of memory.
#[inline(always)]
pub fn follow(
    frame_plan: &FramePlan,
    way: Way,
    net: u32,
    distances: &mut Distances,
) -> Result<(), AllocError>
    requires net { net < net_count frame_plan.now.circuit }
    requires count { length distances.old.numbers ≡ net_count frame_plan.now.circuit }
    ensures grown { OnOk result (HasGrown distances.old distances.new) }
    ensures followed { OnOk result (IsFollowed frame_plan.now.circuit way distances.new net) }
{
    match way {
        Way::Drivers => follow_drivers(frame_plan.circuit(), net, distances),
        Way::Readers => {
            // for the proof: the circuit is well formed
            let _ = frame_plan.items();
            for offset in frame_plan.load_offsets(NetId(net)) {
                take(frame_plan, *offset, distances)?;
            }
            Ok(())
        },
    }
}
