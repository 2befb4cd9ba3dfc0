//! Cells that follow another fault and another start by events.
ghost use Rattle.std.specs.Prelude.{◌≡◌, ◌<◌, ◌≤◌, ◌+◌, ℕ, true, Some, OnOk, IfSome};
ghost use Rattle.ht_net.specs.Circuit.Netlist.{net_count, first_gate_net};
ghost use Rattle.ht_relevant.specs.Reached.{begins_at, leads_to};
ghost use Rattle.ht_relevant.specs.Relevant.{IsClosedBack};
ghost use Rattle.ht_window.specs.Cells.{AreCells};
ghost use Rattle.ht_window.specs.Matters.{is_relevant};
ghost use Rattle.ht_window.specs.Renewals.{HoldsElsewhere, HoldsOrPends, IsPlanFor, IsRenewed};

use crate::held::Held;
use ht_events::Core;
use ht_net::{Circuit, Fault, NetId, Site};
use std::alloc::AllocError;

// The net whose stem a line is, or whose driver has it for a pin; none where the circuit has no such line.
fn line_net(circuit: &Circuit, site: Site) -> Option<u32>
    ensures inside { IfSome result (λ x. x < net_count circuit.now) }
    ensures only { (x : ℕ) → x < net_count circuit.now → leads_to circuit.now site x ≡ true
        → result ≡ Some x }
{
    // for the proof: the circuit is well formed
    let _ = circuit.nets();
    match site {
        Site::Stem(net) if net.0 < circuit.nets() => Some(net.0),
        Site::DffPin { dff } if dff < circuit.dffs() => Some(circuit.dff_net(dff).0),
        Site::GatePin { gate, pin: _ } if gate < circuit.gates() => {
            Some(circuit.gate_net(gate).0)
        },
        _ => None,
    }
}

// The first net that a fault reaches.
fn first_reached(circuit: &Circuit, fault: Option<Fault>) -> Option<u32>
    ensures inside { IfSome result (λ x. x < net_count circuit.now) }
    ensures only { (x : ℕ) → x < net_count circuit.now → begins_at circuit.now fault x ≡ true
        → result ≡ Some x }
{
    match fault {
        Some(fault) => line_net(circuit, fault.site),
        None => None,
    }
}

// Gives a net of a frame its set, if it matters, and makes what reads it pending where that is another.
fn renew(held: &mut Held, core: &mut Core, frame: u32, net: u32) -> Result<(), AllocError>
    requires plan { IsPlanFor core.old.plan held.old.standing.window }
    requires frame { frame < held.old.standing.window.frames }
    requires net { net < net_count held.old.standing.window.circuit }
    ensures renewed { OnOk result (IsRenewed core.old held.old core.new held.new) }
    ensures holds { OnOk result (HoldsOrPends core.new held.new frame net) }
{
    if !held.matters(frame, net) {
        return Ok(());
    }
    if held.holds_value(frame, net) {
        return Ok(());
    }
    held.write(frame, net)?;
    core.touch_loads(frame, NetId(net));
    Ok(())
}

// Renews the net that a fault reaches first, in each frame.
fn renew_line(held: &mut Held, core: &mut Core, fault: Option<Fault>) -> Result<(), AllocError>
    requires { IsPlanFor core.old.plan held.old.standing.window }
    ensures renewed { OnOk result (IsRenewed core.old held.old core.new held.new) }
    ensures holds { OnOk result ((f x : ℕ) → f < held.old.standing.window.frames
        → x < net_count held.old.standing.window.circuit
        → begins_at held.old.standing.window.circuit fault x ≡ true
        → HoldsOrPends core.new held.new f x) }
{
    let decisions = held.decisions();
    let frames = decisions.frames();
    let Some(net) = first_reached(decisions.circuit(), fault) else {
        return Ok(());
    };
    for frame in 0..frames {
        renew(held, core, frame, net)?;
    }
    Ok(())
}

// Renews the latches of the first frame.
fn renew_latches(held: &mut Held, core: &mut Core) -> Result<(), AllocError>
    requires { IsPlanFor core.old.plan held.old.standing.window }
    ensures renewed { OnOk result (IsRenewed core.old held.old core.new held.new) }
    ensures holds { OnOk result ((x : ℕ) → held.old.standing.window.circuit.inputs ≤ x
        → x < first_gate_net held.old.standing.window.circuit
        → HoldsOrPends core.new held.new 0 x) }
{
    let decisions = held.decisions();
    let circuit = decisions.circuit();
    // for the proof: the circuit is well formed
    let _ = circuit.nets();
    let inputs = circuit.inputs();
    for j in 0..circuit.dffs() {
        renew(held, core, 0, inputs + j)?;
    }
    Ok(())
}

/// Lets cells follow, by events, where they were those of the same window but with the fault `before` and from another
/// start.
///
/// # Errors
/// Out of memory.
pub fn follow_fault(
    held: &mut Held,
    core: &mut Core,
    before: Option<Fault>,
) -> Result<(), AllocError>
    requires plan { IsPlanFor core.old.plan held.old.standing.window }
    requires closed { IsClosedBack held.old.standing.window.circuit
        held.old.standing.window.frames (is_relevant held.old.relevant) }
    requires holds { HoldsElsewhere held.old before }
    ensures plan { OnOk result (core.new.plan ≡ core.old.plan) }
    ensures standing { OnOk result (held.new.standing ≡ held.old.standing) }
    ensures relevant { OnOk result (held.new.relevant ≡ held.old.relevant) }
    ensures cells { OnOk result (AreCells held.old.standing.window
        (is_relevant held.old.relevant) held.old.standing.path held.new.cells.values) }
{
    let fault = held.decisions().fault();
    renew_line(held, core, before)?;
    renew_line(held, core, fault)?;
    renew_latches(held, core)?;
    core.settle(held)?;
    Ok(())
}
