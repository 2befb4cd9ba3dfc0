//! The leaders of the stems' faults, from the outputs back.
ghost use Rattle.std.specs.Prelude.{◌≡◌, ◌<◌, ◌*◌, ℕ, length, get_or, IfOk};
ghost use Rattle.ht_net.specs.Circuit.Netlist.{net_count, gate_at, IsCircuit};
ghost use Rattle.ht_faults.specs.Leaders.{stem_number, output_value, united, StayInClass, PinJoins, GateJoins, OthersStay};

use crate::sites::has_fanout;
use crate::table::output_of;
use ht_net::{Circuit, NetId};
use std::alloc::{AllocError, Global};

// The number of a stem's fault in the fault list.
pub(crate) fn number_of(net: NetId, value: bool) -> usize
    ensures { result ≡ stem_number net.0 value }
{
    if value {
        2 * net.index() + 1
    } else {
        2 * net.index()
    }
}

// Gives the fault of a stem that only gate `g` reads the leader of the equivalent output fault, if there is one.
fn unite(circuit: &Circuit, g: u32, input: NetId, value: bool, leaders: &mut [u32])
    requires gate { g < length circuit.now.gates }
    requires input { input.0 < net_count circuit.now }
    requires leaders { length leaders.old ≡ 2 * net_count circuit.now }
    ensures { leaders.new ≡ united circuit.now g (stem_number input.0 value)
        (output_value circuit.now g value) leaders.old }
{
    let pins = circuit.gate_args(g).len();
    if let Some(stuck) = output_of(circuit.gate_kind(g), pins, value) {
        leaders[number_of(input, value)] = leaders[number_of(circuit.gate_net(g), stuck)];
    }
}

// Unites both faults of a pin's stem with those of the gate's output, where the pin has no fault of its own.
fn join_pin(circuit: &Circuit, g: u32, i: u32, leaders: &mut [u32])
    requires gate { g < length circuit.now.gates }
    requires pin { i < length (gate_at circuit.now g).args }
    requires before { StayInClass circuit.now leaders.old }
    ensures after { StayInClass circuit.now leaders.new }
    ensures this { PinJoins circuit.now leaders.new g i }
    ensures pins { (k : ℕ) → k < length (gate_at circuit.now g).args
        → PinJoins circuit.now leaders.old g k → PinJoins circuit.now leaders.new g k }
    ensures others { OthersStay circuit.now leaders.old leaders.new g }
{
    let input = circuit.gate_args(g)[i as usize];
    if has_fanout(circuit, input) {
        return;
    }
    unite(circuit, g, input, false, leaders);
    unite(circuit, g, input, true, leaders);
}

// Unites the faults of a gate's inputs with those of its output.
fn join_gate(circuit: &Circuit, g: u32, leaders: &mut [u32])
    requires gate { g < length circuit.now.gates }
    requires before { StayInClass circuit.now leaders.old }
    ensures after { StayInClass circuit.now leaders.new }
    ensures joins { GateJoins circuit.now leaders.new g }
    ensures others { OthersStay circuit.now leaders.old leaders.new g }
{
    let pins = circuit.gate_args(g).len() as u32;
    for i in 0..pins {
        join_pin(circuit, g, i, leaders);
    }
}

// Each number below a count: every fault is its own leader.
fn own_leaders(alloc: Global, count: u32) -> Result<Vec<u32>, AllocError>
    ensures count { IfOk result (λ leaders. length leaders.items ≡ count) }
    ensures own { IfOk result (λ leaders. (k : ℕ) → k < count → get_or leaders.items k 0 ≡ k) }
{
    let mut leaders = Vec::with_capacity(alloc, count as usize)?;
    for k in 0..count {
        leaders.push(k)?;
    }
    Ok(leaders)
}

// The leader of each stem's fault: the last of the equivalent faults that follow it, gate by gate. The gates are
// taken from the last of the order to the first, so that the leaders of a gate's output faults are final when the
// gate is taken.
pub(crate) fn stem_leaders(alloc: Global, circuit: &Circuit) -> Result<Vec<u32>, AllocError>
    ensures members { IfOk result (λ leaders. StayInClass circuit.now leaders.items) }
    ensures joins { IfOk result (λ leaders. (g : ℕ) → g < length circuit.now.gates
        → GateJoins circuit.now leaders.items g) }
    ensures circuit { IsCircuit circuit.now }
{
    let mut leaders = own_leaders(alloc, 2 * circuit.nets())?;
    let order = circuit.order();
    for k in (0..order.len()).rev() {
        join_gate(circuit, order[k], &mut leaders);
    }
    Ok(leaders)
}
