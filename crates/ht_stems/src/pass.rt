//! One pass back over the nets of a frame.
ghost use Rattle.std.specs.Prelude.{◌≡◌, ◌↔◌, ◌<◌, ◌+◌, ℕ, None, IsTrue, length, get_or};
ghost use Rattle.ht_tern.specs.declared.tern.Tern.TheVariants.{Unk};
ghost use Rattle.ht_net.specs.Circuit.Netlist.{first_gate_net, net_count};
ghost use Rattle.ht_net.specs.Frames.Frame.{gate_output};
ghost use Rattle.ht_net.specs.Frames.Faults.{tern_rules};
ghost use Rattle.ht_frame.specs.Values.{env_of};
ghost use Rattle.ht_stems.specs.ForcedNets.{with_net_value};
ghost use Rattle.ht_stems.specs.Arrivals.{Arrives};
ghost use Rattle.ht_stems.specs.NetEnds.{AreEndsAfter, AreNetEnds, ArePassTables, AreTableEnds, no_ends};

use crate::Arrival;
use crate::net_ends::{NetEnds, end_in};
use crate::net_loads::NetLoads;
use ht_frame::{MAX_GATE_PINS, gate_output};
use ht_net::{Circuit, NetId};
use ht_tern::Tern;

/// A circuit and the loads of each of its nets.
#[derive(Clone, Copy)]
pub struct LoadedCircuit<'a> {
    pub circuit: &'a Circuit,
    pub loads: &'a [NetLoads],
}

/// What a gate gives where one net has another value. The values are the same afterwards.
fn forced_gate_output(
    circuit: &Circuit,
    values: &mut [Tern],
    pins: &mut [Tern],
    gate: u32,
    net: NetId,
    value: Tern,
) -> Tern
    requires gate { gate < length circuit.now.gates }
    requires net { net.0 < net_count circuit.now }
    requires values { length values.old ≡ net_count circuit.now }
    requires room { length pins.old ≡ MAX_GATE_PINS }
    ensures output { result ≡ gate_output circuit.now (tern_rules None)
        (with_net_value (env_of Unk values.old) net.0 value) gate }
    ensures same { values.new ≡ values.old }
{
    let good = values[net.index()];
    values[net.index()] = value;
    let output = gate_output(circuit, None, values, pins, gate);
    values[net.index()] = good;
    output
}

/// Whether a net has this value.
pub fn has_net_value(values: &[Tern], net: NetId, value: Tern) -> bool
    requires { net.0 < length values.now }
    ensures { IsTrue result ↔ (env_of Unk values.now net.0 ≡ value) }
{
    values[net.index()] == value
}

impl<'a> LoadedCircuit<'a> {
    // Where the effect of a net ends that is forced to a value.
    fn end(
        &self,
        values: &mut [Tern],
        pins: &mut [Tern],
        ends: &[NetEnds],
        net: NetId,
        value: Tern,
    ) -> Arrival
        requires net { net.0 < net_count self.now.circuit.now }
        requires tables { ArePassTables self.now.circuit.now self.now.loads.now values.old pins.old
            ends.now }
        requires after { AreEndsAfter self.now.circuit.now (env_of Unk values.old)
            self.now.loads.now ends.now net.0 }
        ensures end { Arrives self.now.circuit.now (env_of Unk values.old) net.0 value result }
        ensures same { values.new ≡ values.old }
    {
        if has_net_value(values, net, value) {
            return Arrival::Dies;
        }
        match self.loads[net.index()] {
            NetLoads::NoLoad => Arrival::Dies,
            NetLoads::OneGate { gate } => {
                let output = forced_gate_output(self.circuit, values, pins, gate, net, value);
                end_in(ends, self.circuit.gate_net(gate), output)
            }
            NetLoads::OneDataPin { dff } => Arrival::AtLatch { dff, value },
            NetLoads::OneOutput { output } => Arrival::AtOutput { output, value },
            NetLoads::Several => Arrival::AtStem { net, value },
        }
    }

    // Where the effects of one net end.
    fn ends_of(
        &self,
        values: &mut [Tern],
        pins: &mut [Tern],
        ends: &[NetEnds],
        net: NetId,
    ) -> NetEnds
        requires net { net.0 < net_count self.now.circuit.now }
        requires tables { ArePassTables self.now.circuit.now self.now.loads.now values.old pins.old
            ends.now }
        requires after { AreEndsAfter self.now.circuit.now (env_of Unk values.old)
            self.now.loads.now ends.now net.0 }
        ensures ends { AreNetEnds self.now.circuit.now (env_of Unk values.old) net.0 result }
        ensures same { values.new ≡ values.old }
    {
        let zero = self.end(values, pins, ends, net, Tern::Zero);
        let one = self.end(values, pins, ends, net, Tern::One);
        let unknown = self.end(values, pins, ends, net, Tern::Unk);
        NetEnds { zero, one, unknown }
    }

    // Writes where the effects of the gates' nets end, each after the gates that read it. So where a net has one load,
    // a gate, the ends of that gate's net stand in the table, and no effect is followed twice. This pass is 31 percent
    // of the time of `sim` and 58 of that of `compact` (docs/MEASURED.md).
    fn write_gates(&self, values: &mut [Tern], pins: &mut [Tern], ends: &mut [NetEnds])
        requires tables { ArePassTables self.now.circuit.now self.now.loads.now values.old pins.old
            ends.old }
        ensures ends { (g : ℕ) → g < length self.now.circuit.now.gates
            → AreNetEnds self.now.circuit.now (env_of Unk values.old)
            (first_gate_net self.now.circuit.now + g)
            (get_or ends.new (first_gate_net self.now.circuit.now + g) no_ends) }
        ensures same { values.new ≡ values.old }
    {
        let order = self.circuit.order();
        for i in 0..order.len() {
            let net = self.circuit.gate_net(order[order.len() - 1 - i]);
            ends[net.index()] = self.ends_of(values, pins, ends, net);
        }
    }

    /// Writes where the effects of all nets end, each gate evaluated twice at most for each net that only it reads.
    /// What `ends` and `pins` held before plays no part; the values are the same afterwards.
    pub fn write_ends(&self, values: &mut [Tern], pins: &mut [Tern], ends: &mut [NetEnds])
        requires tables { ArePassTables self.now.circuit.now self.now.loads.now values.old pins.old
            ends.old }
        ensures ends { AreTableEnds self.now.circuit.now (env_of Unk values.old) ends.new }
        ensures same { values.new ≡ values.old }
    {
        // for the proof: the circuit is well formed
        let _ = self.circuit.nets();
        self.write_gates(values, pins, ends);
        for source in 0..self.circuit.inputs() + self.circuit.dffs() {
            let net = NetId(source);
            ends[net.index()] = self.ends_of(values, pins, ends, net);
        }
    }
}
