//! What reads each net.
ghost use Rattle.std.specs.Prelude.{◌≡◌, ◌<◌, ℕ, length, get_or, set, IfOk};
ghost use Rattle.std.specs.List.{sum_by};
ghost use Rattle.ht_net.specs.Circuit.Netlist.{Gate, gate_at};
ghost use Rattle.ht_net.specs.Circuit.Levels.{times};
ghost use Rattle.ht_stems.specs.declared.net_loads.NetLoads.TheVariants.{NoLoad};
ghost use Rattle.ht_stems.specs.LoadsOfNets.{AreLoads, CountsAs, CountsMore, HasEntries, HasLoads, with_load};

use ht_net::{Circuit, NetId};
use std::alloc::{AllocError, Global};

/// The loads of a net: none, only one, or two and more. Gates, flip-flops and outputs count from 0.
#[derive(Clone, Copy)]
pub enum NetLoads {
    NoLoad,
    /// A pin of the gate.
    OneGate { gate: u32 },
    /// The data pin of the flip-flop.
    OneDataPin { dff: u32 },
    OneOutput { output: u32 },
    Several,
}

impl NetLoads {
    // These with one more load.
    fn with(self, load: NetLoads) -> NetLoads
        ensures { result ≡ with_load self load }
    {
        match self {
            NetLoads::NoLoad => load,
            NetLoads::OneGate { gate: _ }
            | NetLoads::OneDataPin { dff: _ }
            | NetLoads::OneOutput { output: _ }
            | NetLoads::Several => NetLoads::Several,
        }
    }
}

// One more load of a net.
fn add_load(table: &mut [NetLoads], net: NetId, load: NetLoads)
    requires { net.0 < length table.old }
    ensures { table.new
        ≡ set table.old net.0 (with_load (get_or table.old net.0 NoLoad) load) }
{
    let loads = table[net.index()];
    table[net.index()] = loads.with(load);
}

// One more load of each of the nets at the pins of a gate.
fn add_gate(circuit: &Circuit, table: &mut [NetLoads], gate: u32)
    requires gate { gate < length circuit.now.gates }
    requires entries { HasEntries circuit.now table.old }
    ensures { CountsMore circuit.now table.old table.new (gate_at circuit.now gate).args }
{
    for arg in circuit.gate_args(gate) {
        add_load(table, *arg, NetLoads::OneGate { gate });
    }
}

// The loads of each net that are pins of gates, where nothing is counted yet.
fn add_gates(circuit: &Circuit, table: &mut [NetLoads])
    requires entries { HasEntries circuit.now table.old }
    requires none { (x : ℕ) → get_or table.old x NoLoad ≡ NoLoad }
    ensures { (x : ℕ) → CountsAs circuit.now x
        (sum_by (λ (g : Gate). times x g.args) circuit.now.gates) (get_or table.new x NoLoad) }
{
    for gate in 0..circuit.gates() {
        add_gate(circuit, table, gate);
    }
}

// One more load of the net at the data pin of each flip-flop.
fn add_latches(circuit: &Circuit, table: &mut [NetLoads])
    requires { HasEntries circuit.now table.old }
    ensures { CountsMore circuit.now table.old table.new circuit.now.dffs }
{
    for dff in 0..circuit.dffs() {
        add_load(table, circuit.dff_data(dff), NetLoads::OneDataPin { dff });
    }
}

// One more load of the net of each output.
fn add_outputs(circuit: &Circuit, table: &mut [NetLoads])
    requires { HasEntries circuit.now table.old }
    ensures { CountsMore circuit.now table.old table.new circuit.now.outputs }
{
    for output in 0..circuit.outputs() {
        add_load(
            table,
            circuit.output(output),
            NetLoads::OneOutput { output },
        );
    }
}

// All loads of each net, where nothing is counted yet.
fn add_all(circuit: &Circuit, table: &mut [NetLoads])
    requires entries { HasEntries circuit.now table.old }
    requires none { (x : ℕ) → get_or table.old x NoLoad ≡ NoLoad }
    ensures { (x : ℕ) → HasLoads circuit.now x (get_or table.new x NoLoad) }
{
    add_gates(circuit, table);
    add_latches(circuit, table);
    add_outputs(circuit, table);
}

/// The loads of each net of a circuit.
///
/// # Errors
/// Out of memory.
pub fn find_loads(alloc: Global, circuit: &Circuit) -> Result<Vec<NetLoads>, AllocError>
    ensures { IfOk result (λ table. AreLoads circuit.now table.items) }
{
    let mut table = vec![in alloc; NetLoads::NoLoad; circuit.nets() as usize]?;
    add_all(circuit, &mut table);
    Ok(table)
}
