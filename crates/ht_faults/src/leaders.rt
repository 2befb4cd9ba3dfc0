//! The leader of every fault.
ghost use Rattle.std.specs.Prelude.{◌≡◌, ◌<◌, ◌*◌, ◌^◌, length, IfOk};
ghost use Rattle.ht_net.specs.Circuit.Netlist.{net_count};
ghost use Rattle.ht_faults.specs.Sites.{IsFaultSite, faults_of};
ghost use Rattle.ht_faults.specs.Leaders.{leader_by, AreLeaders};

use crate::fault_list::FaultList;
use crate::stems::{number_of, stem_leaders};
use crate::table::output_of;
use ht_net::{Circuit, Fault, Site};
use std::alloc::{AllocError, Global};

// The leader of fault `i`, by the leaders of the stems' faults: the fault itself where no line after it has an
// equivalent one.
fn leader_of(circuit: &Circuit, stem_leaders: &[u32], i: u32, fault: Fault) -> u32
    requires site { IsFaultSite circuit.now fault.site }
    requires leaders { length stem_leaders.now ≡ 2 * net_count circuit.now }
    ensures { result ≡ leader_by circuit.now stem_leaders.now i fault.site fault.value }
{
    match fault.site {
        Site::Stem(net) => stem_leaders[number_of(net, fault.value)],
        Site::DffPin { .. } => i,
        Site::GatePin { gate, .. } => {
            let pins = circuit.gate_args(gate).len();
            match output_of(circuit.gate_kind(gate), pins, fault.value) {
                Some(stuck) => stem_leaders[number_of(circuit.gate_net(gate), stuck)],
                None => i,
            }
        }
    }
}

// The leader of each fault of the list, by number: two faults have one leader exactly where they are in one class.
pub(crate) fn find_leaders(
    alloc: Global,
    circuit: &Circuit,
    faults: &FaultList,
) -> Result<Vec<u32>, AllocError>
    requires { faults.now ≡ faults_of circuit.now }
    ensures leaders { IfOk result (λ leaders. AreLeaders circuit.now leaders.items) }
    ensures short { IfOk result (λ leaders. length leaders.items < 2 ^ 32) }
{
    let stem_leaders = stem_leaders(alloc, circuit)?;
    let mut leaders = Vec::with_capacity(alloc, faults.len() as usize)?;
    for i in 0..faults.len() {
        leaders.push(leader_of(circuit, &stem_leaders, i, faults.get(i)))?;
    }
    Ok(leaders)
}
