//! The fault sites of a circuit, from its counts of loads.
ghost use Rattle.std.specs.Prelude.{◌≡◌, ◌<◌, ◌++◌, length, IfOk, OnOk};
ghost use Rattle.std.specs.List.{filter};
ghost use Rattle.ht_net.specs.Circuit.Netlist.{net_count, IsCircuit};
ghost use Rattle.ht_faults.specs.Sites.{stems_of};
ghost use Rattle.ht_faults.specs.Sites.{data_pins_of, pins_of_gate, gate_pins_of, is_fanout, is_site, sites_of};

use ht_net::{Circuit, NetId, Site};
use std::alloc::{AllocError, Global};

/// Whether a net has two or more loads, so that the pins that it drives have faults of their own.
#[tactic(auto, unfolding(crate::specs::Sites::is_fanout))]
pub fn has_fanout(circuit: &Circuit, net: NetId) -> bool
    requires { net.0 < net_count circuit.now }
    ensures { result ≡ is_fanout circuit.now net.0 }
{
    circuit.loads(net) > 1
}

/// Adds the stem of every net.
fn add_stems(sites: &mut Vec<Site>, circuit: &Circuit) -> Result<(), AllocError>
    ensures { OnOk result (sites.new.items ≡ sites.old.items ++ stems_of circuit.now) }
{
    for x in 0..circuit.nets() {
        sites.push(Site::Stem(NetId(x)))?;
    }
    Ok(())
}

/// Adds the data pins that are sites.
fn add_data_pins(sites: &mut Vec<Site>, circuit: &Circuit) -> Result<(), AllocError>
    requires { IsCircuit circuit.now }
    ensures { OnOk result
        (sites.new.items ≡ sites.old.items ++ filter (is_site circuit.now)
        (data_pins_of circuit.now)) }
{
    for dff in 0..circuit.dffs() {
        if has_fanout(circuit, circuit.dff_data(dff)) {
            sites.push(Site::DffPin { dff })?;
        }
    }
    Ok(())
}

/// Adds the pins of a gate that are sites.
fn add_pins(sites: &mut Vec<Site>, circuit: &Circuit, gate: u32) -> Result<(), AllocError>
    requires { gate < length circuit.now.gates }
    ensures { OnOk result
        (sites.new.items ≡ sites.old.items ++ filter (is_site circuit.now)
        (pins_of_gate circuit.now gate)) }
{
    for (i, arg) in circuit.gate_args(gate).iter().enumerate() {
        if has_fanout(circuit, *arg) {
            sites.push(Site::GatePin { gate, pin: i as u8 })?;
        }
    }
    Ok(())
}

/// Adds the pins of all gates that are sites.
fn add_gate_pins(sites: &mut Vec<Site>, circuit: &Circuit) -> Result<(), AllocError>
    ensures { OnOk result
        (sites.new.items ≡ sites.old.items ++ filter (is_site circuit.now)
        (gate_pins_of circuit.now)) }
{
    for gate in 0..circuit.gates() {
        add_pins(sites, circuit, gate)?;
    }
    Ok(())
}

/// The sites of a circuit: stems by net, then data pins by flip-flop, then gate pins by gate and pin.
#[tactic(auto, using(crate::proofs::SiteLaws::sites_are))]
pub fn find_sites(alloc: Global, circuit: &Circuit) -> Result<Vec<Site>, AllocError>
    ensures sites { IfOk result (λ sites. sites.items ≡ sites_of circuit.now) }
    ensures circuit { IsCircuit circuit.now }
{
    let mut sites = Vec::with_capacity(alloc, circuit.nets() as usize)?;
    add_stems(&mut sites, circuit)?;
    add_data_pins(&mut sites, circuit)?;
    add_gate_pins(&mut sites, circuit)?;
    Ok(sites)
}
