//! The net of a fault's line.
ghost use Rattle.std.specs.Prelude.{◌≡◌, ◌<◌};
ghost use Rattle.ht_net.specs.Circuit.Netlist.{net_count};
ghost use Rattle.ht_stems.specs.Arrivals.{HasLine, net_of_line};

use ht_net::{Circuit, NetId, Site};

/// The net whose value the line of a site carries.
pub fn net_of_line(circuit: &Circuit, site: Site) -> NetId
    requires { HasLine circuit.now site }
    ensures net { result ≡ net_of_line circuit.now site }
    ensures known { result.0 < net_count circuit.now }
{
    // for the proof: the circuit is well formed
    let _ = circuit.nets();
    match site {
        Site::Stem(net) => net,
        Site::DffPin { dff } => circuit.dff_data(dff),
        Site::GatePin { gate, pin } => circuit.gate_args(gate)[pin as usize],
    }
}
