//! What the good machine has in a frame.
ghost use Rattle.std.specs.Prelude.{◌≡◌, ◌<◌, length};
ghost use Rattle.ht_net.specs.Circuit.Netlist.{net_count};
ghost use Rattle.ht_net.specs.Frames.Frame.{next_state};
ghost use Rattle.ht_net.specs.Frames.Faults.{tern_rules};
ghost use Rattle.ht_group.specs.NetValues.{good_value};

use ht_group::Group;
use ht_net::{Circuit, NetId};
use ht_tern::Tern;

/// The value of a net in the good machine.
pub fn good_value(good: &Group, net: NetId) -> Tern
    requires { net.0 < net_count good.now.circuit }
    ensures { result ≡ good_value good.now net.0 }
{
    good.good_values()[net.index()]
}

/// Writes what the flip-flops of the good machine take at the end of the frame.
pub fn read_latches(circuit: &Circuit, good: &Group, latches: &mut [Tern])
    requires good { good.now.circuit ≡ circuit.now }
    requires each { length latches.old ≡ length circuit.now.dffs }
    ensures { latches.new ≡ next_state circuit.now (tern_rules None) good.now.vector
        good.now.latches }
{
    for j in 0..circuit.dffs() {
        latches[j as usize] = good.good_next(j);
    }
}
