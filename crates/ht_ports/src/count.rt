//! The counts of failed calls, one for each port.
ghost use Rattle.std.specs.Prelude.{◌≡◌, ◌≤◌};
ghost use Rattle.ht_ports.specs.Causes.{next_count};
ghost use Rattle.ht_ports.specs.Desk.{CountsAt};
ghost use Rattle.ht_ports.specs.PerPort.{at_in_port, at_out_port};
ghost use Rattle.ht_ports.specs.declared.ports.InPort.{InPort};
ghost use Rattle.ht_ports.specs.declared.ports.OutPort.{OutPort};

use crate::{Failed, InPort, OutPort, PerInPort, PerOutPort};

/// Counts a fault of a port that is read, up to the last value of a `u64`.
pub fn count_in_fault(faults: &mut PerInPort<u64>, port: InPort) -> Failed
    ensures counted { at_in_port faults.new port ≡ next_count (at_in_port faults.old port) }
    ensures others { CountsAt port (at_in_port faults.old) (at_in_port faults.new) }
    ensures later { (p : InPort) → at_in_port faults.old p ≤ at_in_port faults.new p }
{
    let count = faults.get(port).saturating_add(1);
    faults.set(port, count);
    Failed
}

/// Counts a fault of a port that is written, up to the last value of a `u64`.
pub fn count_out_fault(faults: &mut PerOutPort<u64>, port: OutPort) -> Failed
    ensures counted { at_out_port faults.new port ≡ next_count (at_out_port faults.old port) }
    ensures others { CountsAt port (at_out_port faults.old) (at_out_port faults.new) }
    ensures later { (p : OutPort) → at_out_port faults.old p ≤ at_out_port faults.new p }
{
    let count = faults.get(port).saturating_add(1);
    faults.set(port, count);
    Failed
}
