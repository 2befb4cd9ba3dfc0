//! Where the effects of all nets and faults end in a frame.
ghost use Rattle.std.specs.Prelude.{◌≡◌, ◌↔◌, ◌<◌, List, None, Some, IsTrue, length, IfOk};
ghost use Rattle.ht_tern.specs.declared.tern.Tern as tern;
ghost use Rattle.ht_net.specs.Circuit.Netlist.{net_count, IsCircuit};
ghost use Rattle.ht_net.specs.Frames.Faults.{tern_rules};
ghost use Rattle.ht_stems.specs.ForcedNets.{net_forced};
ghost use Rattle.ht_stems.specs.Arrivals.{Arrives, FaultArrives, HasLine, IsStuckAlready, IsWithin, SiteArrives, net_of_line};
ghost use Rattle.ht_stems.specs.ArrivedFrames.{AreGoodValues, ShowsArrival};
ghost use Rattle.ht_stems.specs.ArrivalsView.{good_of_net};

use crate::Arrival;
use crate::net_ends::{NetEnds, end_in};
use crate::net_loads::{NetLoads, find_loads};
use crate::pass::{LoadedCircuit, has_net_value};
use ht_frame::{MAX_GATE_PINS, gate_output};
use ht_net::{Circuit, Fault, NetId, Site};
use ht_tern::Tern;
use std::alloc::{AllocError, Global};
use std::marker::Model;

/// For each net of a circuit, and each value that it may be forced to, where its effect ends in a frame of the good
/// machine. It is made once and filled again for each frame.
#[derive(Drop)]
pub struct Arrivals<'c> {
    circuit: &'c Circuit,
    loads: Vec<NetLoads>,
    // the good values, by the number of the net
    values: Vec<Tern>,
    ends: Vec<NetEnds>,
    // room for the pins of one gate
    pins: Vec<Tern>,
}

impl<'c> Model for Arrivals<'c> {
    ghost use Rattle.ht_stems.specs.ArrivalsView.{ArrivalsView};

    ghost Value = { ArrivalsView };

    ghost use Rattle.ht_stems.specs.ArrivalsOf.{AreArrivalFields, arrivals_of};

    ghost view = { arrivals_of };

    ghost invariant = { AreArrivalFields };
}

// The net whose value the line of a site carries.
fn net_of_line(circuit: &Circuit, site: Site) -> NetId
    requires { HasLine circuit.now site }
    ensures net { result ≡ net_of_line circuit.now site }
    ensures known { result.0 < net_count circuit.now }
{
    // for the proof: the circuit is well formed
    let _ = circuit.nets();
    match site {
        Site::Stem(net) => net,
        Site::DffPin { dff } => circuit.dff_data(dff),
        Site::GatePin { gate, pin } => circuit.gate_args(gate)[pin as usize],
    }
}

impl<'c> Arrivals<'c> {
    /// The arrivals of a circuit where its nets have these values, by the number of the net.
    ///
    /// # Errors
    /// Out of memory.
    pub fn of(
        alloc: Global,
        circuit: &'c Circuit,
        good: &[Tern],
    ) -> Result<Arrivals<'c>, AllocError>
        requires { length good.now ≡ net_count circuit.now }
        ensures { IfOk result
            (λ arrivals. arrivals ≡ record { circuit = circuit.now; good = good.now }) }
    {
        let nets = circuit.nets() as usize;
        let none = NetEnds {
            zero: Arrival::Dies,
            one: Arrival::Dies,
            unknown: Arrival::Dies,
        };
        let loads = find_loads(alloc, circuit)?;
        let mut values = vec![in alloc; Tern::Unk; nets]?;
        values.copy_from_slice(good);
        let mut ends = vec![in alloc; none; nets]?;
        let mut pins = vec![in alloc; Tern::Unk; MAX_GATE_PINS]?;
        let loaded = LoadedCircuit {
            circuit,
            loads: loads.as_slice(),
        };
        loaded.write_ends(&mut values, &mut pins, &mut ends);
        Ok(Arrivals {
            circuit,
            loads,
            values,
            ends,
            pins,
        })
    }

    /// The same where the nets have these values.
    pub fn refill(&mut self, good: &[Tern])
        requires { length good.now ≡ net_count self.old.circuit }
        ensures { self.new ≡ record self.old { good = good.now } }
    {
        self.values.copy_from_slice(good);
        let loaded = LoadedCircuit {
            circuit: self.circuit,
            loads: self.loads.as_slice(),
        };
        loaded.write_ends(&mut self.values, &mut self.pins, &mut self.ends);
    }

    /// Where the effect of a net ends that is forced to a value.
    pub fn net(&self, net: NetId, value: Tern) -> Arrival
        requires { net.0 < net_count self.now.circuit }
        ensures end { Arrives self.now.circuit (good_of_net self.now) net.0 value result }
        ensures shows { (vector latches : List tern.Tern)
            → AreGoodValues self.now.circuit vector latches (good_of_net self.now)
            → ShowsArrival self.now.circuit (net_forced (tern_rules None) net.0 value)
            vector latches result }
    {
        end_in(&self.ends, net, value)
    }

    // Whether the line of a fault carries the stuck value already.
    fn is_stuck_already(&self, fault: Fault) -> bool
        requires { HasLine self.now.circuit fault.site }
        ensures told { IsTrue result ↔ IsStuckAlready self.now.circuit (good_of_net self.now) fault }
        ensures circuit { IsCircuit self.now.circuit }
    {
        let net = net_of_line(self.circuit, fault.site);
        has_net_value(&self.values, net, Tern::from(fault.value))
    }

    // Where the effect of a fault ends whose line carries something else.
    fn site(&mut self, fault: Fault) -> Arrival
        requires { HasLine self.old.circuit fault.site }
        ensures end { SiteArrives self.old.circuit (good_of_net self.old) fault.site fault.value
            result }
        ensures same { self.new ≡ self.old }
    {
        let value = Tern::from(fault.value);
        match fault.site {
            Site::Stem(net) => end_in(&self.ends, net, value),
            Site::GatePin { gate, pin: _ } => {
                let output = gate_output(
                    self.circuit,
                    Some(fault),
                    &self.values,
                    &mut self.pins,
                    gate,
                );
                end_in(&self.ends, self.circuit.gate_net(gate), output)
            }
            Site::DffPin { dff } => Arrival::AtLatch { dff, value },
        }
    }

    /// Where the effect of a fault ends, in a machine whose latches are the good ones.
    pub fn fault(&mut self, fault: Fault) -> Arrival
        requires { HasLine self.old.circuit fault.site }
        ensures end { FaultArrives self.old.circuit (good_of_net self.old) fault result }
        ensures shows { (vector latches : List tern.Tern)
            → AreGoodValues self.old.circuit vector latches (good_of_net self.old)
            → ShowsArrival self.old.circuit (tern_rules (Some fault)) vector latches result }
        ensures within { IsWithin self.old.circuit result }
        ensures same { self.new ≡ self.old }
    {
        if self.is_stuck_already(fault) {
            return Arrival::Dies;
        }
        self.site(fault)
    }
}
