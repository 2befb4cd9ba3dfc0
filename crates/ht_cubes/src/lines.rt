//! Lines as signals.
ghost use Rattle.std.specs.Prelude.{◌≡◌, ◌<◌, ◌≤◌, ◌&&◌, Option, length};
ghost use Rattle.ht_net.specs.Circuit.Netlist.{max_nets, net_count};
ghost use Rattle.ht_cubes.specs.Rails.{stuck_line};
ghost use Rattle.ht_cubes.specs.Formula.{driver_signal, net_signal, next_signal, positive, rail_of, rail_variable, stuck_signal, turned, unknown_signal};
ghost use Rattle.ht_cubes.specs.Cones.{marked};

use crate::machines::Machines;
use crate::{Signal, SignedVar};
use ht_frame::{Domain, data_pin, stem};
use ht_net::Fault;
use ht_tern::Kind;

impl Signal {
    /// A line that is stuck at a bit.
    pub(crate) fn stuck(bit: bool) -> Signal
        ensures { result ≡ stuck_signal bit }
    {
        Signal {
            zero: SignedVar::constant(!bit),
            one: SignedVar::constant(bit),
        }
    }

    /// A line of which nothing is known.
    pub(crate) fn unknown() -> Signal
        ensures { result ≡ unknown_signal }
    {
        Signal {
            zero: SignedVar::constant(false),
            one: SignedVar::constant(false),
        }
    }

    /// The complement of the line.
    pub(crate) fn turned(self) -> Signal
        ensures { result ≡ turned self }
    {
        Signal {
            zero: self.one,
            one: self.zero,
        }
    }

    /// The rail that says that the line is at the bit.
    pub(crate) fn rail(self, bit: bool) -> SignedVar
        ensures { result ≡ rail_of self bit }
    {
        if bit { self.one } else { self.zero }
    }
}

/// Signals pass along lines; no gate is evaluated over them.
impl Domain for Signal {
    ghost blank = { unknown_signal };

    ghost gate = { λ kind pins. unknown_signal };

    ghost stick = { λ bit s. stuck_signal bit };

    fn gate(_kind: Kind, _args: &[Signal]) -> Signal {
        Signal::unknown()
    }

    fn combined(_kind: Kind, first: Signal, _second: Signal) -> Signal {
        first
    }

    fn with_polarity(_kind: Kind, _value: Signal) -> Signal {
        Signal::unknown()
    }

    fn stick(self, bit: bool) -> Signal {
        Signal::stuck(bit)
    }
}

/// The stuck line of a machine.
pub(crate) fn stuck_line(fault: Fault, faulty: bool) -> Option<Fault>
    ensures { result ≡ stuck_line fault faulty }
{
    if faulty { Some(fault) } else { None }
}

// Whether net `x` of a machine has rails of its own: in the faulty one the nets of the cone have.
fn has_own(cone: &[bool], faulty: bool, x: u32) -> bool
    requires { x < length cone.now }
    ensures { result ≡ (faulty && marked cone.now x) }
{
    if !faulty {
        return false;
    }
    cone[x as usize]
}

// The number of a rail's variable, of so many nets.
fn rail_number(nets: u32, own: bool, x: u32, bit: bool) -> u32
    requires known { x < nets }
    requires few { nets ≤ max_nets }
    ensures { result ≡ rail_variable nets own x bit }
{
    match (own, bit) {
        (false, false) => 2 * x + 1,
        (false, true) => 2 * x + 2,
        (true, false) => 2 * nets + 2 * x + 1,
        (true, true) => 2 * nets + 2 * x + 2,
    }
}

impl<'a> Machines<'a> {
    /// What drives net `x` of a machine.
    pub(crate) fn driver(&self, faulty: bool, x: u32) -> Signal
        requires known { x < net_count self.now.circuit.now }
        requires cone { length self.now.cone.now ≡ net_count self.now.circuit.now }
        ensures { result ≡ driver_signal self.now.circuit.now (marked self.now.cone.now) faulty x }
    {
        let nets = self.circuit.nets();
        prove_eq!(self.cone.len(), nets as usize);
        let own = has_own(self.cone, faulty, x);
        Signal {
            zero: SignedVar {
                variable: rail_number(nets, own, x, false),
                value: true,
            },
            one: SignedVar {
                variable: rail_number(nets, own, x, true),
                value: true,
            },
        }
    }

    /// Net `x` of a machine as its loads see it.
    pub(crate) fn net(&self, faulty: bool, x: u32) -> Signal
        requires known { x < net_count self.now.circuit.now }
        requires cone { length self.now.cone.now ≡ net_count self.now.circuit.now }
        ensures { result
            ≡ net_signal self.now.circuit.now self.now.fault (marked self.now.cone.now) faulty x }
    {
        stem(stuck_line(self.fault, faulty), x, self.driver(faulty, x))
    }

    /// What latch `j` of a machine takes for the next frame.
    pub(crate) fn next(&self, faulty: bool, j: u32) -> Signal
        requires known { j < length self.now.circuit.now.dffs }
        requires cone { length self.now.cone.now ≡ net_count self.now.circuit.now }
        ensures { result
            ≡ next_signal self.now.circuit.now self.now.fault (marked self.now.cone.now) faulty j }
    {
        prove_eq!(self.cone.len(), self.circuit.nets() as usize);
        let data = self.circuit.dff_data(j);
        data_pin(stuck_line(self.fault, faulty), j, self.net(faulty, data.0))
    }
}
