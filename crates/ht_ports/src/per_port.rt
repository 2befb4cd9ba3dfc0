//! One value for each port.
ghost use Rattle.std.specs.Prelude.{◌≡◌, ◌≢◌};
ghost use Rattle.ht_ports.specs.PerPort.{at_in_port, at_out_port};
ghost use Rattle.ht_ports.specs.declared.ports.InPort.{InPort};
ghost use Rattle.ht_ports.specs.declared.ports.OutPort.{OutPort};

use crate::{InPort, OutPort};
use std::mem;

/// A value for each port that is read.
#[derive(Default, Drop)]
pub struct PerInPort<T> {
    pub netlist: T,
    pub tests: T,
    pub report: T,
    pub proofs: T,
    pub faults: T,
    pub extra: T,
}

impl<T: Default> PerInPort<T> {
    /// The type's default, 0 or `None`, for each port.
    pub fn empty() -> Self
        ensures { (p : InPort) → T.is_default (at_in_port result p) }
    {
        PerInPort::default()
    }
}

impl<T> PerInPort<T> {
    /// The port's value.
    pub fn get(&self, port: InPort) -> &T
        ensures { result.now ≡ at_in_port self.now port }
    {
        match port {
            InPort::Netlist => &self.netlist,
            InPort::Tests => &self.tests,
            InPort::Report => &self.report,
            InPort::Proofs => &self.proofs,
            InPort::Faults => &self.faults,
            InPort::Extra => &self.extra,
        }
    }

    /// Sets the port's value, and gives the one that it had.
    pub fn replace(&mut self, port: InPort, value: T) -> T
        ensures old { result ≡ at_in_port self.old port }
        ensures set { at_in_port self.new port ≡ value }
        ensures others { (p : InPort) → p ≢ port → at_in_port self.new p ≡ at_in_port self.old p }
    {
        match port {
            InPort::Netlist => mem::replace(&mut self.netlist, value),
            InPort::Tests => mem::replace(&mut self.tests, value),
            InPort::Report => mem::replace(&mut self.report, value),
            InPort::Proofs => mem::replace(&mut self.proofs, value),
            InPort::Faults => mem::replace(&mut self.faults, value),
            InPort::Extra => mem::replace(&mut self.extra, value),
        }
    }
}

impl<T: Drop> PerInPort<T> {
    /// Sets the port's value.
    pub fn set(&mut self, port: InPort, value: T)
        ensures set { at_in_port self.new port ≡ value }
        ensures others { (p : InPort) → p ≢ port → at_in_port self.new p ≡ at_in_port self.old p }
    {
        let _ = self.replace(port, value);
    }
}

/// A value for each port that is written.
#[derive(Default, Drop)]
pub struct PerOutPort<T> {
    pub tests: T,
    pub report: T,
    pub proofs: T,
    pub out: T,
    pub err: T,
}

impl<T: Default> PerOutPort<T> {
    /// The type's default, 0 or `None`, for each port.
    pub fn empty() -> Self
        ensures { (p : OutPort) → T.is_default (at_out_port result p) }
    {
        PerOutPort::default()
    }
}

impl<T> PerOutPort<T> {
    /// The port's value.
    pub fn get(&self, port: OutPort) -> &T
        ensures { result.now ≡ at_out_port self.now port }
    {
        match port {
            OutPort::Tests => &self.tests,
            OutPort::Report => &self.report,
            OutPort::Proofs => &self.proofs,
            OutPort::Out => &self.out,
            OutPort::Err => &self.err,
        }
    }

    /// Sets the port's value, and gives the one that it had.
    pub fn replace(&mut self, port: OutPort, value: T) -> T
        ensures old { result ≡ at_out_port self.old port }
        ensures set { at_out_port self.new port ≡ value }
        ensures others { (p : OutPort) → p ≢ port → at_out_port self.new p
            ≡ at_out_port self.old p }
    {
        match port {
            OutPort::Tests => mem::replace(&mut self.tests, value),
            OutPort::Report => mem::replace(&mut self.report, value),
            OutPort::Proofs => mem::replace(&mut self.proofs, value),
            OutPort::Out => mem::replace(&mut self.out, value),
            OutPort::Err => mem::replace(&mut self.err, value),
        }
    }
}

impl<T: Drop> PerOutPort<T> {
    /// Sets the port's value.
    pub fn set(&mut self, port: OutPort, value: T)
        ensures set { at_out_port self.new port ≡ value }
        ensures others { (p : OutPort) → p ≢ port → at_out_port self.new p
            ≡ at_out_port self.old p }
    {
        let _ = self.replace(port, value);
    }
}
