//! The clauses of one frame of both machines.
ghost use Rattle.std.specs.Prelude.{◌≡◌, ◌++◌, ◌<◌, length, IfOk, OnOk};
ghost use Rattle.ht_net.specs.Circuit.Netlist.{first_gate_net, net_count};
ghost use Rattle.ht_net.specs.Frames.Faults.{is_stem};
ghost use Rattle.ht_cubes.specs.Formula.{both_clauses, frame_clauses, is_doubled, latch_clauses, machine_clauses, pin_signals};
ghost use Rattle.ht_cubes.specs.Cones.{marked};

use crate::gates::{push_either, push_gate};
use crate::lines::stuck_line;
use crate::machines::Machines;
use crate::{Rows, Signal};
use ht_frame::gate_pin;
use ht_net::Site;
use std::alloc::{AllocError, Global};

// Whether a net is the stuck stem.
fn is_stuck_stem(site: Site, net: u32) -> bool
    ensures { result ≡ is_stem site net }
{
    match site {
        Site::Stem(stem) => net == stem.0,
        _ => false,
    }
}

impl<'a> Machines<'a> {
    // The pins of gate `g` of a machine.
    #[tactic(auto, using(crate::proofs::ListLaws::pins_more, crate::proofs::ListLaws::pins_all))]
    fn pins_of(&self, alloc: Global, faulty: bool, g: u32) -> Result<Vec<Signal>, AllocError>
        requires gate { g < length self.now.circuit.now.gates }
        requires cone { length self.now.cone.now ≡ net_count self.now.circuit.now }
        ensures { IfOk result (λ pins. pins.items
            ≡ pin_signals self.now.circuit.now self.now.fault (marked self.now.cone.now) faulty g) }
    {
        prove_eq!(self.cone.len(), self.circuit.nets() as usize);
        let mut pins = Vec::new(alloc);
        'lines: for (i, arg) in self.circuit.gate_args(g).iter().enumerate() {
            let line = self.net(faulty, arg.0);
            pins.push(gate_pin(stuck_line(self.fault, faulty), g, i as u8, line))?;
        }
        Ok(pins)
    }

    // Gate `g` of a machine.
    fn push_machine(
        &self,
        alloc: Global,
        rows: &mut Rows,
        faulty: bool,
        g: u32,
    ) -> Result<(), AllocError>
        requires gate { g < length self.now.circuit.now.gates }
        requires cone { length self.now.cone.now ≡ net_count self.now.circuit.now }
        ensures { OnOk result
            (rows.new ≡ rows.old ++ machine_clauses self.now.circuit.now self.now.fault
            (marked self.now.cone.now) faulty g) }
    {
        prove_eq!(self.cone.len(), self.circuit.nets() as usize);
        let out = self.driver(faulty, self.circuit.gate_net(g).0);
        let pins = self.pins_of(alloc, faulty, g)?;
        push_gate(alloc, rows, self.circuit.gate_kind(g), out, &pins)
    }

    // Whether the faulty machine has clauses of its own for gate `g`.
    fn is_doubled(&self, g: u32) -> bool
        requires gate { g < length self.now.circuit.now.gates }
        requires cone { length self.now.cone.now ≡ net_count self.now.circuit.now }
        ensures { result
            ≡ is_doubled self.now.circuit.now self.now.fault (marked self.now.cone.now) g }
    {
        prove_eq!(self.cone.len(), self.circuit.nets() as usize);
        let net = self.circuit.gate_net(g);
        let inside = self.cone[net.index()];
        if !inside {
            return false;
        }
        !is_stuck_stem(self.fault.site, net.0)
    }

    // Gate `g` of the good machine, and of the faulty one where it has clauses of its own.
    fn push_both(&self, alloc: Global, rows: &mut Rows, g: u32) -> Result<(), AllocError>
        requires gate { g < length self.now.circuit.now.gates }
        requires cone { length self.now.cone.now ≡ net_count self.now.circuit.now }
        ensures { OnOk result (rows.new ≡ rows.old
            ++ both_clauses self.now.circuit.now self.now.fault (marked self.now.cone.now) g) }
    {
        self.push_machine(alloc, rows, false, g)?;
        let doubled = self.is_doubled(g);
        if doubled {
            self.push_machine(alloc, rows, true, g)?;
        }
        Ok(())
    }

    // What latch `j` of each machine holds.
    fn push_latch(&self, rows: &mut Rows, j: u32) -> Result<(), AllocError>
        requires latch { j < length self.now.circuit.now.dffs }
        requires cone { length self.now.cone.now ≡ net_count self.now.circuit.now }
        ensures { OnOk result (rows.new ≡ rows.old
            ++ latch_clauses self.now.circuit.now (marked self.now.cone.now) j) }
    {
        prove_eq!(self.cone.len(), self.circuit.nets() as usize);
        let net = self.circuit.dff_net(j);
        push_either(rows, self.driver(false, net.0))?;
        let inside = self.cone[net.index()];
        if inside {
            push_either(rows, self.driver(true, net.0))?;
        }
        Ok(())
    }

    /// The clauses of one frame of both machines.
    pub(crate) fn push_frame(&self, alloc: Global, rows: &mut Rows) -> Result<(), AllocError>
        requires { length self.now.cone.now ≡ net_count self.now.circuit.now }
        ensures { OnOk result (rows.new ≡ rows.old
            ++ frame_clauses self.now.circuit.now self.now.fault (marked self.now.cone.now)) }
    {
        prove_eq!(self.cone.len(), self.circuit.nets() as usize);
        'inputs: for x in 0..self.circuit.inputs() {
            push_either(rows, self.driver(false, x))?;
        }
        'latches: for j in 0..self.circuit.dffs() {
            self.push_latch(rows, j)?;
        }
        'gates: for g in 0..self.circuit.gates() {
            self.push_both(alloc, rows, g)?;
        }
        Ok(())
    }
}
