//! Nets by rank, the gates that drive them, and what reads them.
use crate::line::Line;
use crate::rows::{Rows, number_at, row_at};
use ht_items::FlatRows;
use ht_net::{Circuit, NetId, Site};
use ht_tern::Kind;
use std::alloc::{AllocError, Global};

/// A gate: its kind, and where its pins stand in the row of all pins.
#[derive(Clone, Copy)]
pub struct Gate {
    /// Its kind.
    pub kind: Kind,
    begin: usize,
    end: usize,
}

/// A circuit by the ranks of its nets: inputs, what flip-flops drive, and then what gates drive, each after the nets at
/// its pins.
#[derive(Drop)]
pub struct Wiring {
    inputs: u32,
    // the net at the data pin of each flip-flop
    data: Vec<u32>,
    // gate i drives net `sources + i`
    gates: Vec<Gate>,
    // the nets at the pins of all gates
    pins: Vec<u32>,
    // by net, the nets whose gates read it
    readers: FlatRows<u32>,
    // by net, the flip-flops at whose data pins it is
    latches: FlatRows<u32>,
    // by net, whether it is an output
    outputs: Vec<bool>,
    // the rank of each net of the circuit
    ranks: Vec<u32>,
}

// The numbers of all nets.
fn net_numbers(alloc: Global, circuit: &Circuit) -> Result<Vec<u32>, AllocError> {
    let mut numbers = Vec::with_capacity(alloc, circuit.nets() as usize)?;
    for net in 0..circuit.nets() {
        numbers.push(net)?;
    }
    Ok(numbers)
}

// The rank of each net of a circuit.
fn net_ranks(alloc: Global, circuit: &Circuit) -> Result<Vec<u32>, AllocError> {
    let mut ranks = net_numbers(alloc, circuit)?;
    let first = circuit.inputs().saturating_add(circuit.dffs());
    let mut rank = first;
    for gate in circuit.order() {
        if let Some(place) = ranks.get_mut(first.saturating_add(*gate) as usize) {
            *place = rank;
        }
        rank = rank.saturating_add(1);
    }
    Ok(ranks)
}

// The nets at the data pins.
fn data_nets(alloc: Global, circuit: &Circuit, ranks: &[u32]) -> Result<Vec<u32>, AllocError> {
    let mut data = Vec::with_capacity(alloc, circuit.dffs() as usize)?;
    for dff in 0..circuit.dffs() {
        data.push(number_at(ranks, circuit.dff_data(dff).index()))?;
    }
    Ok(data)
}

// By net, whether it is an output.
fn output_marks(alloc: Global, circuit: &Circuit, ranks: &[u32]) -> Result<Vec<bool>, AllocError> {
    let mut marks = vec![in alloc; false; circuit.nets() as usize]?;
    for output in 0..circuit.outputs() {
        let net = number_at(ranks, circuit.output(output).index());
        if let Some(mark) = marks.get_mut(net as usize) {
            *mark = true;
        }
    }
    Ok(marks)
}

// By net, the flip-flops at whose data pins it is.
fn latches_of(alloc: Global, data: &[u32], nets: usize) -> Result<FlatRows<u32>, AllocError> {
    let mut latches = Rows::new(alloc, nets)?;
    let mut dff: u32 = 0;
    for net in data {
        latches.add(*net, dff)?;
        dff = dff.saturating_add(1);
    }
    latches.flat(alloc)
}

impl Wiring {
    /// The wiring of a circuit.
    ///
    /// # Errors
    /// Out of memory.
    pub fn new(alloc: Global, circuit: &Circuit) -> Result<Wiring, AllocError> {
        let ranks = net_ranks(alloc, circuit)?;
        let mut wiring = Wiring {
            inputs: circuit.inputs(),
            data: Vec::new(alloc),
            gates: Vec::new(alloc),
            pins: Vec::new(alloc),
            readers: FlatRows::new(alloc),
            latches: FlatRows::new(alloc),
            outputs: Vec::new(alloc),
            ranks,
        };
        wiring.fill(alloc, circuit)?;
        Ok(wiring)
    }

    // Says all that is read by rank.
    fn fill(&mut self, alloc: Global, circuit: &Circuit) -> Result<(), AllocError> {
        self.data = data_nets(alloc, circuit, &self.ranks)?;
        self.outputs = output_marks(alloc, circuit, &self.ranks)?;
        self.latches = latches_of(alloc, &self.data, self.ranks.len())?;
        let mut readers = Rows::new(alloc, self.ranks.len())?;
        self.add_gates(circuit, &mut readers)?;
        self.readers = readers.flat(alloc)?;
        Ok(())
    }

    // Adds the gate that drives a net, by the nets at its pins.
    fn add_gate(
        &mut self,
        kind: Kind,
        net: u32,
        args: &[NetId],
        readers: &mut Rows,
    ) -> Result<(), AllocError> {
        let begin = self.pins.len();
        for arg in args {
            let read = self.rank(*arg);
            self.pins.push(read)?;
            readers.add(read, net)?;
        }
        let end = self.pins.len();
        self.gates.push(Gate { kind, begin, end })?;
        Ok(())
    }

    // Adds the gates of a circuit, in its order.
    fn add_gates(&mut self, circuit: &Circuit, readers: &mut Rows) -> Result<(), AllocError> {
        let mut net = circuit.inputs().saturating_add(circuit.dffs());
        for gate in circuit.order() {
            if *gate < circuit.gates() {
                let args = circuit.gate_args(*gate);
                self.add_gate(circuit.gate_kind(*gate), net, args, readers)?;
            }
            net = net.saturating_add(1);
        }
        Ok(())
    }

    /// How many inputs there are.
    pub fn inputs(&self) -> u32 {
        self.inputs
    }

    /// How many flip-flops there are.
    pub fn dffs(&self) -> usize {
        self.data.len()
    }

    /// How many inputs and flip-flops there are: the net of the first gate.
    pub fn sources(&self) -> usize {
        (self.inputs as usize).saturating_add(self.data.len())
    }

    /// How many nets there are.
    pub fn nets(&self) -> usize {
        self.ranks.len()
    }

    /// The net that a flip-flop drives.
    pub fn dff_net(&self, dff: u32) -> u32 {
        self.inputs.saturating_add(dff)
    }

    /// The flip-flop that drives a net, if one does.
    pub fn dff(&self, net: u32) -> Option<u32> {
        if net < self.inputs || net as usize >= self.sources() {
            return None;
        }
        Some(net - self.inputs)
    }

    /// The net at the data pin of a flip-flop.
    #[inline(always)]
    pub fn data(&self, dff: u32) -> u32 {
        number_at(&self.data, dff as usize)
    }

    /// The gate that drives a net, if one does.
    #[inline(always)]
    pub fn gate(&self, net: u32) -> Option<Gate> {
        let gate = (net as usize).checked_sub(self.sources())?;
        self.gates.get(gate).copied()
    }

    /// The nets at the pins of a gate.
    #[inline(always)]
    pub fn pins(&self, gate: Gate) -> &[u32] {
        match self.pins.get(gate.begin..gate.end) {
            Some(pins) => pins,
            None => &[],
        }
    }

    /// The nets whose gates read a net.
    #[inline(always)]
    pub fn readers(&self, net: u32) -> &[u32] {
        row_at(&self.readers, net)
    }

    /// The flip-flops at whose data pins a net is.
    #[inline(always)]
    pub fn latches(&self, net: u32) -> &[u32] {
        row_at(&self.latches, net)
    }

    /// Whether a net is an output.
    #[inline(always)]
    pub fn is_output(&self, net: u32) -> bool {
        match self.outputs.get(net as usize) {
            Some(mark) => *mark,
            None => false,
        }
    }

    // The rank of a net of the circuit.
    fn rank(&self, net: NetId) -> u32 {
        number_at(&self.ranks, net.index())
    }

    /// The line that a site of the circuit is.
    pub fn line(&self, site: Site) -> Line {
        match site {
            Site::Stem(net) => Line::Net(self.rank(net)),
            Site::DffPin { dff } => Line::Data { dff },
            Site::GatePin { gate, pin } => {
                let net = self.sources().saturating_add(gate as usize);
                Line::Pin {
                    net: number_at(&self.ranks, net),
                    pin: pin as usize,
                }
            }
        }
    }
}
