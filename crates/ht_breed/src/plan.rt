//! A circuit as the breeding reads it.
ghost use Rattle.std.specs.Prelude.{◌<◌};

use ht_net::{Circuit, Fault, NetId, Site};
use ht_tern::Kind;
use std::alloc::{AllocError, Global};

/// A gate: its kind, and where its pins stand in the row of all pins.
#[derive(Clone, Copy)]
pub struct PlanGate {
    pub kind: Kind,
    pub begin: usize,
    pub end: usize,
}

/// A line that a fault stands on: a net by its rank, the data pin of a flip-flop, or a pin in the row of all pins.
#[derive(Clone, Copy)]
pub enum PlanSite {
    Net(u32),
    Data(u32),
    Pin(u32),
}

/// A fault as the plan has it.
#[derive(Clone, Copy)]
pub struct PlanFault {
    pub site: PlanSite,
    pub value: bool,
}

/// A circuit with its nets by rank: inputs, what flip-flops drive, and then what gates drive, each gate after those that
/// drive its pins. So a frame goes through memory once, and back once. Gates of a level stand by kind and by number of
/// pins: a jump by the kind is then guessed right mostly.
#[derive(Drop)]
pub struct Plan {
    /// How many inputs there are.
    pub inputs: usize,
    /// The net at the data pin of each flip-flop.
    pub data: Vec<u32>,
    /// All gates; gate i drives net `first_gate() + i`.
    pub gates: Vec<PlanGate>,
    /// The nets at the pins of all gates.
    pub pins: Vec<u32>,
    /// The nets that are outputs.
    pub outputs: Vec<u32>,
    // the rank of each net of the circuit
    ranks: Vec<u32>,
}

// What gates are ordered by: the level comes first.
#[derive(Clone, Copy, PartialEq, Eq, PartialOrd, Ord)]
struct GateKey {
    level: u32,
    kind: u8,
    pins: usize,
    gate: u32,
}

// The gates of a circuit in the plan's order.
fn ordered_gates(alloc: Global, circuit: &Circuit) -> Result<Vec<GateKey>, AllocError> {
    let mut keys = Vec::new(alloc);
    for gate in 0..circuit.gates() {
        keys.push(GateKey {
            level: circuit.level(gate),
            kind: circuit.gate_kind(gate) as u8,
            pins: circuit.gate_args(gate).len(),
            gate,
        })?;
    }
    keys.sort()?;
    Ok(keys)
}

// The numbers of all nets.
fn net_numbers(alloc: Global, circuit: &Circuit) -> Result<Vec<u32>, AllocError> {
    let mut numbers = Vec::new(alloc);
    for net in 0..circuit.nets() {
        numbers.push(net)?;
    }
    Ok(numbers)
}

// The rank of each net.
fn net_ranks(alloc: Global, circuit: &Circuit, order: &[GateKey]) -> Result<Vec<u32>, AllocError> {
    let mut ranks = net_numbers(alloc, circuit)?;
    let first = circuit.inputs().saturating_add(circuit.dffs());
    let mut rank = first;
    for key in order {
        if let Some(place) = ranks.get_mut(first.saturating_add(key.gate) as usize) {
            *place = rank;
        }
        rank = rank.saturating_add(1);
    }
    Ok(ranks)
}

impl Plan {
    /// The plan of a circuit.
    ///
    /// # Errors
    /// Out of memory.
    pub fn new(alloc: Global, circuit: &Circuit) -> Result<Plan, AllocError> {
        let order = ordered_gates(alloc, circuit)?;
        let ranks = net_ranks(alloc, circuit, &order)?;
        let mut plan = Plan {
            inputs: circuit.inputs() as usize,
            data: Vec::new(alloc),
            gates: Vec::new(alloc),
            pins: Vec::new(alloc),
            outputs: Vec::new(alloc),
            ranks,
        };
        plan.add_gates(circuit, &order)?;
        plan.add_data(circuit)?;
        plan.add_outputs(circuit)?;
        Ok(plan)
    }

    // The rank of a net of the circuit.
    fn rank(&self, net: NetId) -> u32 {
        match self.ranks.get(net.index()) {
            Some(rank) => *rank,
            None => u32::MAX,
        }
    }

    // Adds the gates, in their order.
    fn add_gates(&mut self, circuit: &Circuit, order: &[GateKey]) -> Result<(), AllocError> {
        for key in order {
            if key.gate < circuit.gates() {
                self.add_gate(circuit.gate_kind(key.gate), circuit.gate_args(key.gate))?;
            }
        }
        Ok(())
    }

    // Adds a gate by the nets at its pins.
    fn add_gate(&mut self, kind: Kind, nets: &[NetId]) -> Result<(), AllocError> {
        let begin = self.pins.len();
        for net in nets {
            let rank = self.rank(*net);
            self.pins.push(rank)?;
        }
        let end = self.pins.len();
        self.gates.push(PlanGate { kind, begin, end })?;
        Ok(())
    }

    // Adds the nets at the data pins.
    fn add_data(&mut self, circuit: &Circuit) -> Result<(), AllocError> {
        for dff in 0..circuit.dffs() {
            let rank = self.rank(circuit.dff_data(dff));
            self.data.push(rank)?;
        }
        Ok(())
    }

    // Adds the outputs.
    fn add_outputs(&mut self, circuit: &Circuit) -> Result<(), AllocError> {
        for output in 0..circuit.outputs() {
            let rank = self.rank(circuit.output(output));
            self.outputs.push(rank)?;
        }
        Ok(())
    }

    /// The net of the first gate.
    pub fn first_gate(&self) -> usize {
        self.inputs.saturating_add(self.data.len())
    }

    /// How many nets there are.
    pub fn nets(&self) -> usize {
        self.ranks.len()
    }

    /// The nets at the pins of a gate.
    #[inline(always)]
    pub fn nets_of(&self, gate: PlanGate) -> &[u32] {
        match self.pins.get(gate.begin..gate.end) {
            Some(nets) => nets,
            None => &[],
        }
    }

    // Where a pin of a gate of the circuit stands in the row of all pins.
    fn pin(&self, circuit: &Circuit, gate: u32, pin: u8) -> u32 {
        if gate >= circuit.gates() {
            return u32::MAX;
        }
        let rank = self.rank(circuit.gate_net(gate)) as usize;
        match self.gates.get(rank.saturating_sub(self.first_gate())) {
            Some(planned) => {
                u32::try_from(planned.begin.saturating_add(pin as usize)).unwrap_or(u32::MAX)
            },
            None => u32::MAX,
        }
    }

    // The site of a fault of the circuit.
    fn site(&self, circuit: &Circuit, site: Site) -> PlanSite {
        match site {
            Site::Stem(net) => PlanSite::Net(self.rank(net)),
            Site::DffPin { dff } => PlanSite::Data(dff),
            Site::GatePin { gate, pin } => PlanSite::Pin(self.pin(circuit, gate, pin)),
        }
    }

    /// Faults of the circuit, in their order.
    ///
    /// # Errors
    /// Out of memory.
    pub fn faults(
        &self,
        alloc: Global,
        circuit: &Circuit,
        faults: &[Fault],
    ) -> Result<Vec<PlanFault>, AllocError> {
        let mut planned = Vec::new(alloc);
        for fault in faults {
            planned.push(PlanFault {
                site: self.site(circuit, fault.site),
                value: fault.value,
            })?;
        }
        Ok(planned)
    }
}
