//! What it costs to bring a line to a value.
use ht_net::{Circuit, NetId};
use ht_tern::Kind;
use std::alloc::{AllocError, Global};

// An input is free.
const INPUT_COST: u32 = 1;

// What a latch holds has to be brought about in the frame before.
const LATCH_COST: u32 = 100;

// No cost is higher: sums stay within 32 bits.
const MAX_COST: u32 = 1_000_000_000;

/// What it costs to bring a line to 0 and to 1.
#[derive(Clone, Copy, PartialEq, Eq, Debug)]
pub struct Cost {
    pub zero: u32,
    pub one: u32,
}

impl Cost {
    // The same for both values.
    fn even(cost: u32) -> Cost {
        Cost {
            zero: cost,
            one: cost,
        }
    }

    // Of a value.
    fn of(self, value: bool) -> u32 {
        if value { self.one } else { self.zero }
    }

    // Of the cheaper value.
    fn least(self) -> u32 {
        self.zero.min(self.one)
    }

    // Of the complement.
    fn turned(self) -> Cost {
        Cost {
            zero: self.one,
            one: self.zero,
        }
    }
}

// A sum, at most the highest cost.
fn sum(a: u32, b: u32) -> u32 {
    a.saturating_add(b).min(MAX_COST)
}

/// What it costs to bring each net of a circuit to a value, in the manner of SCOAP's controllabilities (L. H.
/// Goldstein, E. L. Thigpen, 1980): 1 for an input, 100 for what a flip-flop holds, and for a gate 1 more than its
/// pins need.
#[derive(Drop)]
pub struct Costs {
    // by net
    costs: Vec<Cost>,
}

impl Costs {
    /// The costs of a circuit's nets.
    ///
    /// # Errors
    /// Out of memory.
    pub fn new(alloc: Global, circuit: &Circuit) -> Result<Costs, AllocError> {
        let mut costs = Vec::new(alloc);
        costs.resize(circuit.nets() as usize, Cost::even(LATCH_COST))?;
        for input in costs.iter_mut().take(circuit.inputs() as usize) {
            *input = Cost::even(INPUT_COST);
        }
        let mut costs = Costs { costs };
        costs.add_gates(circuit);
        Ok(costs)
    }

    // Each gate after those that drive its pins.
    fn add_gates(&mut self, circuit: &Circuit) {
        for g in circuit.order() {
            if *g < circuit.gates() {
                let cost = self.gate_cost(circuit.gate_kind(*g), circuit.gate_args(*g));
                let net = circuit.gate_net(*g);
                if let Some(own) = self.costs.get_mut(net.index()) {
                    *own = cost;
                }
            }
        }
    }

    /// The costs of a net; of one that isn't there nothing.
    pub fn of(&self, net: NetId) -> Cost {
        match self.costs.get(net.index()) {
            Some(cost) => *cost,
            None => Cost::even(0),
        }
    }

    // What a gate's output costs.
    fn gate_cost(&self, kind: Kind, args: &[NetId]) -> Cost {
        let plain = match args {
            [arg] => self.of(*arg),
            _ => match kind {
                Kind::Xor | Kind::Xnor => self.parity_cost(args),
                Kind::Or | Kind::Nor => self.controlled_cost(args, true),
                _ => self.controlled_cost(args, false),
            },
        };
        let cost = if kind.inverts() {
            plain.turned()
        } else {
            plain
        };
        Cost {
            zero: sum(cost.zero, 1),
            one: sum(cost.one, 1),
        }
    }

    // A parity needs each pin, and about as much for either value.
    fn parity_cost(&self, args: &[NetId]) -> Cost {
        let mut total = 0;
        for arg in args {
            total = sum(total, self.of(*arg).least());
        }
        Cost::even(total)
    }

    // The controlling value needs one pin, the cheapest, and the other value each pin.
    fn controlled_cost(&self, args: &[NetId], controlling: bool) -> Cost {
        let mut least = MAX_COST;
        let mut total = 0;
        for arg in args {
            let cost = self.of(*arg);
            least = least.min(cost.of(controlling));
            total = sum(total, cost.of(!controlling));
        }
        if controlling {
            Cost {
                zero: total,
                one: least,
            }
        } else {
            Cost {
                zero: least,
                one: total,
            }
        }
    }
}
