//! The order in which nets get their values.
ghost use Rattle.std.specs.Prelude.{◌≡◌, ◌<◌, length, get_or, IfOk};
ghost use Rattle.ht_events.specs.Schedules.{IsSchedule};

use crate::rank_readers::readers;
use crate::ranks::ranking;
use ht_items::FlatRows;
use ht_net::Circuit;
use std::alloc::{AllocError, Global};

/// The nets of a circuit in the order in which they get their values, and what reads each. A rank counts from 0.
#[derive(Drop)]
pub struct Schedule {
    /// The nets: inputs and flip-flops, and then gates, each after those that drive its arguments.
    pub order: Vec<u32>,
    /// The rank of each net there.
    pub ranks: Vec<u32>,
    /// For each net the ranks of the nets whose gates read it.
    pub readers: FlatRows<u32>,
}

impl Schedule {
    /// The schedule of a circuit.
    ///
    /// # Errors
    /// Out of memory.
    pub fn new(alloc: Global, circuit: &Circuit) -> Result<Schedule, AllocError>
        ensures { IfOk result (λ schedule. IsSchedule circuit.now schedule) }
    {
        // for the proof: the circuit is well formed
        let _ = circuit.nets();
        let sources = circuit.inputs() + circuit.dffs();
        let (order, ranks) = ranking(alloc, circuit, sources)?;
        let readers = readers(alloc, circuit, &ranks)?;
        Ok(Schedule {
            order,
            ranks,
            readers,
        })
    }

    /// The net of a rank.
    pub fn net(&self, rank: u32) -> u32
        requires { rank < length self.now.order.items }
        ensures { result ≡ get_or self.now.order.items rank 0 }
    {
        self.order[rank as usize]
    }

    /// The rank of a net.
    pub fn rank(&self, net: u32) -> u32
        requires { net < length self.now.ranks.items }
        ensures { result ≡ get_or self.now.ranks.items net 0 }
    {
        self.ranks[net as usize]
    }
}
