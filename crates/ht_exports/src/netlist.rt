//! Netlists as they cross, each as a text.
use ht_bench::read;
use ht_net::Circuit;
use std::alloc::Global;

// The most bytes of a netlist.
const MAX_BYTES: usize = 16_777_216;

/// The circuit of a netlist; none where it is too long or refused, or memory ran out.
pub fn read_circuit(alloc: Global, netlist: &[u8]) -> Option<Circuit> {
    if netlist.len() > MAX_BYTES {
        return None;
    }
    read(alloc, netlist).ok()
}
