//! Sources and gates in order, and the rank of each.
ghost use Rattle.std.specs.Prelude.{◌≡◌, ◌≢◌, ◌<◌, ◌≤◌, ◌+◌, ◌^◌, ℕ, length, get_or, IfOk};
ghost use Rattle.ht_net.specs.Circuit.Netlist.{IsCircuit, IsOrder, first_gate_net};
ghost use Rattle.ht_events.specs.Ranks.{AreRanked};

use ht_net::Circuit;
use std::alloc::{AllocError, Global};

// The sources by number, and then the gates in an order of theirs.
fn firing_order(
    alloc: Global,
    circuit: &Circuit,
    sources: u32,
    gates: &[u32],
) -> Result<Vec<u32>, AllocError>
    requires order { IsOrder circuit.now gates.now }
    requires few { sources ≤ first_gate_net circuit.now }
    ensures count { IfOk result
        (λ order. length order.items ≡ sources + length circuit.now.gates) }
    ensures low { IfOk result (λ order. (x : ℕ) → x < sources → get_or order.items x 0 ≡ x) }
    ensures gates { IfOk result (λ order. (k : ℕ) → k < length circuit.now.gates
        → get_or order.items (sources + k) 0 ≡ sources + get_or gates.now k 0) }
{
    // for the proof: the circuit is well formed
    let _ = circuit.nets();
    let mut order = Vec::with_capacity(alloc, (sources + circuit.gates()) as usize)?;
    for source in 0..sources {
        order.push(source)?;
    }
    for g in gates {
        order.push(sources + *g)?;
    }
    Ok(order)
}

// The rank of each number in an order of all.
fn ranks_in(alloc: Global, order: &[u32]) -> Result<Vec<u32>, AllocError>
    requires known { (r : ℕ) → r < length order.now → get_or order.now r 0 < length order.now }
    requires distinct { (q r : ℕ) → q < r → r < length order.now
        → get_or order.now q 0 ≢ get_or order.now r 0 }
    requires few { length order.now < 2 ^ 32 }
    ensures count { IfOk result (λ ranks. length ranks.items ≡ length order.now) }
    ensures ranks { IfOk result
        (λ ranks. (r : ℕ) → r < length order.now
        → get_or ranks.items (get_or order.now r 0) 0 ≡ r) }
{
    let mut ranks = vec![in alloc; 0; order.len()]?;
    for r in 0..order.len() {
        ranks[order[r] as usize] = r as u32;
    }
    Ok(ranks)
}

/// So many sources, the last inputs and flip-flops by number, and then the gates of a circuit, each after what it
/// reads: their order, and the rank of each there. Sources count from 0, and gate `g` is number `sources + g`; ranks
/// count from 0.
///
/// # Errors
/// Out of memory.
pub fn ranking(
    alloc: Global,
    circuit: &Circuit,
    sources: u32,
) -> Result<(Vec<u32>, Vec<u32>), AllocError>
    requires { sources ≤ first_gate_net circuit.now }
    ensures ranked { IfOk result
        (λ both. AreRanked circuit.now sources both.0.items both.1.items) }
    ensures circuit { IsCircuit circuit.now }
{
    let order = firing_order(alloc, circuit, sources, circuit.order())?;
    // for the proof: the circuit is well formed
    let _ = circuit.nets();
    let ranks = ranks_in(alloc, &order)?;
    Ok((order, ranks))
}
