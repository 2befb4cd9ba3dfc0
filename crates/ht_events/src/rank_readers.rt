//! The ranks of what reads each net.
ghost use Rattle.std.specs.Prelude.{◌≡◌, ◌<◌, ℕ, length, get_or, IfOk};
ghost use Rattle.std.specs.List.{Contains};
ghost use Rattle.ht_net.specs.Circuit.Netlist.{net_count};
ghost use Rattle.ht_events.specs.Items.{frame_items};
ghost use Rattle.ht_events.specs.Schedules.{AreGateRanks, AreReaders, ReadsFrom};

use crate::readers::Readers;
use ht_items::FlatRows;
use ht_net::{Circuit, NetId};
use std::alloc::{AllocError, Global};

// The ranks of the nets that the gates among these items of a frame drive.
fn gate_ranks(
    alloc: Global,
    circuit: &Circuit,
    ranks: &[u32],
    items: &[u32],
) -> Result<Vec<u32>, AllocError>
    requires count { length ranks.now ≡ net_count circuit.now }
    requires known { (l : ℕ) → Contains items.now l → l < frame_items circuit.now }
    ensures { IfOk result (λ row. AreGateRanks circuit.now ranks.now items.now row.items) }
{
    // for the proof: the circuit is well formed
    let _ = circuit.nets();
    let inputs = circuit.inputs();
    let dffs = circuit.dffs();
    let mut row = Vec::new(alloc);
    for item in items {
        if *item >= dffs {
            row.push(ranks[(inputs + *item) as usize])?;
        }
    }
    Ok(row)
}

/// For each net, by its number, the ranks of the nets whose gates read it. A gate that reads the net at two pins stands
/// there twice.
///
/// # Errors
/// Out of memory.
pub fn readers(alloc: Global, circuit: &Circuit, ranks: &[u32]) -> Result<FlatRows<u32>, AllocError>
    requires count { length ranks.now ≡ net_count circuit.now }
    requires small { (x : ℕ) → x < net_count circuit.now
        → get_or ranks.now x 0 < net_count circuit.now }
    requires rises { (y x : ℕ) → ReadsFrom circuit.now y x
        → get_or ranks.now x 0 < get_or ranks.now y 0 }
    ensures { IfOk result (λ readers. AreReaders circuit.now ranks.now readers) }
{
    let table = Readers::new(alloc, circuit)?;
    let mut readers = FlatRows::new(alloc);
    for net in 0..circuit.nets() {
        let row = gate_ranks(alloc, circuit, ranks, table.row(NetId(net)))?;
        readers.push(&row)?;
    }
    Ok(readers)
}
