//! What reads each net.
ghost use Rattle.std.specs.Prelude.{◌≡◌, ℕ, ◌<◌, ◌≤◌, ◌+◌, ◌^◌, [], length, get_or, map, set, IfOk};
ghost use Rattle.ht_net.specs.Circuit.Netlist.{IsCircuit, net_count};
ghost use Rattle.ht_events.specs.NetRows.{AreEmptyRows, row_of};
ghost use Rattle.ht_events.specs.FramePlans.{IsTable, offset_among};

use ht_net::{Circuit, NetId};
use std::alloc::{AllocError, Global};
use std::marker::Model;

/// Where the readers of one net stand in the flat list of all.
#[derive(Clone, Copy)]
pub struct NetRow {
    pub start: usize,
    pub end: usize,
}

/// For each net, by its number, the items of a frame that read it: item `j` is flip-flop `j`, and item `m + g` is gate
/// `g`, in a circuit with `m` flip-flops. An item that reads the net at two pins stands there twice. Once `place` was
/// called, each stands there by its offset.
#[derive(Drop)]
pub struct Readers {
    items: Vec<u32>,
    rows: Vec<NetRow>,
}

impl Model for Readers {
    ghost use Rattle.std.specs.Prelude.{List, ℕ};

    ghost Value = { List (List ℕ) };

    ghost use Rattle.ht_events.specs.NetRows.{lists_of, AreNetRows};

    ghost view = { λ a. lists_of a.rows.items a.items.items };

    ghost invariant = { λ a. AreNetRows a.rows.items a.items.items };
}

// An empty row for each net, with room for its loads, and the room of all.
fn empty_rows(alloc: Global, circuit: &Circuit) -> Result<(Vec<NetRow>, usize), AllocError>
    ensures rows { IfOk result
        (λ both. AreEmptyRows circuit.now (net_count circuit.now) both.0.items both.1) }
    ensures few { IfOk result (λ both. both.1 < 2 ^ 48) }
    ensures circuit { IsCircuit circuit.now }
{
    let mut rows = Vec::with_capacity(alloc, circuit.nets() as usize)?;
    let mut room = 0;
    for net in 0..circuit.nets() {
        rows.push(NetRow {
            start: room,
            end: room,
        })?;
        room += circuit.loads(NetId(net)) as usize;
    }
    Ok((rows, room))
}

// One more reader of a net.
fn add(rows: &mut Vec<NetRow>, items: &mut Vec<u32>, net: NetId, local: u32)
    requires net { net.0 < length rows.old.items }
    requires room { (row_of rows.old.items net.0).end < length items.old.items }
    requires few { length items.old.items < 2 ^ 48 }
    ensures rows { rows.new.items ≡ set rows.old.items net.0
        (record {
          start = (row_of rows.old.items net.0).start;
          end = (row_of rows.old.items net.0).end + 1;
        }) }
    ensures items { items.new.items
        ≡ set items.old.items (row_of rows.old.items net.0).end local }
{
    let row = rows[net.index()];
    items[row.end] = local;
    rows[net.index()] = NetRow {
        start: row.start,
        end: row.end + 1,
    };
}

// How far from the first position of a frame an item stands that reads a net of it. The frame has as many items as
// there are ranks.
fn offset_among(ranks: &[u32], dffs: u32, item: u32) -> u32
    requires few { length ranks.now < 2 ^ 16 }
    requires small { (l : ℕ) → get_or ranks.now l 0 ≤ length ranks.now }
    ensures { result ≡ offset_among ranks.now dffs item }
{
    let rank = match ranks.get(item as usize) {
        Some(rank) => *rank,
        None => 0,
    };
    // a flip-flop stands in the next frame
    if item < dffs {
        ranks.len() as u32 + rank
    } else {
        rank
    }
}

// Puts the offset of each item in its place.
fn place_all(items: &mut [u32], ranks: &[u32], dffs: u32)
    requires few { length ranks.now < 2 ^ 16 }
    requires small { (l : ℕ) → get_or ranks.now l 0 ≤ length ranks.now }
    ensures { items.new ≡ map (offset_among ranks.now dffs) items.old }
{
    for i in 0..items.len() {
        items[i] = offset_among(ranks, dffs, items[i]);
    }
}

impl Readers {
    /// What reads each net of a circuit.
    ///
    /// # Errors
    /// Out of memory.
    pub fn new(alloc: Global, circuit: &Circuit) -> Result<Readers, AllocError>
        ensures { IfOk result (λ readers. IsTable circuit.now readers) }
    {
        let (mut rows, room) = empty_rows(alloc, circuit)?;
        let mut items = vec![in alloc; 0; room]?;
        let dffs = circuit.dffs();
        for j in 0..dffs {
            add(&mut rows, &mut items, circuit.dff_data(j), j);
        }
        for g in 0..circuit.gates() {
            for arg in circuit.gate_args(g) {
                add(&mut rows, &mut items, *arg, dffs + g);
            }
        }
        Ok(Readers { items, rows })
    }

    /// Puts the offset of each item in its place: how far it stands from the first position of the frame whose net it
    /// reads, where items stand by frame and in it by rank. There are so many flip-flops.
    #[tactic(auto, using(crate::proofs::OffsetLaws::placed_rules))]
    pub fn place(&mut self, ranks: &[u32], dffs: u32)
        requires few { length ranks.now < 2 ^ 16 }
        requires small { (l : ℕ) → get_or ranks.now l 0 ≤ length ranks.now }
        ensures { self.new ≡ map (map (offset_among ranks.now dffs)) self.old }
    {
        place_all(&mut self.items, ranks, dffs);
    }

    /// The items of a frame that read a net, or their offsets.
    pub fn row(&self, net: NetId) -> &[u32]
        requires { net.0 < length self.now }
        ensures { result.now ≡ get_or self.now net.0 [] }
    {
        let row = self.rows[net.index()];
        &self.items[row.start..row.end]
    }
}
