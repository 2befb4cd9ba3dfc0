//! The lines that are stuck, each in the lanes of its faults.
ghost use Rattle.std.specs.Prelude.{◌≡◌, ◌<◌, ◌-◌, ◌+◌, ◌++◌, ◌∷◌, [], ℕ, length, get_or, set, take, IfOk, OnOk, OnErr};
ghost use Rattle.ht_net.specs.Circuit.Netlist.{net_count};
ghost use Rattle.ht_group.specs.GroupView.{HasSite, lane_count};
ghost use Rattle.ht_lanes.specs.Lanes.{lane};
ghost use Rattle.ht_group.specs.LaneRules.{rules_at};
ghost use Rattle.ht_items.specs.Bits.{with_bit};
ghost use Rattle.ht_group.specs.StuckTables.{AreGateLanes, AreStuck, dff_slot, gate_slot, slot_count, slot_of};

use ht_items::with_bit;
use ht_lanes::Word;
use ht_net::{Circuit, Fault, Site};
use std::alloc::{AllocError, Global};

/// Up to 64 faults of a circuit, one a lane, and for each line the lanes that are stuck there. So a line where no fault
/// stands costs one test.
#[derive(Drop)]
pub struct StuckLines {
    /// The fault of each lane.
    pub faults: Vec<Fault>,
    /// The lanes that are stuck at 1.
    pub ones: u64,
    /// For each net, then for each gate, then for each flip-flop: the lanes whose fault is at its stem, at one of its
    /// pins, at its data pin.
    pub table: Vec<u64>,
}

// Where the table has the pins of a gate.
fn slot_of_gate(circuit: &Circuit, g: u32) -> usize
    requires { g < length circuit.now.gates }
    ensures { result ≡ gate_slot circuit.now g }
{
    circuit.nets() as usize + g as usize
}

// Where the table has the data pin of a flip-flop.
fn slot_of_dff(circuit: &Circuit, j: u32) -> usize
    requires { j < length circuit.now.dffs }
    ensures { result ≡ dff_slot circuit.now j }
{
    circuit.nets() as usize + circuit.gates() as usize + j as usize
}

// Where the table has a site.
fn slot_of(circuit: &Circuit, site: Site) -> usize
    requires { HasSite circuit.now site }
    ensures slot { result ≡ slot_of circuit.now site }
    ensures within { result < slot_count circuit.now }
{
    match site {
        Site::Stem(net) => net.index(),
        Site::GatePin { gate, .. } => slot_of_gate(circuit, gate),
        Site::DffPin { dff } => slot_of_dff(circuit, dff),
    }
}

// Writes lane `k` of a slot.
fn write_lane(table: &mut [u64], slot: usize, k: u32, bit: bool)
    requires slot { slot < length table.old }
    requires lane { k < 64 }
    ensures { table.new ≡ set table.old slot (with_bit (get_or table.old slot 0) k bit) }
{
    table[slot] = with_bit(table[slot], k, bit);
}

impl StuckLines {
    /// No faults.
    ///
    /// # Errors
    /// Out of memory.
    pub fn new(alloc: Global, circuit: &Circuit) -> Result<StuckLines, AllocError>
        ensures stuck { IfOk result (λ lines. AreStuck circuit.now lines) }
        ensures none { IfOk result (λ lines. lines.faults.items ≡ []) }
    {
        let slots = circuit.nets() as usize + circuit.gates() as usize + circuit.dffs() as usize;
        Ok(StuckLines {
            faults: Vec::new(alloc),
            ones: 0,
            table: vec![in alloc; 0; slots]?,
        })
    }

    /// Gives the next lane a fault.
    ///
    /// # Errors
    /// Out of memory; the faults are as before.
    pub fn add(&mut self, circuit: &Circuit, fault: Fault) -> Result<(), AllocError>
        requires stuck { AreStuck circuit.now self.old }
        requires room { length self.old.faults.items < lane_count }
        requires site { HasSite circuit.now fault.site }
        ensures stuck { AreStuck circuit.now self.new }
        ensures ok { OnOk result (self.new.faults.items ≡ self.old.faults.items ++ fault ∷ []) }
        ensures err { OnErr result (self.new.faults.items ≡ self.old.faults.items) }
    {
        let k = self.faults.len() as u32;
        self.faults.push(fault)?;
        self.ones = with_bit(self.ones, k, fault.value);
        write_lane(&mut self.table, slot_of(circuit, fault.site), k, true);
        Ok(())
    }

    // Takes the last fault away.
    fn pop(&mut self, circuit: &Circuit)
        requires { AreStuck circuit.now self.old }
        ensures stuck { AreStuck circuit.now self.new }
        ensures faults { self.new.faults.items
            ≡ take (length self.old.faults.items - 1) self.old.faults.items }
    {
        if let Some(fault) = self.faults.pop() {
            let k = self.faults.len() as u32;
            write_lane(&mut self.table, slot_of(circuit, fault.site), k, false);
        }
    }

    /// Takes all faults away.
    pub fn clear(&mut self, circuit: &Circuit)
        requires { AreStuck circuit.now self.old }
        ensures stuck { AreStuck circuit.now self.new }
        ensures none { self.new.faults.items ≡ [] }
    {
        while !self.faults.is_empty() {
            self.pop(circuit);
        }
    }

    /// What the stem of a net makes of a word.
    pub fn stem(&self, circuit: &Circuit, net: u32, word: Word) -> Word
        requires stuck { AreStuck circuit.now self.now }
        requires net { net < net_count circuit.now }
        ensures { (k : ℕ) → k < lane_count
            → lane result k ≡ (rules_at self.now.faults.items k).stem net (lane word k) }
    {
        word.stick(self.table[net as usize], self.ones)
    }

    /// What the data pin of a flip-flop makes of a word.
    pub fn data_pin(&self, circuit: &Circuit, dff: u32, word: Word) -> Word
        requires stuck { AreStuck circuit.now self.now }
        requires dff { dff < length circuit.now.dffs }
        ensures { (k : ℕ) → k < lane_count
            → lane result k ≡ (rules_at self.now.faults.items k).data_pin dff (lane word k) }
    {
        word.stick(self.table[slot_of_dff(circuit, dff)], self.ones)
    }

    /// The lanes whose fault is at a pin of a gate.
    pub fn at_gate(&self, circuit: &Circuit, g: u32) -> u64
        requires stuck { AreStuck circuit.now self.now }
        requires gate { g < length circuit.now.gates }
        ensures { AreGateLanes self.now.faults.items g result }
    {
        self.table[slot_of_gate(circuit, g)]
    }
}
