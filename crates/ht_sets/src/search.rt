//! The search for families, as others call it.
ghost use Rattle.std.specs.Prelude.{◌≡◌, ◌≤◌, ◌+◌, length, IfOk, IfSome};
ghost use Rattle.ht_net.specs.Detect.Detection.{IsStart};
ghost use Rattle.ht_sets.specs.Searches.{IsFamilyOf};

use crate::growth::{Grown, Growth};
use crate::values::{Stuck, set_at};
use ht_families::{Family, closes_by_rows, rows_of};
use ht_net::{Circuit, Fault};
use ht_pairs::PairSet;
use ht_tern::Tern;
use ht_tree::FamilyRow;
use ht_wiring::Wiring;
use std::alloc::{AllocError, Global};
use std::marker::Model;

/// A search for families that close from a start, over the faults of a circuit. Contracts see the circuit, the start, and
/// how many gates were evaluated so far.
#[derive(Drop)]
pub struct FamilySearch<'c> {
    alloc: Global,
    circuit: &'c Circuit,
    start: &'c [Tern],
    wiring: Wiring,
    // what closes for the good machine, and what its nets show then
    good: Growth,
    growth: Growth,
    work: u64,
}

impl<'c> Model for FamilySearch<'c> {
    ghost use Rattle.ht_net.specs.Detect.Detection.{IsStart};
    ghost use Rattle.ht_sets.specs.Searches.{SearchView};

    ghost Value = { SearchView };

    ghost view = { λ a. record { circuit = a.circuit.now; start = a.start.now; work = a.work } };

    ghost invariant = { λ a. IsStart a.circuit.now a.start.now };
}

// Lets the family of the good machine grow.
fn grow_good(alloc: Global, wiring: &Wiring, start: &[Tern]) -> Result<Growth, AllocError> {
    let mut growth = Growth::new(alloc, wiring, start)?;
    growth.cone.find_all(wiring)?;
    let none = Stuck {
        line: None,
        value: false,
    };
    growth.grow(alloc, wiring, start, none, u64::MAX)?;
    Ok(growth)
}

// The sets of so many flip-flops.
fn family_of(alloc: Global, sets: &[PairSet], count: usize) -> Result<Family, AllocError>
    ensures { IfOk result (λ family. length family.items ≡ count) }
{
    let mut family = Vec::with_capacity(alloc, count)?;
    for dff in 0..count {
        family.push(set_at(sets, u32::try_from(dff).unwrap_or(u32::MAX)))?;
    }
    Ok(family)
}

// The rows of a family, where it closes.
fn judge(
    alloc: Global,
    circuit: &Circuit,
    fault: Fault,
    start: &[Tern],
    family: &[PairSet],
) -> Result<Option<Vec<FamilyRow>>, AllocError>
    requires start { IsStart circuit.now start.now }
    requires sets { length family.now ≡ length start.now }
    ensures { IfOk result (λ found. IfSome found
        (λ rows. IsFamilyOf circuit.now start.now fault rows.items)) }
{
    // for the proof: the flip-flops are fewer than 2^32
    let _ = circuit.dffs();
    let rows = rows_of(alloc, start, family)?;
    let closes = closes_by_rows(alloc, circuit, fault, start, &rows)?;
    if closes { Ok(Some(rows)) } else { Ok(None) }
}

impl<'c> FamilySearch<'c> {
    /// A search from a start, which has a value for each flip-flop. The family of the good machine is made.
    ///
    /// # Errors
    /// Out of memory.
    pub fn new(
        alloc: Global,
        circuit: &'c Circuit,
        start: &'c [Tern],
    ) -> Result<FamilySearch<'c>, AllocError>
        requires { IsStart circuit.now start.now }
        ensures { IfOk result (λ search.
            search ≡ record { circuit = circuit.now; start = start.now; work = 0 }) }
    {
        let wiring = Wiring::new(alloc, circuit)?;
        let good = grow_good(alloc, &wiring, start)?;
        let growth = good.clone()?;
        Ok(FamilySearch {
            alloc,
            circuit,
            start,
            wiring,
            good,
            growth,
            work: 0,
        })
    }

    /// How many gates were evaluated so far, and a little more.
    pub fn work(&self) -> u64
        ensures { result ≡ self.now.work }
    {
        self.work
    }

    // Lets the sets of a fault's cone grow, and counts the work.
    fn grow(&mut self, fault: Fault, most: u64) -> Result<Grown, AllocError>
        ensures spent { self.new.work ≤ self.old.work + most }
        ensures same { (self.new.circuit ≡ self.old.circuit) × (self.new.start ≡ self.old.start) }
    {
        self.growth
            .restore(&self.wiring, &self.good.family, &self.good.values.sets);
        let line = self.wiring.line(fault.site);
        self.growth.cone.find(&self.wiring, line, true)?;
        let stuck = Stuck {
            line: Some(line),
            value: fault.value,
        };
        let (grown, left) = self
            .growth
            .grow(self.alloc, &self.wiring, self.start, stuck, most)?;
        self.work = self.work.saturating_add(most - left);
        Ok(grown)
    }

    /// The rows of a family that closes for a fault, or none where none was found. At most `most` gates are evaluated,
    /// beside the frame of the whole circuit that judges what was found.
    ///
    /// # Errors
    /// Out of memory; the search can go on.
    pub fn find(&mut self, fault: Fault, most: u64) -> Result<Option<Vec<FamilyRow>>, AllocError>
        ensures family { IfOk result (λ found.
            IfSome found (λ rows. IsFamilyOf self.old.circuit self.old.start fault rows.items)) }
        ensures spent { self.new.work ≤ self.old.work + most }
        ensures same { (self.new.circuit ≡ self.old.circuit) × (self.new.start ≡ self.old.start) }
    {
        match self.grow(fault, most)? {
            Grown::Closed => {
                let family = family_of(self.alloc, &self.growth.family, self.start.len())?;
                judge(self.alloc, self.circuit, fault, self.start, &family)
            }
            Grown::Shown | Grown::Spent => Ok(None),
        }
    }
}
