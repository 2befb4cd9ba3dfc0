//! The block of families of sets.
ghost use Rattle.std.specs.Prelude.{◌≡◌, ◌≤◌, IfOk, OnOk};
ghost use Rattle.ht_net.specs.Detect.Detection.{IsStart};
ghost use Rattle.ht_full.specs.Known.{AreOfOne, KnowsMore, IsStillOpen};

use crate::known::Known;
use crate::ran::Ran;
use ht_net::Circuit;
use ht_sets::FamilySearch;
use ht_tern::Tern;
use std::alloc::{AllocError, Global};

// So many faults are asked in a chunk.
const CHUNK: u32 = 256;

/// The block of families of sets: each fault is asked once, in the order of the numbers.
#[derive(Drop)]
pub struct SetsBlock<'c> {
    pub search: FamilySearch<'c>,
    // the number from which on no fault was asked
    next: u32,
}

impl<'c> SetsBlock<'c> {
    /// Before its first chunk.
    ///
    /// # Errors
    /// Out of memory.
    pub fn new(
        alloc: Global,
        circuit: &'c Circuit,
        start: &'c [Tern],
    ) -> Result<SetsBlock<'c>, AllocError>
        requires { IsStart circuit.now start.now }
        ensures circuit { IfOk result (λ block. block.search.circuit ≡ circuit.now) }
        ensures start { IfOk result (λ block. block.search.start ≡ start.now) }
    {
        Ok(SetsBlock {
            search: FamilySearch::new(alloc, circuit, start)?,
            next: 0,
        })
    }

    // Asks for an open fault. Each gate that is looked at counts 2. The work that is left then.
    #[tactic(auto, using(crate::proofs::KnownLaws::stays, crate::proofs::KnownLaws::goes_further))]
    fn ask(&mut self, known: &mut Known, fault: u32, left: u64) -> Result<u64, AllocError>
        requires circuit { self.old.search.circuit ≡ known.old.verdicts.circuit }
        requires start { self.old.search.start ≡ known.old.verdicts.start }
        requires is_open { IsStillOpen known.old fault }
        ensures circuit { self.new.search.circuit ≡ self.old.search.circuit }
        ensures start { self.new.search.start ≡ self.old.search.start }
        ensures spent { IfOk result (λ after. after ≤ left) }
        ensures known { OnOk result (KnowsMore known.old known.new) }
        ensures same { AreOfOne known.old known.new }
    {
        let before = self.search.work();
        let found = self.search.find(known.fault(fault), left / 2)?;
        let looked = self.search.work().saturating_sub(before);
        if let Some(rows) = found {
            known.enter_family(fault, rows);
        }
        Ok(left - 2 * looked)
    }

    /// A chunk, within the work that is left.
    ///
    /// # Errors
    /// Out of memory.
    #[tactic(auto, using(crate::proofs::KnownLaws::stays, crate::proofs::KnownLaws::goes_further))]
    pub fn run(&mut self, known: &mut Known, left: u64) -> Result<Ran, AllocError>
        requires circuit { self.old.search.circuit ≡ known.old.verdicts.circuit }
        requires start { self.old.search.start ≡ known.old.verdicts.start }
        ensures circuit { self.new.search.circuit ≡ self.old.search.circuit }
        ensures start { self.new.search.start ≡ self.old.search.start }
        ensures spent { IfOk result (λ ran. ran.spent ≤ left) }
        ensures known { OnOk result (KnowsMore known.old known.new) }
        ensures same { AreOfOne known.old known.new }
    {
        let end = known.faults();
        let mut after = left;
        let mut asked = 0;
        'faults: for fault in self.next..end {
            if asked >= CHUNK || after == 0 {
                break 'faults;
            }
            if known.is_open(fault) {
                after = self.ask(known, fault, after)?;
                asked += 1;
            }
            self.next = fault + 1;
        }
        Ok(Ran {
            spent: left - after,
            late: None,
            lists: false,
            done: self.next >= end,
        })
    }
}
