//! Where the effects of the faults of a frame end whose machines hold the good latches.
ghost use Rattle.std.specs.Prelude.{◌≡◌, ◌≢◌, ◌<◌, ℕ, [], Some, None, true, length, replicate, IfOk, OnOk};
ghost use Rattle.ht_tern.specs.declared.tern.Tern.{Tern};
ghost use Rattle.ht_net.specs.Circuit.Netlist.{net_count};
ghost use Rattle.ht_stems.specs.Arrivals.{HasLine};
ghost use Rattle.ht_stems.specs.ArrivedFrames.{AreGoodValues};
ghost use Rattle.ht_stems.specs.ArrivalsView.{good_of_net};
ghost use Rattle.ht_proofs.specs.LaneGrades.{grade_at};
ghost use Rattle.ht_proofs.specs.Followers.{AreCopied, AreFollowers, GoesThrough, Joins, first_in, firsts_if, no_firsts, with_first};

use crate::batch::Batch;
use crate::grade::Grade;
use ht_net::{Circuit, Fault, NetId};
use ht_stems::{Arrival, Arrivals};
use ht_tern::Tern;
use std::alloc::{AllocError, Global};

/// A fault that arrives where an earlier one of the frame did, and takes over its grade.
#[derive(Clone, Copy)]
pub struct Follower {
    pub fault: usize,
    pub first: usize,
}

/// The first fault of a frame that arrived at a net, for each value.
#[derive(Clone, Copy)]
pub struct Firsts {
    pub zero: Option<usize>,
    pub one: Option<usize>,
    pub unknown: Option<usize>,
}

impl Firsts {
    /// No fault has arrived.
    pub fn none() -> Firsts
        ensures { result ≡ no_firsts }
    {
        Firsts {
            zero: None,
            one: None,
            unknown: None,
        }
    }

    /// The first that arrived with a value.
    pub fn at(&self, value: Tern) -> Option<usize>
        ensures { result ≡ first_in self.now value }
    {
        match value {
            Tern::Zero => self.zero,
            Tern::One => self.one,
            Tern::Unk => self.unknown,
        }
    }

    /// The same once a fault is the first that arrived with a value.
    pub fn with(self, value: Tern, fault: usize) -> Firsts
        ensures { result ≡ with_first self value fault }
    {
        let fault = Some(fault);
        match value {
            Tern::Zero => Firsts {
                zero: fault,
                ..self
            },
            Tern::One => Firsts { one: fault, ..self },
            Tern::Unk => Firsts {
                unknown: fault,
                ..self
            },
        }
    }
}

/// Where effects end in a frame, the faults that were the first to arrive at a stem, and those that follow them.
// Faults that hold the good latches and arrive at a stem with one value show the same in the frame, so one lane serves
// them all (H. K. Lee, D. S. Ha, "HOPE: An Efficient Parallel Fault Simulator for Synchronous Sequential Circuits",
// 1996). Over 20,000 gates and 400 vectors `sim` takes 0.63 times the seconds of plain Rust without it, which was as
// fast as `sim` before (docs/MEASURED.md).
#[derive(Drop)]
pub struct Stems<'c> {
    /// Whether it was found in this frame where effects end. If not, each fault takes a lane.
    pub found: bool,
    pub arrivals: Arrivals<'c>,
    /// By the number of the net.
    pub firsts: Vec<Firsts>,
    pub followers: Vec<Follower>,
}

impl<'c> Stems<'c> {
    /// No faults, and no frame yet.
    ///
    /// # Errors
    /// Out of memory.
    pub fn new(alloc: Global, circuit: &'c Circuit, good: &[Tern]) -> Result<Stems<'c>, AllocError>
        requires { length good.now ≡ net_count circuit.now }
        ensures circuit { IfOk result (λ stems. stems.arrivals.circuit ≡ circuit.now) }
        ensures table { IfOk result (λ stems. length stems.firsts.items ≡ net_count circuit.now) }
    {
        Ok(Stems {
            found: false,
            arrivals: Arrivals::of(alloc, circuit, good)?,
            firsts: vec![in alloc; Firsts::none(); circuit.nets() as usize]?,
            followers: Vec::new(alloc),
        })
    }

    /// No faults yet, in a frame with these good values, for which is found where effects end if that is asked for.
    pub fn start(&mut self, good: &[Tern], find: bool)
        requires { length good.now ≡ net_count self.old.arrivals.circuit }
        ensures found { self.new.found ≡ find }
        ensures arrivals { find ≡ true
            → self.new.arrivals ≡ record self.old.arrivals { good = good.now } }
        ensures circuit { self.new.arrivals.circuit ≡ self.old.arrivals.circuit }
        ensures firsts { find ≡ true → self.new.firsts.items
            ≡ replicate (length self.old.firsts.items) no_firsts }
        ensures table { length self.new.firsts.items ≡ length self.old.firsts.items }
        ensures followers { self.new.followers.items ≡ [] }
    {
        self.found = find;
        self.followers.clear();
        if find {
            self.arrivals.refill(good);
            self.firsts.fill(Firsts::none());
        }
    }

    // Whether fault `i` is the first that arrives at a net with a value; if not it follows the first.
    fn is_first(&mut self, net: NetId, value: Tern, i: usize) -> Result<bool, AllocError>
        requires { net.0 < length self.old.firsts.items }
        ensures joins { IfOk result (λ first. Joins net.0 value i self.old.firsts.items
            self.old.followers.items first self.new.firsts.items self.new.followers.items) }
        ensures table { length self.new.firsts.items ≡ length self.old.firsts.items }
        ensures arrivals { self.new.arrivals ≡ self.old.arrivals }
        ensures found { self.new.found ≡ self.old.found }
    {
        let firsts = self.firsts[net.index()];
        if let Some(first) = firsts.at(value) {
            self.followers.push(Follower { fault: i, first })?;
            return Ok(false);
        }
        self.firsts[net.index()] = firsts.with(value, i);
        Ok(true)
    }

    /// Whether fault `i`, which isn't detected, needs a lane. One that needs none is graded, or follows another one.
    ///
    /// # Errors
    /// Out of memory.
    pub fn needs_lane(
        &mut self,
        batch: &Batch,
        fault: Fault,
        i: usize,
        number: u64,
        grades: &mut [Grade],
    ) -> Result<bool, AllocError>
        requires inside { i < length grades.old }
        requires undetected { (grade_at grades.old i).verdict ≡ None }
        requires line { HasLine batch.now.group.circuit fault.site }
        requires circuit { self.old.arrivals.circuit ≡ batch.now.group.circuit }
        requires table { length self.old.firsts.items ≡ net_count batch.now.group.circuit }
        requires good { self.old.found ≡ true → AreGoodValues batch.now.group.circuit
            batch.now.group.vector batch.now.group.latches (good_of_net self.old.arrivals) }
        ensures goes { IfOk result (λ lane. GoesThrough batch.now.group fault number i
            (grade_at grades.old i) (firsts_if self.old.found self.old.firsts.items)
            self.old.followers.items lane (grade_at grades.new i)
            (firsts_if self.new.found self.new.firsts.items) self.new.followers.items) }
        ensures others { OnOk result ((j : ℕ) → j ≢ i
            → grade_at grades.new j ≡ grade_at grades.old j) }
        ensures table { length self.new.firsts.items ≡ length self.old.firsts.items }
        ensures arrivals { self.new.arrivals ≡ self.old.arrivals }
        ensures found { self.new.found ≡ self.old.found }
    {
        if !self.found {
            return Ok(true);
        }
        if !grades[i].diffs.entries().is_empty() {
            return Ok(true);
        }
        let arrival = self.arrivals.fault(fault);
        if let Arrival::AtStem { net, value } = arrival {
            return self.is_first(net, value, i);
        }
        grades[i].note_arrival(batch, arrival, number)?;
        Ok(false)
    }

    /// Gives each fault that follows another one what is kept of that one.
    ///
    /// # Errors
    /// Out of memory.
    pub fn copy_grades(&self, grades: &mut [Grade]) -> Result<(), AllocError>
        requires { AreFollowers self.now.followers.items grades.old }
        ensures { OnOk result (AreCopied (length self.now.followers.items)
            self.now.followers.items grades.old grades.new) }
    {
        for follower in &self.followers {
            let grade = grades[follower.first].copy()?;
            grades[follower.fault] = grade;
        }
        Ok(())
    }
}
