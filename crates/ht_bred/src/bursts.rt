//! Bursts for the representatives of all classes, one after the other.
ghost use Rattle.std.specs.Prelude.{◌≡◌, ◌≤◌, IfOk};
ghost use Rattle.ht_faults.specs.Classes.{AreClasses};
ghost use Rattle.ht_breed.specs.Bursts.{IsBurst};
ghost use Rattle.ht_bred.specs.Extended.{AreExtended};

use crate::live::{Live, all_live, own_faults, take_detected};
use crate::vectors::append;
use ht_breed::{Breeder, Burst};
use ht_faults::{Classes, FaultList};
use ht_net::{Circuit, Vectors};
use ht_proofs::ClassGrader;
use ht_tern::Tern;
use std::alloc::{AllocError, Global};
use std::marker::Model;

/// What a burst brought.
#[derive(Clone, Copy)]
pub struct Gain {
    /// How many vectors it has.
    pub vectors: u32,
    /// How many representatives it detected that weren't detected before.
    pub detected: usize,
    /// What it took to breed: each evaluation of a gate in a frame for 64 candidates at once, forward or back, counts 1.
    pub work: u64,
}

/// A breeder for the representatives of all classes, and which of them aren't detected. It can be left after any burst,
/// and goes on where it was. Contracts see it as the width of its vectors.
#[derive(Drop)]
pub struct Bursts {
    breeder: Breeder,
    live: Vec<Live>,
}

impl Model for Bursts {
    ghost use Rattle.std.specs.Prelude.{ℕ};

    ghost Value = { ℕ };

    ghost view = { λ a. a.breeder };
}

impl Bursts {
    /// Before any vector: no representative is detected.
    ///
    /// # Errors
    /// Out of memory.
    pub fn new(
        alloc: Global,
        circuit: &Circuit,
        faults: &FaultList,
        classes: &Classes,
        seed: u64,
    ) -> Result<Bursts, AllocError>
        ensures { IfOk result (λ bursts. bursts ≡ circuit.now.inputs) }
    {
        let own = own_faults(alloc, faults, classes)?;
        let breeder = Breeder::new(alloc, circuit, &own, seed)?;
        Ok(Bursts {
            breeder,
            live: all_live(alloc, classes)?,
        })
    }

    /// Whether no representative is left to be detected.
    pub fn are_done(&self) -> bool {
        self.live.is_empty()
    }

    /// Takes in a list of vectors that a grader applied last, from a state of the good machine, after `before` others.
    /// Segments of it that detected something are material for later bursts.
    ///
    /// # Errors
    /// Out of memory.
    pub fn note(
        &mut self,
        alloc: Global,
        classes: &Classes,
        grader: &ClassGrader,
        state: &[Tern],
        before: u64,
        list: &Vectors,
    ) -> Result<(), AllocError>
        requires classes { AreClasses grader.now.machines.circuit classes.now }
        requires same { grader.now.representatives ≡ classes.now }
        requires width { list.now.width ≡ self.old }
        ensures { self.new ≡ self.old }
    {
        let detected = take_detected(alloc, grader, classes, before, &mut self.live)?;
        self.breeder.note(state, list, &detected)
    }

    /// Leaves a fault out of account from now on, since it is said of it elsewhere what is true.
    pub fn leave_out(&mut self, fault: u32)
        ensures { self.new ≡ self.old }
    {
        if let Some(i) = self.live.iter().position(|one| one.fault == fault) {
            let one = self.live.remove(i);
            self.breeder.leave_out(one.rank);
        }
    }

    /// Breeds a burst of at most so many vectors from the state that a grader's good machine is in, applies it, adds it to
    /// a list, and learns from it.
    ///
    /// # Errors
    /// Out of memory.
    pub fn burst(
        &mut self,
        alloc: Global,
        classes: &Classes,
        grader: &mut ClassGrader,
        vectors: &mut Vectors,
        most: u32,
    ) -> Result<Gain, AllocError>
        requires classes { AreClasses grader.old.machines.circuit classes.now }
        requires same { grader.old.representatives ≡ classes.now }
        requires breeder { self.old ≡ grader.old.machines.circuit.inputs }
        requires width { vectors.old.width ≡ grader.old.machines.circuit.inputs }
        ensures same { self.new ≡ self.old }
        ensures added { IfOk result (λ gain. AreExtended grader.old grader.new
            vectors.old.list vectors.old vectors.new gain.vectors) }
        ensures few { IfOk result (λ gain. gain.vectors ≤ most) }
    {
        let before = self.work();
        let state = grader.good_state(alloc)?;
        let burst = self.breed(&state, most)?;
        let count = apply_burst(grader, vectors, &burst.vectors, most)?;
        let detected = self.learn(alloc, classes, grader, burst)?;
        Ok(Gain {
            vectors: count,
            detected,
            work: self.work().saturating_sub(before),
        })
    }

    /// Breeds a burst of at most so many vectors, to be applied where the flip-flops of the good machine hold `state`. Who
    /// applies it lets `learn` know.
    ///
    /// # Errors
    /// Out of memory.
    pub fn breed(&mut self, state: &[Tern], most: u32) -> Result<Burst, AllocError>
        ensures burst { IfOk result (λ burst. IsBurst self.old most burst.vectors) }
        ensures same { self.new ≡ self.old }
    {
        self.breeder.burst(state, most)
    }

    /// Learns of the last burst, which a grader applied last. How many representatives it detected that weren't detected
    /// before.
    ///
    /// # Errors
    /// Out of memory.
    pub fn learn(
        &mut self,
        alloc: Global,
        classes: &Classes,
        grader: &ClassGrader,
        burst: Burst,
    ) -> Result<usize, AllocError>
        requires classes { AreClasses grader.now.machines.circuit classes.now }
        requires same { grader.now.representatives ≡ classes.now }
        ensures { self.new ≡ self.old }
    {
        let detected = take_detected(alloc, grader, classes, 0, &mut self.live)?;
        self.breeder.learn(burst, &detected)?;
        Ok(detected.len())
    }

    /// The work of breeding so far: each evaluation of a gate in a frame for 64 candidates at once, forward or back, counts
    /// 1.
    pub fn work(&self) -> u64 {
        self.breeder.work()
    }
}

// Applies a burst, and adds it to the list. How many vectors it has.
fn apply_burst(
    grader: &mut ClassGrader,
    vectors: &mut Vectors,
    burst: &Vectors,
    most: u32,
) -> Result<u32, AllocError>
    requires width { vectors.old.width ≡ grader.old.machines.circuit.inputs }
    requires burst { IsBurst grader.old.machines.circuit.inputs most burst.now }
    ensures added { IfOk result (λ count. AreExtended grader.old grader.new
        vectors.old.list vectors.old vectors.new count) }
    ensures few { IfOk result (λ count. count ≤ most) }
{
    grader.apply(burst)?;
    append(vectors, burst)?;
    Ok(burst.len() as u32)
}
