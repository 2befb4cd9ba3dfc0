//! Bursts, one after the other.
ghost use Rattle.std.specs.Prelude.{◌≡◌, IfOk};
ghost use Rattle.ht_breed.specs.Bursts.{IsBurst};

use crate::breeding::Breeding;
use crate::burst::Burst;
use crate::segments::Detected;
use ht_net::{Circuit, Fault, Vectors};
use ht_tern::Tern;
use std::alloc::{AllocError, Global};
use std::marker::Model;

/// Breeds bursts of vectors for faults of a circuit. Contracts see it as the width of its vectors.
///
/// Which vectors it breeds is a function of the circuit, the faults, the seed and what it is told. The work of each burst
/// is bounded, so it can be left after any.
#[derive(Drop)]
pub struct Breeder {
    width: u32,
    breeding: Breeding,
}

impl Model for Breeder {
    ghost use Rattle.std.specs.Prelude.{ℕ};

    ghost Value = { ℕ };

    ghost view = { λ a. a.width };
}

impl Breeder {
    /// A breeder for faults of a circuit, of which none is detected. They have their numbers, from 0, in this order.
    ///
    /// # Errors
    /// Out of memory.
    pub fn new(
        alloc: Global,
        circuit: &Circuit,
        faults: &[Fault],
        seed: u64,
    ) -> Result<Breeder, AllocError>
        ensures { IfOk result (λ breeder. breeder ≡ circuit.now.inputs) }
    {
        Ok(Breeder {
            width: circuit.inputs(),
            breeding: Breeding::new(alloc, circuit, faults, seed)?,
        })
    }

    /// Notes vectors that were applied from a state of the flip-flops, and which faults they detected where. Those of them
    /// that detected something are material for later bursts.
    ///
    /// # Errors
    /// Out of memory.
    pub fn note(
        &mut self,
        state: &[Tern],
        vectors: &Vectors,
        detected: &[Detected],
    ) -> Result<(), AllocError>
        requires { vectors.now.width ≡ self.old }
        ensures { self.new ≡ self.old }
    {
        self.breeding.note(state, self.width, vectors, detected)
    }

    /// Breeds a burst of at most `most` vectors, to be applied where the flip-flops of the good machine hold `state`.
    ///
    /// # Errors
    /// Out of memory.
    pub fn burst(&mut self, state: &[Tern], most: u32) -> Result<Burst, AllocError>
        ensures burst { IfOk result (λ burst. IsBurst self.old most burst.vectors) }
        ensures same { self.new ≡ self.old }
    {
        self.breeding.burst(state, self.width, most)
    }

    /// Learns which faults the last burst detected when it was applied, whatever the numbers of their vectors.
    ///
    /// # Errors
    /// Out of memory.
    pub fn learn(&mut self, burst: Burst, detected: &[Detected]) -> Result<(), AllocError>
        ensures { self.new ≡ self.old }
    {
        self.breeding.learn(burst, detected)
    }

    /// Leaves a fault out of account from now on, as one that was detected.
    pub fn leave_out(&mut self, fault: u32)
        ensures { self.new ≡ self.old }
    {
        self.breeding.leave_out(fault);
    }

    /// The work so far: each evaluation of a gate in a frame for 64 candidates at once, forward or back, counts 1.
    pub fn work(&self) -> u64 {
        self.breeding.work
    }
}
