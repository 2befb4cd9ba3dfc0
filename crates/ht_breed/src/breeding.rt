//! The generations of a burst, and what is learnt of it.
ghost use Rattle.std.specs.Prelude.{◌≡◌, IfOk, OnOk};
ghost use Rattle.ht_breed.specs.Bursts.{IsBurst};

use crate::burst::Burst;
use crate::candidates::Candidates;
use crate::counter::lane_set;
use crate::estimate::{Estimator, Ranked};
use crate::hopes::{Hopes, promises};
use crate::kept::KeptBursts;
use crate::segments::Detected;
use ht_net::{Circuit, Fault, Vectors};
use ht_random::Words;
use ht_tern::Tern;
use std::alloc::{AllocError, Global};

// Lengths of a burst: the least, the greatest, and how many words of nets its frames may take.
const SHORTEST: usize = 32;

const LONGEST: usize = 128;

const MAX_WORDS: usize = 1 << 21;

// Generations: at least, at most, and the idle ones in a row that end a burst.
const LEAST_GENERATIONS: u32 = 6;

const MAX_GENERATIONS: u32 = 60;

const MAX_IDLE: u32 = 8;

// After so many bursts in a row without gain all false hopes are forgotten.
const MAX_DRY: u32 = 20;

/// The state of the breeding.
#[derive(Drop)]
pub struct Breeding {
    alloc: Global,
    words: Words,
    estimator: Estimator,
    kept: KeptBursts,
    hopes: Hopes,
    // the length of the next burst
    frames: usize,
    // how many bursts in a row gained nothing
    dry: u32,
    /// The evaluations of gates so far, each in one frame for 64 candidates.
    pub work: u64,
}

// The length of the longest burst over so many nets.
fn longest(nets: usize) -> usize {
    if nets == 0 {
        return LONGEST;
    }
    LONGEST.min(SHORTEST.max(MAX_WORDS / nets))
}

impl Breeding {
    /// Begins, for faults of a circuit of which none is detected.
    ///
    /// # Errors
    /// Out of memory.
    pub fn new(
        alloc: Global,
        circuit: &Circuit,
        faults: &[Fault],
        seed: u64,
    ) -> Result<Breeding, AllocError> {
        let estimator = Estimator::new(alloc, circuit, faults)?;
        let hopes = Hopes::new(alloc, faults.len())?;
        Ok(Breeding {
            alloc,
            words: Words::from_seed(seed),
            estimator,
            kept: KeptBursts::new(alloc),
            hopes,
            frames: SHORTEST,
            dry: 0,
            work: 0,
        })
    }

    /// Notes vectors of `width` bits that were applied from a state, and which faults they detected where.
    ///
    /// # Errors
    /// Out of memory.
    pub fn note(
        &mut self,
        state: &[Tern],
        width: u32,
        vectors: &Vectors,
        detected: &[Detected],
    ) -> Result<(), AllocError>
        requires { vectors.now.width ≡ width }
    {
        self.hopes.detect(detected);
        self.kept
            .keep_segments(self.alloc, width, vectors, detected)?;
        self.estimator.note(state, vectors)
    }

    /// Leaves a fault out of account from now on.
    pub fn leave_out(&mut self, fault: u32) {
        self.hopes.leave_out(fault);
    }

    /// Breeds a burst from a state, of at most `most` vectors of `width` bits.
    ///
    /// # Errors
    /// Out of memory.
    pub fn burst(&mut self, state: &[Tern], width: u32, most: u32) -> Result<Burst, AllocError>
        ensures { IfOk result (λ burst. IsBurst width most burst.vectors) }
    {
        let alloc = self.alloc;
        let looked = self.hopes.looked_at(alloc)?;
        let mut best = Burst::new(alloc, width, looked);
        let mut candidates = Candidates::fresh(
            alloc,
            width as usize,
            self.frames.min(most as usize),
            &mut self.words,
            &self.kept,
        )?;
        self.breed(state, width, most, &mut candidates, &mut best)?;
        Ok(best)
    }

    // Breeds generations until they are idle, and leaves the best candidate of all.
    fn breed(
        &mut self,
        state: &[Tern],
        width: u32,
        most: u32,
        candidates: &mut Candidates,
        best: &mut Burst,
    ) -> Result<(), AllocError>
        requires { IsBurst width most best.old.vectors }
        ensures { OnOk result (IsBurst width most best.new.vectors) }
    {
        let mut patience = Patience { mark: 0, idle: 0 };
        for generation in 1..=MAX_GENERATIONS {
            let ranked = self.rank(state, candidates, best)?;
            best.generations = generation;
            self.improve(width, most, &ranked, candidates, best)?;
            if patience.ends(generation, best.score) {
                return Ok(());
            }
            candidates.breed(&ranked.order, &mut self.words, &self.kept)?;
        }
        Ok(())
    }

    // Ranks candidates, and counts the work.
    fn rank(
        &mut self,
        state: &[Tern],
        candidates: &Candidates,
        best: &Burst,
    ) -> Result<Ranked, AllocError> {
        self.work = self
            .work
            .saturating_add(self.estimator.work(candidates.frames()));
        self.estimator
            .rank(self.alloc, state, candidates, &best.looked, &self.hopes)
    }

    // Puts the best of some candidates in the place of the best so far, where its score is higher or it is the first.
    fn improve(
        &mut self,
        width: u32,
        most: u32,
        ranked: &Ranked,
        candidates: &Candidates,
        best: &mut Burst,
    ) -> Result<(), AllocError>
        requires { IsBurst width most best.old.vectors }
        ensures { OnOk result (IsBurst width most best.new.vectors) }
    {
        if best.generations > 1 && ranked.score <= best.score {
            return Ok(());
        }
        if let Some(lane) = ranked.order.first() {
            best.promises = promises(self.alloc, &self.estimator.trace.found, lane_set(*lane))?;
            self.estimator.unseen.note(lane_set(*lane));
            best.parts = ranked.best;
            best.score = ranked.score;
            best.vectors = candidates.burst(self.alloc, width, most, *lane)?;
        }
        Ok(())
    }

    /// Learns which faults a burst detected, when it was applied. It is the last that was bred.
    ///
    /// # Errors
    /// Out of memory.
    pub fn learn(&mut self, burst: Burst, detected: &[Detected]) -> Result<(), AllocError> {
        let Burst {
            vectors,
            looked,
            promises,
            ..
        } = burst;
        self.hopes.detect(detected);
        self.hopes.note(&looked, &promises);
        self.estimator.unseen.forget_shown();
        let gain = detected.len();
        if gain > 0 || self.kept.is_empty() {
            self.kept.keep(vectors, gain)?;
        }
        self.set_length(gain);
        Ok(())
    }

    // Sets the length of the next burst, after one with this gain.
    fn set_length(&mut self, gain: usize) {
        if gain > 0 {
            self.dry = 0;
            self.frames = SHORTEST;
        } else {
            self.dry = self.dry.saturating_add(1);
            let longest = longest(self.estimator.nets());
            self.frames = self.frames.saturating_mul(2).min(longest);
        }
        if self.dry >= MAX_DRY {
            self.hopes.forget();
            self.dry = 0;
        }
    }
}

// The score that was better by enough, and how many generations since were idle.
#[derive(Clone, Copy)]
struct Patience {
    mark: i64,
    idle: u32,
}

impl Patience {
    // Whether the breeding ends with a generation, after which this is the best score.
    fn ends(&mut self, generation: u32, score: i64) -> bool {
        if score > self.mark.saturating_add(self.mark / 16) {
            self.mark = score;
            self.idle = 0;
        } else {
            self.idle = self.idle.saturating_add(1);
        }
        (self.idle >= MAX_IDLE && generation >= LEAST_GENERATIONS) || generation == MAX_GENERATIONS
    }
}
