//! What candidates are worth, by an estimate.
use crate::candidates::Candidates;
use crate::counter::{Counter, lane_set};
use crate::hopes::Hopes;
use crate::plan::{Plan, PlanFault};
use crate::runs::Runs;
use crate::trace::Trace;
use crate::unseen::Unseen;
use ht_lanes::Word;
use ht_net::{Circuit, Fault, Vectors};
use ht_tern::Tern;
use std::alloc::{AllocError, Global};

/// What a score counts: faults that are hoped for, faults that are stored and not hoped for, values of nets that weren't
/// shown before, flip-flops that are definite after the last frame.
#[derive(Clone, Copy)]
pub struct Parts {
    pub hoped: u32,
    pub stored: u32,
    pub new_values: u32,
    pub definite: u32,
}

impl Parts {
    pub const NONE: Parts = Parts {
        hoped: 0,
        stored: 0,
        new_values: 0,
        definite: 0,
    };

    /// The score, where so many flip-flops are definite now.
    pub(crate) fn score(self, definite: u32) -> i64 {
        let good = 8 * self.hoped as i64
            + 2 * self.stored as i64
            + 4 * self.new_values as i64
            + 8 * self.definite as i64;
        good - 8 * definite as i64
    }
}

// What is counted in each lane.
#[derive(Clone, Copy)]
struct Counters {
    hoped: Counter,
    stored: Counter,
    new_values: Counter,
    definite: Counter,
}

impl Counters {
    fn new() -> Counters {
        Counters {
            hoped: Counter::new(),
            stored: Counter::new(),
            new_values: Counter::new(),
            definite: Counter::new(),
        }
    }

    // The parts of a lane.
    fn parts(&self, lane: u32) -> Parts {
        Parts {
            hoped: self.hoped.lane(lane),
            stored: self.stored.lane(lane),
            new_values: self.new_values.lane(lane),
            definite: self.definite.lane(lane),
        }
    }
}

/// The lanes in their order, the best first, and the best one's worth.
#[derive(Drop)]
pub struct Ranked {
    pub order: Vec<u32>,
    pub best: Parts,
    pub score: i64,
}

/// The circuit, and room for what is run and traced on it.
#[derive(Drop)]
pub struct Estimator {
    plan: Plan,
    faults: Vec<PlanFault>,
    runs: Runs,
    /// What was traced for the candidates of the last estimate.
    pub trace: Trace,
    /// What the good machine hasn't shown.
    pub unseen: Unseen,
}

impl Estimator {
    /// For a circuit, and faults of it.
    ///
    /// # Errors
    /// Out of memory.
    pub fn new(
        alloc: Global,
        circuit: &Circuit,
        faults: &[Fault],
    ) -> Result<Estimator, AllocError> {
        let plan = Plan::new(alloc, circuit)?;
        let faults = plan.faults(alloc, circuit, faults)?;
        let trace = Trace::new(alloc, &plan)?;
        let unseen = Unseen::new(alloc, circuit.nets())?;
        Ok(Estimator {
            plan,
            faults,
            runs: Runs::new(alloc),
            trace,
            unseen,
        })
    }

    /// How many nets there are.
    pub fn nets(&self) -> usize {
        self.plan.nets()
    }

    /// The evaluations of gates that an estimate over so many frames takes, forward and back.
    pub fn work(&self, frames: usize) -> u64 {
        (self.plan.gates.len() as u64)
            .saturating_mul(frames as u64)
            .saturating_mul(3)
    }

    /// Estimates candidates from a state, for faults by their numbers, and ranks them.
    ///
    /// # Errors
    /// Out of memory.
    pub fn rank(
        &mut self,
        alloc: Global,
        state: &[Tern],
        candidates: &Candidates,
        looked: &[u32],
        hopes: &Hopes,
    ) -> Result<Ranked, AllocError> {
        self.run(state, candidates)?;
        let frames = candidates.frames();
        self.trace
            .trace(&self.plan, &self.runs, frames, &self.faults, looked)?;
        let counters = self.count(looked, hopes);
        rank_lanes(alloc, &counters, definite_count(state))
    }

    // Runs the good machine over all candidates.
    fn run(&mut self, state: &[Tern], candidates: &Candidates) -> Result<(), AllocError> {
        self.runs.start(state)?;
        self.unseen.start();
        for frame in 0..candidates.frames() {
            self.runs.step(&self.plan, frame, candidates.row(frame))?;
            self.unseen.look(self.runs.frame(frame));
        }
        Ok(())
    }

    /// Runs the good machine over vectors that were applied from a state, and takes away what it shows.
    ///
    /// # Errors
    /// Out of memory.
    pub fn note(&mut self, state: &[Tern], vectors: &Vectors) -> Result<(), AllocError> {
        self.runs.start(state)?;
        for t in 0..vectors.len() {
            self.unseen.start();
            let alloc = self.runs.alloc();
            let ones = ones_of(alloc, vectors.get(t))?;
            self.runs.step(&self.plan, 0, &ones)?;
            self.unseen.look(self.runs.frame(0));
            self.unseen.note(u64::MAX);
            self.unseen.forget_shown();
        }
        Ok(())
    }

    // Counts the parts of all lanes.
    fn count(&self, looked: &[u32], hopes: &Hopes) -> Counters {
        let mut counters = Counters::new();
        for (i, fault) in looked.iter().enumerate() {
            if let Some(paths) = self.trace.found.get(i) {
                counters.hoped.add(paths.output);
                if hopes.counts_stored(*fault) {
                    counters.stored.add(paths.end & !paths.output);
                }
            }
        }
        self.count_values(&mut counters);
        counters
    }

    // Counts new values, and definite flip-flops.
    fn count_values(&self, counters: &mut Counters) {
        for value in &self.unseen.values {
            counters.new_values.add(value.lanes);
        }
        add_definite(self.runs.latches(), &mut counters.definite);
    }
}

// Counts the definite flip-flops in each lane.
fn add_definite(latches: &[Word], counter: &mut Counter) {
    for latch in latches {
        counter.add(latch.other_than(Tern::Unk));
    }
}

// A vector as lanes: all where a bit is 1.
fn ones_of(alloc: Global, vector: &[bool]) -> Result<Vec<u64>, AllocError> {
    let mut ones = Vec::new(alloc);
    for bit in vector {
        ones.push(if *bit { u64::MAX } else { 0 })?;
    }
    Ok(ones)
}

// How many flip-flops of a state are definite.
fn definite_count(state: &[Tern]) -> u32 {
    let mut count: u32 = 0;
    for value in state {
        if *value != Tern::Unk {
            count = count.saturating_add(1);
        }
    }
    count
}

// Ranks the lanes by what they counted, where so many flip-flops are definite now.
fn rank_lanes(alloc: Global, counters: &Counters, definite: u32) -> Result<Ranked, AllocError> {
    let mut scores = [0; 64];
    for lane in 0..64 {
        scores[lane as usize] = counters.parts(lane).score(definite);
    }
    let order = ordered_lanes(alloc, &scores)?;
    let best = match order.first() {
        Some(lane) => counters.parts(*lane),
        None => Parts::NONE,
    };
    Ok(Ranked {
        order,
        best,
        score: best.score(definite),
    })
}

// The lanes by score, the highest first, of equals the lower lane.
fn ordered_lanes(alloc: Global, scores: &[i64; 64]) -> Result<Vec<u32>, AllocError> {
    let mut order = Vec::new(alloc);
    let mut left = u64::MAX;
    for _ in 0..64 {
        let lane = best_lane(scores, left);
        left &= !lane_set(lane);
        order.push(lane)?;
    }
    Ok(order)
}

// The lane of a set with the highest score, of equals the lowest one.
fn best_lane(scores: &[i64; 64], lanes: u64) -> u32 {
    let mut best: Option<i64> = None;
    let mut found = 0;
    for lane in 0..64 {
        if lanes >> lane & 1 == 1 {
            let score = scores[lane as usize];
            let is_better = match best {
                Some(best) => score > best,
                None => true,
            };
            if is_better {
                best = Some(score);
                found = lane;
            }
        }
    }
    found
}
