//! The good machine over the frames of a burst, in 64 lanes.
use crate::gates::{gate_word, word_at};
use crate::plan::Plan;
use ht_lanes::Word;
use ht_tern::Tern;
use std::alloc::{AllocError, Global};

/// 64 runs of the good machine, a lane each: every net in every frame.
#[derive(Drop)]
pub struct Runs {
    alloc: Global,
    // the words of all nets, by frame; frames of earlier runs stay as room
    frames: Vec<Vec<Word>>,
    // what the flip-flops hold after the last frame
    latches: Vec<Word>,
}

// Writes the word of a net.
#[inline(always)]
fn write_word(words: &mut [Word], net: usize, word: Word) {
    if let Some(place) = words.get_mut(net) {
        *place = word;
    }
}

// Gives inputs their words, by the lanes that have a 1.
fn write_inputs(ones: &[u64], words: &mut [Word]) {
    for (input, lanes) in ones.iter().enumerate() {
        write_word(
            words,
            input,
            Word::splat(Tern::Zero).stick(u64::MAX, *lanes),
        );
    }
}

// Gives flip-flops their words.
fn write_latches(plan: &Plan, latches: &[Word], words: &mut [Word]) {
    let mut net = plan.inputs;
    for latch in latches {
        write_word(words, net, *latch);
        net = net.saturating_add(1);
    }
}

// Gives all gates their words, in order.
fn write_gates(plan: &Plan, words: &mut [Word]) {
    let mut net = plan.first_gate();
    for gate in &plan.gates {
        let word = gate_word(gate.kind, plan.nets_of(*gate), words);
        write_word(words, net, word);
        net = net.saturating_add(1);
    }
}

impl Runs {
    /// No run yet.
    pub fn new(alloc: Global) -> Runs {
        Runs {
            alloc,
            frames: Vec::new(alloc),
            latches: Vec::new(alloc),
        }
    }

    /// Where its words are allocated.
    pub fn alloc(&self) -> Global {
        self.alloc
    }

    /// What the flip-flops hold after the last frame.
    pub fn latches(&self) -> &[Word] {
        &self.latches
    }

    /// The words of all nets in a frame, from 0.
    pub fn frame(&self, frame: usize) -> &[Word] {
        match self.frames.get(frame) {
            Some(words) => words,
            None => &[],
        }
    }

    /// Begins from a state, the same in all lanes.
    ///
    /// # Errors
    /// Out of memory.
    pub fn start(&mut self, state: &[Tern]) -> Result<(), AllocError> {
        self.latches.clear();
        for value in state {
            self.latches.push(Word::splat(*value))?;
        }
        Ok(())
    }

    /// Runs a frame, by number, with these lanes at 1 for each input.
    ///
    /// # Errors
    /// Out of memory.
    pub fn step(&mut self, plan: &Plan, frame: usize, ones: &[u64]) -> Result<(), AllocError> {
        if frame >= self.frames.len() {
            self.frames
                .push(vec![in self.alloc; Word::splat(Tern::Unk); plan.nets()]?)?;
        }
        if let Some(words) = self.frames.get_mut(frame) {
            write_inputs(ones, words);
            write_latches(plan, &self.latches, words);
            write_gates(plan, words);
            self.latches.clear();
            for net in &plan.data {
                self.latches.push(word_at(words, *net))?;
            }
        }
        Ok(())
    }
}
