//! 64 patterns of inputs and states in one frame.
use ht_random::Words;
use ht_tern::Kind;
use ht_wiring::{Gate, Line, Pending, Wiring};
use std::alloc::{AllocError, Global};

// The bits of a net in 64 patterns; none where there is no such net.
#[inline(always)]
fn bits_at(bits: &[u64], net: u32) -> u64 {
    match bits.get(net as usize) {
        Some(word) => *word,
        None => 0,
    }
}

// 64 bits that are stuck.
fn stuck_bits(value: bool) -> u64 {
    if value { u64::MAX } else { 0 }
}

// What the operation of a kind makes of the bits so far and of the next ones.
#[inline(always)]
fn combined(kind: Kind, bits: u64, next: u64) -> u64 {
    match kind {
        Kind::And | Kind::Nand => bits & next,
        Kind::Or | Kind::Nor => bits | next,
        Kind::Xor | Kind::Xnor => bits ^ next,
        Kind::Not | Kind::Buf => bits,
    }
}

// The bits of a gate that drives a net, where a line is stuck.
#[inline(always)]
fn gate_bits(
    wiring: &Wiring,
    gate: Gate,
    net: u32,
    bits: &[u64],
    stuck: Option<(Line, bool)>,
) -> u64 {
    let mut word = 0;
    for (pin, read) in wiring.pins(gate).iter().enumerate() {
        let next = match stuck {
            Some((line, value)) if line == (Line::Pin { net, pin }) => stuck_bits(value),
            _ => bits_at(bits, *read),
        };
        word = if pin == 0 {
            next
        } else {
            combined(gate.kind, word, next)
        };
    }
    if gate.kind.inverts() { !word } else { word }
}

// 64 random bits.
fn random_bits(words: &mut Words) -> u64 {
    let high = words.next() as u64;
    let low = words.next() as u64;
    high << 32 | low
}

// The bits of a source: even ones, or three quarters of one value.
fn source_bits(words: &mut Words) -> u64 {
    let bits = random_bits(words);
    match words.next() % 4 {
        1 => bits & random_bits(words),
        2 => bits | random_bits(words),
        _ => bits,
    }
}

/// The bits of all nets of the good machine in 64 patterns, and those of a fault where they differ.
#[derive(Drop)]
pub struct Patterns {
    words: Words,
    good: Vec<u64>,
    // those of a fault: the good ones between two calls
    faulty: Vec<u64>,
    // the nets where they differ
    changed: Vec<u32>,
    pending: Pending,
    // an output or a data pin differs
    shown: bool,
    /// How many gates were evaluated.
    pub work: u64,
}

impl Patterns {
    /// No patterns yet.
    ///
    /// # Errors
    /// Out of memory.
    pub fn new(alloc: Global, wiring: &Wiring, seed: u64) -> Result<Patterns, AllocError> {
        Ok(Patterns {
            words: Words::from_seed(seed),
            good: vec![in alloc; 0; wiring.nets()]?,
            faulty: vec![in alloc; 0; wiring.nets()]?,
            changed: Vec::new(alloc),
            pending: Pending::new(alloc, wiring.nets())?,
            shown: false,
            work: 0,
        })
    }

    // The good machine's bits at a net.
    fn good_bits(&mut self, wiring: &Wiring, net: u32) -> u64 {
        match wiring.gate(net) {
            Some(gate) => gate_bits(wiring, gate, net, &self.good, None),
            None => source_bits(&mut self.words),
        }
    }

    /// Draws 64 patterns, and runs the good machine.
    pub fn draw(&mut self, wiring: &Wiring) {
        let nets = u32::try_from(wiring.nets()).unwrap_or(u32::MAX);
        for net in 0..nets {
            let bits = self.good_bits(wiring, net);
            if let Some(place) = self.good.get_mut(net as usize) {
                *place = bits;
            }
            if let Some(place) = self.faulty.get_mut(net as usize) {
                *place = bits;
            }
        }
        self.work = self.work.saturating_add(nets as u64);
    }

    // Gives a net the fault's bits, and makes what reads it pending where they differ.
    #[inline(always)]
    fn write(&mut self, wiring: &Wiring, net: u32, bits: u64) -> Result<(), AllocError> {
        let Some(place) = self.faulty.get_mut(net as usize) else {
            return Ok(());
        };
        if *place == bits {
            return Ok(());
        }
        *place = bits;
        self.changed.push(net)?;
        if wiring.is_output(net) || !wiring.latches(net).is_empty() {
            self.shown = true;
        }
        for reader in wiring.readers(net) {
            self.pending.insert(*reader);
        }
        Ok(())
    }

    // The bits of the gate that drives a net, with the fault.
    fn evaluate(
        &mut self,
        wiring: &Wiring,
        net: u32,
        stuck: (Line, bool),
    ) -> Result<(), AllocError> {
        self.work = self.work.saturating_add(1);
        match wiring.gate(net) {
            Some(gate) => {
                let bits = gate_bits(wiring, gate, net, &self.faulty, Some(stuck));
                self.write(wiring, net, bits)
            }
            None => Ok(()),
        }
    }

    // Evaluates what is pending, until the fault shows.
    fn settle(&mut self, wiring: &Wiring, stuck: (Line, bool)) -> Result<(), AllocError> {
        for _net in 0..wiring.nets() {
            if self.shown {
                return Ok(());
            }
            let Some(net) = self.pending.take() else {
                return Ok(());
            };
            self.evaluate(wiring, net, stuck)?;
        }
        Ok(())
    }

    // Goes back to the good machine's bits.
    fn restore(&mut self) {
        for net in &self.changed {
            if let Some(place) = self.faulty.get_mut(*net as usize) {
                *place = bits_at(&self.good, *net);
            }
        }
        self.changed.clear();
        self.pending.clear();
    }

    /// Whether a stuck line shows at an output or a data pin in some pattern.
    ///
    /// # Errors
    /// Out of memory.
    pub fn shows(&mut self, wiring: &Wiring, line: Line, value: bool) -> Result<bool, AllocError> {
        self.restore();
        self.shown = false;
        match line {
            Line::Net(net) => self.write(wiring, net, stuck_bits(value))?,
            Line::Pin { net, .. } => self.evaluate(wiring, net, (line, value))?,
            Line::Data { dff } => {
                let bits = bits_at(&self.good, wiring.data(dff));
                return Ok(bits != stuck_bits(value));
            }
        }
        self.settle(wiring, (line, value))?;
        Ok(self.shown)
    }
}
