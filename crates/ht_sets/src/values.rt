//! The sets that nets show.
use ht_pairs::{PairSet, lift};
use ht_tern::Tern;
use ht_wiring::{Gate, Line, Wiring};
use std::alloc::{AllocError, Global};

/// A line that is stuck at a bit in the faulty machine, or none.
#[derive(Clone, Copy)]
pub struct Stuck {
    pub line: Option<Line>,
    pub value: bool,
}

impl Stuck {
    // Whether it is this line.
    #[inline(always)]
    fn is(self, line: Line) -> bool {
        self.line == Some(line)
    }

    /// What a line shows in both machines that would show a set.
    #[inline(always)]
    pub fn shown(self, line: Line, set: PairSet) -> PairSet {
        if self.is(line) {
            set.stick(self.value)
        } else {
            set
        }
    }
}

/// A set of a list, and unknown in both machines where there is none.
#[inline(always)]
pub fn set_at(sets: &[PairSet], i: u32) -> PairSet {
    match sets.get(i as usize) {
        Some(set) => *set,
        None => PairSet::single(Tern::Unk, Tern::Unk),
    }
}

/// The set of each net, and room for the pins of a gate.
#[derive(Clone, Drop)]
pub struct Values {
    pub sets: Vec<PairSet>,
    pins: Vec<PairSet>,
}

impl Values {
    /// Unknown in both machines at each net.
    ///
    /// # Errors
    /// Out of memory.
    pub fn new(alloc: Global, wiring: &Wiring) -> Result<Values, AllocError> {
        Ok(Values {
            sets: vec![in alloc; PairSet::single(Tern::Unk, Tern::Unk); wiring.nets()]?,
            pins: Vec::new(alloc),
        })
    }

    /// Gives a net a set. Whether it is another one than before.
    #[inline(always)]
    pub fn write(&mut self, net: u32, set: PairSet) -> bool {
        match self.sets.get_mut(net as usize) {
            Some(place) => {
                let changed = *place != set;
                *place = set;
                changed
            }
            None => false,
        }
    }

    // Takes the sets at the pins of the gate that drives a net.
    fn take_pins(
        &mut self,
        wiring: &Wiring,
        gate: Gate,
        net: u32,
        stuck: Stuck,
    ) -> Result<(), AllocError> {
        self.pins.clear();
        for (pin, read) in wiring.pins(gate).iter().enumerate() {
            let set = set_at(&self.sets, *read);
            self.pins.push(stuck.shown(Line::Pin { net, pin }, set))?;
        }
        Ok(())
    }

    /// What the gate that drives a net shows.
    ///
    /// # Errors
    /// Out of memory.
    pub fn gate(
        &mut self,
        wiring: &Wiring,
        gate: Gate,
        net: u32,
        stuck: Stuck,
    ) -> Result<PairSet, AllocError> {
        self.take_pins(wiring, gate, net, stuck)?;
        if !gate.kind.has_arity(self.pins.len()) {
            return Ok(PairSet::single(Tern::Unk, Tern::Unk));
        }
        let set = lift(gate.kind, &self.pins);
        Ok(stuck.shown(Line::Net(net), set))
    }
}
