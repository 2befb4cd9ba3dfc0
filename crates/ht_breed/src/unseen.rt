//! The values that the good machine hasn't shown.
use crate::gates::word_at;
use ht_lanes::Word;
use ht_tern::Tern;
use std::alloc::{AllocError, Global};

/// A value that a net hasn't shown, and the lanes that show it.
#[derive(Clone, Copy)]
pub struct UnseenValue {
    net: u32,
    // the opposite of the value
    opposite: Tern,
    /// The lanes that show it in some frame so far.
    pub lanes: u64,
    // whether the lane that was noted shows it
    shown: bool,
}

/// The pairs of a net and a bit that the good machine hasn't shown.
#[derive(Drop)]
pub struct Unseen {
    pub values: Vec<UnseenValue>,
}

impl Unseen {
    /// Both bits of so many nets.
    ///
    /// # Errors
    /// Out of memory.
    pub fn new(alloc: Global, nets: u32) -> Result<Unseen, AllocError> {
        let mut values = Vec::new(alloc);
        for net in 0..nets {
            values.push(unseen_value(net, Tern::One))?;
            values.push(unseen_value(net, Tern::Zero))?;
        }
        Ok(Unseen { values })
    }

    /// Begins anew, with no lanes.
    pub fn start(&mut self) {
        for value in self.values.iter_mut() {
            value.lanes = 0;
        }
    }

    /// Adds the lanes that show each value in a frame.
    pub fn look(&mut self, words: &[Word]) {
        for value in self.values.iter_mut() {
            value.lanes |= word_at(words, value.net).opposite(value.opposite);
        }
    }

    /// Notes what the lanes of a set show.
    pub fn note(&mut self, lanes: u64) {
        for value in self.values.iter_mut() {
            value.shown = value.lanes & lanes != 0;
        }
    }

    /// Takes away what was noted.
    pub fn forget_shown(&mut self) {
        self.values.retain(|value| !value.shown);
    }
}

// The value of a net that is the opposite of this one, which no lane shows.
fn unseen_value(net: u32, opposite: Tern) -> UnseenValue {
    UnseenValue {
        net,
        opposite,
        lanes: 0,
        shown: false,
    }
}
