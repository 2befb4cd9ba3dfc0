//! Nets that are pending.
use std::alloc::{AllocError, Global};

/// Which nets are pending, by rank.
#[derive(Clone, Drop)]
pub struct Pending {
    words: Vec<u64>,
    // no word before it has a net
    low: usize,
}

impl Pending {
    /// None, of so many.
    ///
    /// # Errors
    /// Out of memory.
    pub fn new(alloc: Global, nets: usize) -> Result<Pending, AllocError> {
        Ok(Pending {
            words: vec![in alloc; 0; nets / 64 + 1]?,
            low: 0,
        })
    }

    /// Makes a net pending, if there is such a net.
    #[inline(always)]
    pub fn insert(&mut self, net: u32) {
        let at = (net / 64) as usize;
        if let Some(word) = self.words.get_mut(at) {
            *word |= 1u64 << (net % 64);
            self.low = self.low.min(at);
        }
    }

    /// Takes the one of the least rank.
    #[inline(always)]
    pub fn take(&mut self) -> Option<u32> {
        for at in self.low..self.words.len() {
            if let Some(word) = self.words.get_mut(at)
                && *word != 0
            {
                let first = word.trailing_zeros() as usize;
                *word &= word.wrapping_sub(1);
                self.low = at;
                return u32::try_from(at.saturating_mul(64).saturating_add(first)).ok();
            }
        }
        self.low = self.words.len();
        None
    }

    /// Makes none pending.
    pub fn clear(&mut self) {
        self.words.fill(0);
        self.low = self.words.len();
    }
}
