//! A counter in each of 64 lanes.

/// The set of one lane alone, from 0.
pub fn lane_set(lane: u32) -> u64 {
    if lane < 64 { 1 << lane } else { 0 }
}

/// Counters, one a lane, in bit slices: the word of bit 0 of all counters comes first.
#[derive(Clone, Copy)]
pub struct Counter {
    bits: [u64; 32],
}

impl Counter {
    /// 0 in each lane.
    pub fn new() -> Counter {
        Counter { bits: [0; 32] }
    }

    /// Adds 1 in each lane of a set.
    pub fn add(&mut self, lanes: u64) {
        let mut carried = lanes;
        for i in 0..32 {
            if carried == 0 {
                return;
            }
            let bits = self.bits[i];
            self.bits[i] = bits ^ carried;
            carried &= bits;
        }
    }

    /// The count of a lane, from lane 0.
    pub fn lane(&self, lane: u32) -> u32 {
        if lane >= 64 {
            return 0;
        }
        let mut sum: u32 = 0;
        for i in 0..32 {
            if self.bits[i] >> lane & 1 == 1 {
                sum |= 1 << i as u32;
            }
        }
        sum
    }
}
