//! The limits of the blocks of rails.

/// How much work rails may take for a fault.
#[derive(Clone, Copy, PartialEq, Eq, Debug)]
pub enum Limit {
    Short,
    Middle,
    Long,
}

impl Limit {
    /// Its number among the limits, from 1.
    pub fn number(self) -> u8 {
        match self {
            Limit::Short => 1,
            Limit::Middle => 2,
            Limit::Long => 3,
        }
    }

    /// The most literals that are propagated for a fault, and the most conflicts.
    pub fn propagations(self) -> u64 {
        match self {
            Limit::Short => 300_000,
            Limit::Middle => 3_000_000,
            Limit::Long => 30_000_000,
        }
    }

    /// How many faults a chunk asks at first.
    pub fn least(self) -> u32 {
        match self {
            Limit::Short => 16,
            Limit::Middle => 6,
            Limit::Long => 2,
        }
    }

    /// How many faults a chunk asks at most.
    pub fn most(self) -> u32 {
        match self {
            Limit::Short => 128,
            Limit::Middle => 64,
            Limit::Long => 6,
        }
    }
}
