//! The limits of the numbers among the words.

/// The budget of a search where the words give none.
pub const DEFAULT_BUDGET: u64 = 1_000;

/// The least budget of a search.
pub const MIN_BUDGET: u64 = 1;

/// The greatest budget of a search.
pub const MAX_BUDGET: u64 = 100_000;

/// How many random vectors, or weighted ones, are made where the words don't say.
pub const DEFAULT_RANDOM: u64 = 0;

/// The most random vectors, and the most weighted ones.
pub const MAX_RANDOM: u64 = 100_000;

/// The seed of the random, weighted and bred vectors where the words give none.
pub const DEFAULT_SEED: u64 = 0;

/// The greatest seed.
pub const MAX_SEED: u64 = 18_446_744_073_709_551_615;

/// How many vectors are bred at most where the words don't say.
pub const DEFAULT_BRED: u64 = 2_000;

/// The most vectors that are bred.
pub const MAX_BRED: u64 = 100_000;

/// The work of a full search where the words give none.
pub const DEFAULT_WORK: u64 = 60;

/// The least work of a full search.
pub const MIN_WORK: u64 = 1;

/// The greatest work of a full search.
pub const MAX_WORK: u64 = 1_000_000;

/// The least length of the longest run of vectors that `compact` leaves out at once.
pub const MIN_RUN: u64 = 1;

/// The greatest length of it.
pub const MAX_RUN: u64 = 64;

/// The least size of a demonstration netlist.
pub const MIN_SIZE: u64 = 1;

/// The greatest size of a demonstration netlist.
pub const MAX_SIZE: u64 = 20_000;

/// The least number of a fault.
pub const MIN_FAULT: u64 = 1;

/// The greatest number of a fault: two for each of 65,535 nets and 262,144 pins.
pub const MAX_FAULT: u64 = 655_358;
