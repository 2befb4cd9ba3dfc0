//! A burst that was bred.
ghost use Rattle.std.specs.Prelude.{◌≡◌, []};

use crate::estimate::Parts;
use crate::hopes::Promise;
use ht_net::Vectors;
use std::alloc::Global;

/// A burst, and what it is said to be worth.
#[derive(Drop)]
pub struct Burst {
    /// Its vectors, in order.
    pub vectors: Vectors,
    /// What its estimate counts.
    pub parts: Parts,
    /// The score of the estimate.
    pub score: i64,
    /// How many generations were bred.
    pub generations: u32,
    /// The faults that were looked at, rising.
    pub looked: Vec<u32>,
    // what it promises of each of them
    pub(crate) promises: Vec<Promise>,
}

impl Burst {
    /// No vectors yet, of this width.
    pub(crate) fn new(alloc: Global, width: u32, looked: Vec<u32>) -> Burst
        ensures { result.vectors ≡ record { width = width; list = [] } }
    {
        Burst {
            vectors: Vectors::new(alloc, width),
            parts: Parts::NONE,
            score: 0,
            generations: 0,
            looked,
            promises: Vec::new(alloc),
        }
    }
}
