//! What the faults of one circuit share.
use crate::pool::Pool;
use ht_net::Circuit;
use ht_rails::Costs;
use std::alloc::{AllocError, Global};

/// What the faults of one circuit share: what its lines cost, which is found once, and the cubes of those that were
/// refuted. What another circuit left there costs time, and no verdict is wrong for it.
#[derive(Drop)]
pub struct Shared {
    pub costs: Costs,
    pub pool: Pool,
}

impl Shared {
    /// What the faults of a circuit share before the first one: no cube yet.
    ///
    /// # Errors
    /// Out of memory.
    pub fn new(alloc: Global, circuit: &Circuit) -> Result<Shared, AllocError> {
        Ok(Shared {
            costs: Costs::new(alloc, circuit)?,
            pool: Pool::new(alloc),
        })
    }
}
