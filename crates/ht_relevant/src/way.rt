//! Which way nets are followed.

/// Forward to what reads a net, or back to what its driver reads.
#[derive(Clone, Copy)]
pub enum Way {
    Readers,
    Drivers,
}
