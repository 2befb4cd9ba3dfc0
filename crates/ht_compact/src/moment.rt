//! What the good machine holds before a vector of a list.

use ht_tern::Tern;

/// What the good machine holds before a vector of a list.
#[derive(Drop)]
pub struct Moment {
    /// The latches.
    pub latches: Vec<Tern>,
    /// The values of all nets in the frame with the vector, by the number of the net.
    pub values: Vec<Tern>,
}
