//! The machines of a fault.
use ht_net::{Circuit, Fault};

/// The good machine of a circuit and the one with a fault, and a mark for each net of the fault's cone.
#[derive(Clone, Copy)]
pub(crate) struct Machines<'a> {
    pub circuit: &'a Circuit,
    pub fault: Fault,
    pub cone: &'a [bool],
}
