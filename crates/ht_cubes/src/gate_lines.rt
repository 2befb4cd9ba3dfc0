//! The lines of a gate.
use crate::Signal;

/// What a gate drives, before the inversion of its kind, and its pins.
#[derive(Clone, Copy)]
pub(crate) struct GateLines<'a> {
    pub out: Signal,
    pub pins: &'a [Signal],
}
