//! Lines as rails.
use crate::SignedVar;

/// The two rails of a line: that it is definitely 0, and that it is definitely 1.
#[derive(Clone, Copy)]
pub struct Signal {
    pub zero: SignedVar,
    pub one: SignedVar,
}
