//! The vectors that a trial leaves out.

/// The vectors from `from` on before `to`, from 0.
#[derive(Clone, Copy)]
pub struct Part {
    pub from: u64,
    pub to: u64,
}
