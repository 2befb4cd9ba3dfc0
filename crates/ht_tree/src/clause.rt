//! Clauses on the latches of a circuit.
ghost use Rattle.std.specs.Prelude.{◌≡◌, IfOk};

use crate::token::Token;
use ht_items::Items;
use std::alloc::AllocError;

/// A flip-flop, by its number from 0, and a bit of its latch.
#[derive(Clone, Copy, PartialEq, Eq, Debug)]
pub struct Literal {
    /// The flip-flop.
    pub dff: u32,
    /// The bit.
    pub value: bool,
}

/// A clause of an invariant: a state meets it where the latch of some literal has its bit.
#[derive(Drop)]
pub struct Clause {
    /// The first literal.
    pub first: Literal,
    /// The second one, of a later flip-flop, if there are two.
    pub second: Option<Literal>,
    /// A complete walk of the clause's closing window: from a state that meets every clause of the invariant, no frame
    /// leads to one that doesn't meet this one.
    pub tokens: Items<Token>,
}

impl Clause {
    /// A copy of this clause.
    ///
    /// # Errors
    /// Out of memory.
    pub fn copy(&self) -> Result<Clause, AllocError>
        ensures { IfOk result (λ copy. copy ≡ self.now) }
    {
        Ok(Clause {
            first: self.first,
            second: self.second,
            tokens: self.tokens.copy()?,
        })
    }
}
