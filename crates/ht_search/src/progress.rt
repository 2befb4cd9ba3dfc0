//! What a search has written, and what it has still to try.
ghost use Rattle.std.specs.Prelude.{◌≡◌, ◌≤◌, ◌+◌, ◌++◌, ◌∷◌, [], reverse, IsTrue, OnOk, ◌↔◌};

use crate::problem::Point;
use ht_tern::Tern;
use ht_tree::Token;
use std::alloc::{AllocError, Global};

/// A value that is still to be tried, from a point on.
#[derive(Clone, Copy, Debug)]
pub struct Untried {
    pub point: Point,
    pub var: u32,
    pub value: Tern,
}

/// The tokens of a search, what it has still to try, the next one last, and what is left of its budget.
#[derive(Drop)]
pub struct SearchProgress {
    pub tokens: Vec<Token>,
    pub untried: Vec<Untried>,
    pub left: u64,
}

impl SearchProgress {
    /// A search before its first token.
    pub fn new(alloc: Global, budget: u64) -> SearchProgress
        ensures tokens { result.tokens.items ≡ [] }
        ensures untried { result.untried.items ≡ [] }
        ensures left { result.left ≡ budget }
    {
        SearchProgress {
            tokens: Vec::new(alloc),
            untried: Vec::new(alloc),
            left: budget,
        }
    }

    /// Whether the budget has room for a token.
    pub fn has_room(&self, unit: u64) -> bool
        ensures { IsTrue result ↔ (unit ≤ self.now.left) }
    {
        unit <= self.left
    }

    /// One more token, for which the budget pays a unit.
    ///
    /// # Errors
    /// Out of memory.
    pub fn write(&mut self, token: Token, unit: u64) -> Result<(), AllocError>
        requires { unit ≤ self.old.left }
        ensures tokens { OnOk result (self.new.tokens.items ≡ self.old.tokens.items ++ token ∷ []) }
        ensures untried { self.new.untried ≡ self.old.untried }
        ensures left { OnOk result (self.new.left + unit ≡ self.old.left) }
    {
        self.tokens.push(token)?;
        self.left -= unit;
        Ok(())
    }

    /// One more value that is still to be tried, before the others.
    ///
    /// # Errors
    /// Out of memory.
    pub fn put_off(&mut self, point: Point, var: u32, value: Tern) -> Result<(), AllocError>
        ensures untried { OnOk result (reverse self.new.untried.items
            ≡ record { point = point; var = var; value = value } ∷ reverse self.old.untried.items) }
        ensures tokens { self.new.tokens ≡ self.old.tokens }
        ensures left { self.new.left ≡ self.old.left }
    {
        self.untried.push(Untried { point, var, value })?;
        Ok(())
    }
}
