//! The clauses, one after the other in one list of numbers.
use crate::assignment::Assignment;
use crate::literal::{Literal, Value};
use std::alloc::{AllocError, Global};

/// Where a clause stands in the arena.
#[derive(Clone, Copy, PartialEq, Eq)]
pub struct ClauseRef(pub(crate) u32);

// The cells before a clause's literals: how many literals it has, its number, and how much it was used.
const HEAD: usize = 3;

// No clause begins after this cell, and none has more literals than this, so that a `ClauseRef` has 32 bits.
const MAX_CELLS: usize = 0xff00_0000;

const MAX_LITERALS: usize = 0xff_ffff;

// What one use of a clause counts: it is halved each time that clauses are let go.
const USE: u32 = 64;

/// The clauses, each with its number, from 1 in the order in which they came, and how much it was used of late. One that
/// was let go has no literals.
#[derive(Clone, Drop)]
pub struct Arena {
    cells: Vec<u32>,
    count: u32,
}

/// What a clause is once one of its two watched literals is false.
#[derive(Clone, Copy)]
pub enum Rewatched {
    /// This literal of it is true.
    True(Literal),
    /// The second literal is watched from now on in place of the false one; the first is the other one that is watched.
    Moved(Literal, Literal),
    /// All but this one are false.
    Unit(Literal),
    /// All are false, this one too.
    Conflict(Literal),
    /// The clause was let go.
    Gone,
}

impl Arena {
    /// An arena with no clause.
    pub fn new(alloc: Global) -> Arena {
        Arena {
            cells: Vec::new(alloc),
            count: 0,
        }
    }

    /// Adds a clause; none where the arena is full.
    ///
    /// # Errors
    /// Out of memory.
    pub fn add(&mut self, literals: &[Literal]) -> Result<Option<ClauseRef>, AllocError> {
        let at = self.cells.len();
        if at > MAX_CELLS || literals.len() > MAX_LITERALS {
            return Ok(None);
        }
        let number = self.skip_number();
        self.cells.push(literals.len() as u32)?;
        self.cells.push(number)?;
        self.cells.push(0)?;
        for literal in literals {
            self.cells.push(literal.code)?;
        }
        Ok(Some(ClauseRef(at as u32)))
    }

    /// How many numbers were given out.
    pub fn count(&self) -> u32 {
        self.count
    }

    /// Gives out the next number, for a lemma that is only logged.
    pub fn skip_number(&mut self) -> u32 {
        self.count = self.count.saturating_add(1);
        self.count
    }

    /// A clause's number, from 1.
    pub fn number(&self, clause: ClauseRef) -> u32 {
        self.cells.get(clause.0 as usize + 1).copied().unwrap_or(0)
    }

    /// How much a clause was used of late.
    pub fn used(&self, clause: ClauseRef) -> u32 {
        self.cells.get(clause.0 as usize + 2).copied().unwrap_or(0)
    }

    /// Counts one use of a clause.
    #[inline(always)]
    pub fn count_use(&mut self, clause: ClauseRef) {
        if let Some(used) = self.cells.get_mut(clause.0 as usize + 2) {
            *used = used.saturating_add(USE);
        }
    }

    /// Halves what the uses of a clause count.
    pub fn fade(&mut self, clause: ClauseRef) {
        if let Some(used) = self.cells.get_mut(clause.0 as usize + 2) {
            *used /= 2;
        }
    }

    /// Lets a clause go: it has no literals from now on.
    pub fn let_go(&mut self, clause: ClauseRef) {
        if let Some(count) = self.cells.get_mut(clause.0 as usize) {
            *count = 0;
        }
    }

    /// The codes of a clause's literals.
    #[inline(always)]
    pub fn codes(&self, clause: ClauseRef) -> &[u32] {
        let at = clause.0 as usize;
        let Some(count) = self.cells.get(at) else {
            return &[];
        };
        match self.cells.get(at + HEAD..at + HEAD + *count as usize) {
            Some(codes) => codes,
            None => &[],
        }
    }

    /// Looks for another literal of a clause to watch in place of one that is false now.
    #[inline(always)]
    pub fn rewatch(
        &mut self,
        clause: ClauseRef,
        falsified: Literal,
        assigned: &Assignment,
    ) -> Rewatched {
        let at = clause.0 as usize;
        let Some(count) = self.cells.get(at) else {
            return Rewatched::Gone;
        };
        let end = at + HEAD + *count as usize;
        if end > self.cells.len() {
            return Rewatched::Gone;
        }
        rewatch_in(&mut self.cells[at + HEAD..end], falsified, assigned)
    }
}

// The two watched literals stand first, and the false one of them second.
#[inline(always)]
fn rewatch_in(codes: &mut [u32], falsified: Literal, assigned: &Assignment) -> Rewatched {
    if codes.len() < 2 {
        return Rewatched::Gone;
    }
    let mut first = codes[0];
    if first == falsified.code {
        first = codes[1];
        codes[0] = first;
        codes[1] = falsified.code;
    }
    let other = Literal { code: first };
    let value = assigned.value(other);
    if value == Value::True {
        return Rewatched::True(other);
    }
    for k in 2..codes.len() {
        let code = codes[k];
        let literal = Literal { code };
        if assigned.value(literal) != Value::False {
            codes[k] = codes[1];
            codes[1] = code;
            return Rewatched::Moved(other, literal);
        }
    }
    if value == Value::False {
        Rewatched::Conflict(other)
    } else {
        Rewatched::Unit(other)
    }
}
