//! Two watched literals for each clause (Moskewicz and others 2001, Chaff): a clause is looked at only when one of them
//! becomes false.
ghost use Rattle.std.specs.Prelude.{◌≤◌};

use crate::arena::{Arena, ClauseRef, Rewatched};
use crate::assignment::Assignment;
use crate::literal::{Literal, Value};
use std::alloc::{AllocError, Global};
use std::mem;

/// A clause that is watched, and another literal of it, its blocker: where that one is true, the clause needn't be
/// looked at.
#[derive(Clone, Copy)]
pub struct Watch {
    clause: ClauseRef,
    blocker: Literal,
}

/// How propagation ends.
#[derive(Clone, Copy)]
pub enum Propagated {
    /// The whole trail is propagated.
    All,
    /// All literals of this clause are false.
    Conflict(ClauseRef),
    /// No more literals may be propagated.
    Spent,
}

/// The watches of each literal. Clauses of two literals stand apart: their blocker is the rest of the clause.
#[derive(Clone, Drop)]
pub struct Watches {
    alloc: Global,
    // by literal: clauses of two literals
    pairs: Vec<Vec<Watch>>,
    // by literal: longer clauses
    rows: Vec<Vec<Watch>>,
}

impl Watches {
    /// No variable, and no clause.
    pub fn new(alloc: Global) -> Watches {
        Watches {
            alloc,
            pairs: Vec::new(alloc),
            rows: Vec::new(alloc),
        }
    }

    /// Adds a variable, whose two literals watch nothing.
    ///
    /// # Errors
    /// Out of memory.
    pub fn add_variable(&mut self) -> Result<(), AllocError> {
        for _ in 0..2 {
            self.pairs.push(Vec::new(self.alloc))?;
            self.rows.push(Vec::new(self.alloc))?;
        }
        Ok(())
    }

    /// Watches a clause by its first two literals; one of fewer isn't watched.
    ///
    /// # Errors
    /// Out of memory.
    pub fn add(&mut self, clause: ClauseRef, literals: &[Literal]) -> Result<(), AllocError> {
        if literals.len() < 2 {
            return Ok(());
        }
        let first = literals[0];
        let second = literals[1];
        if literals.len() == 2 {
            add_to(&mut self.pairs, clause, first, second)
        } else {
            add_to(&mut self.rows, clause, first, second)
        }
    }

    /// Propagates what is true until nothing follows, a clause is false, or `count`, which counts the literals that were
    /// propagated, is `most`.
    ///
    /// # Errors
    /// Out of memory; some watches are then lost.
    pub fn propagate(
        &mut self,
        arena: &mut Arena,
        assigned: &mut Assignment,
        count: &mut u64,
        most: u64,
    ) -> Result<Propagated, AllocError>
        requires { count.old ≤ most }
        ensures { count.new ≤ most }
    {
        while *count < most {
            let Some(literal) = assigned.next() else {
                return Ok(Propagated::All);
            };
            *count += 1;
            if let Some(conflict) = self.falsify(arena, assigned, literal.opposite())? {
                assigned.stop();
                return Ok(Propagated::Conflict(conflict));
            }
        }
        Ok(Propagated::Spent)
    }

    // Looks at the clauses that watch a literal that is false. The row is taken out, so that others can be added to.
    #[inline(always)]
    fn falsify(
        &mut self,
        arena: &mut Arena,
        assigned: &mut Assignment,
        falsified: Literal,
    ) -> Result<Option<ClauseRef>, AllocError> {
        let at = falsified.code as usize;
        if let Some(pairs) = self.pairs.get(at) {
            let conflict = falsify_pairs(pairs, assigned)?;
            if conflict.is_some() {
                return Ok(conflict);
            }
        }
        let Some(own) = self.rows.get_mut(at) else {
            return Ok(None);
        };
        let mut row = mem::replace(own, Vec::new(self.alloc));
        let conflict = falsify_row(&mut row, &mut self.rows, arena, assigned, falsified)?;
        if let Some(own) = self.rows.get_mut(at) {
            *own = row;
        }
        Ok(conflict)
    }
}

// The other literal of each of these clauses of two is true; a clause in which it is false.
#[inline(always)]
fn falsify_pairs(
    pairs: &[Watch],
    assigned: &mut Assignment,
) -> Result<Option<ClauseRef>, AllocError> {
    for watch in pairs {
        match assigned.value(watch.blocker) {
            Value::True => {}
            Value::False => return Ok(Some(watch.clause)),
            Value::Open => assigned.assign(watch.blocker, Some(watch.clause))?,
        }
    }
    Ok(None)
}

// Goes once over a row, keeps the watches that stay in it, and moves the others; after a conflict all stay.
fn falsify_row(
    row: &mut Vec<Watch>,
    rows: &mut Vec<Vec<Watch>>,
    arena: &mut Arena,
    assigned: &mut Assignment,
    falsified: Literal,
) -> Result<Option<ClauseRef>, AllocError> {
    let mut kept = 0;
    let mut conflict = None;
    for i in 0..row.len() {
        let mut watch = row[i];
        if conflict.is_none() && assigned.value(watch.blocker) != Value::True {
            match arena.rewatch(watch.clause, falsified, assigned) {
                Rewatched::True(other) => watch.blocker = other,
                Rewatched::Moved(other, literal) => {
                    watch.blocker = other;
                    if let Some(there) = rows.get_mut(literal.code as usize) {
                        there.push(watch)?;
                    }
                    continue;
                }
                Rewatched::Unit(other) => {
                    watch.blocker = other;
                    assigned.assign(other, Some(watch.clause))?;
                }
                Rewatched::Conflict(other) => {
                    watch.blocker = other;
                    conflict = Some(watch.clause);
                }
                Rewatched::Gone => continue,
            }
        }
        row[kept] = watch;
        kept += 1;
    }
    row.truncate(kept);
    Ok(conflict)
}

// Watches a clause by two literals, each the other's blocker.
fn add_to(
    rows: &mut Vec<Vec<Watch>>,
    clause: ClauseRef,
    first: Literal,
    second: Literal,
) -> Result<(), AllocError> {
    if let Some(row) = rows.get_mut(first.code as usize) {
        row.push(Watch {
            clause,
            blocker: second,
        })?;
    }
    if let Some(row) = rows.get_mut(second.code as usize) {
        row.push(Watch {
            clause,
            blocker: first,
        })?;
    }
    Ok(())
}
