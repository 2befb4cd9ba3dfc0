//! The lemmas, each with the clauses from which it follows: a refutation that a checker follows without a search (LRAT,
//! 2017).
use crate::arena::{Arena, ClauseRef};
use crate::assignment::Assignment;
use crate::literal::Literal;
use std::alloc::{AllocError, Global};

/// A learnt clause with its hints: where its literals are all false, each hint in turn has one literal left that isn't
/// false, which is true from then on, and the last hint has none.
#[derive(Clone, Drop)]
pub struct Lemma {
    /// Its number. Clauses, given and learnt, are counted from 1 as they come.
    pub number: u32,
    /// Its literals; where there is none, the clauses before it can't all be met.
    pub literals: Vec<Literal>,
    /// The numbers of its hints.
    pub hints: Vec<u32>,
}

/// The lemmas so far, in order.
#[derive(Clone, Drop)]
pub struct Log {
    alloc: Global,
    lemmas: Vec<Lemma>,
    // by variable: the number of the clause that says its value at level 0, or 0
    units: Vec<u32>,
    // by variable: it takes part in the conflict, and isn't explained yet
    involved: Vec<bool>,
    // by variable: it is a variable of the lemma
    given: Vec<bool>,
    // how much of the trail at level 0 has clauses of its own
    logged: usize,
}

fn mark(marks: &mut Vec<bool>, variable: u32, value: bool) {
    if let Some(mark) = marks.get_mut(variable as usize) {
        *mark = value;
    }
}

fn is_marked(marks: &[bool], variable: u32) -> bool {
    marks.get(variable as usize).copied().unwrap_or(false)
}

fn mark_codes(marks: &mut Vec<bool>, codes: &[u32]) {
    for code in codes {
        mark(marks, *code / 2, true);
    }
}

fn mark_literals(marks: &mut Vec<bool>, literals: &[Literal], value: bool) {
    for literal in literals {
        mark(marks, literal.variable(), value);
    }
}

impl Log {
    /// No variable, and no lemma.
    pub fn new(alloc: Global) -> Log {
        Log {
            alloc,
            lemmas: Vec::new(alloc),
            units: Vec::new(alloc),
            involved: Vec::new(alloc),
            given: Vec::new(alloc),
            logged: 0,
        }
    }

    /// Adds a variable.
    ///
    /// # Errors
    /// Out of memory.
    pub fn add_variable(&mut self) -> Result<(), AllocError> {
        self.units.push(0)?;
        self.involved.push(false)?;
        self.given.push(false)?;
        Ok(())
    }

    /// The lemmas so far, in order.
    pub fn lemmas(&self) -> &[Lemma] {
        &self.lemmas
    }

    fn unit_of(&self, variable: u32) -> u32 {
        self.units.get(variable as usize).copied().unwrap_or(0)
    }

    // The hint for a variable: the clause of its value at level 0, or its reason, whose other variables are involved then.
    fn hint_of(&mut self, variable: u32, arena: &Arena, assigned: &Assignment) -> Option<u32> {
        let unit = self.unit_of(variable);
        if unit != 0 {
            return Some(unit);
        }
        let reason = assigned.reason_of(variable)?;
        mark_codes(&mut self.involved, arena.codes(reason));
        mark(&mut self.involved, variable, false);
        Some(arena.number(reason))
    }

    // Walks down the trail and adds a hint for each involved variable that isn't one of the lemma.
    fn add_hints(
        &mut self,
        hints: &mut Vec<u32>,
        arena: &Arena,
        assigned: &Assignment,
    ) -> Result<(), AllocError> {
        for at in (0..assigned.trail().len()).rev() {
            let Some(literal) = assigned.trail().get(at).copied() else {
                break;
            };
            let variable = literal.variable();
            if !is_marked(&self.involved, variable) {
                continue;
            }
            mark(&mut self.involved, variable, false);
            if is_marked(&self.given, variable) {
                continue;
            }
            if let Some(hint) = self.hint_of(variable, arena, assigned) {
                hints.push(hint)?;
            }
        }
        Ok(())
    }

    /// Logs the lemma of a clause whose literals are all false, before anything is taken back: a clause with these
    /// literals and this number.
    ///
    /// # Errors
    /// Out of memory.
    pub fn add(
        &mut self,
        conflict: ClauseRef,
        literals: &[Literal],
        number: u32,
        arena: &Arena,
        assigned: &Assignment,
    ) -> Result<(), AllocError> {
        let mut hints = Vec::new(self.alloc);
        hints.push(arena.number(conflict))?;
        mark_codes(&mut self.involved, arena.codes(conflict));
        mark_literals(&mut self.given, literals, true);
        self.add_hints(&mut hints, arena, assigned)?;
        mark_literals(&mut self.given, literals, false);
        hints.reverse();
        let literals = Vec::from_slice(self.alloc, literals)?;
        self.lemmas.push(Lemma {
            number,
            literals,
            hints,
        })?;
        Ok(())
    }

    // Logs one value of level 0, unless a clause of one literal says it.
    fn add_unit(
        &mut self,
        literal: Literal,
        arena: &mut Arena,
        assigned: &Assignment,
    ) -> Result<(), AllocError> {
        let Some(reason) = assigned.reason_of(literal.variable()) else {
            return Ok(());
        };
        let mut number = arena.number(reason);
        if arena.codes(reason).len() > 1 {
            number = arena.skip_number();
            self.add(reason, &[literal], number, arena, assigned)?;
        }
        if let Some(unit) = self.units.get_mut(literal.variable() as usize) {
            *unit = number;
        }
        Ok(())
    }

    /// Logs each new value of level 0 as a lemma of its own, so that later hints are short. The level now has to be 0.
    ///
    /// # Errors
    /// Out of memory.
    pub fn add_units(
        &mut self,
        arena: &mut Arena,
        assigned: &Assignment,
    ) -> Result<(), AllocError> {
        for at in self.logged..assigned.trail().len() {
            let Some(literal) = assigned.trail().get(at).copied() else {
                break;
            };
            self.add_unit(literal, arena, assigned)?;
        }
        self.logged = assigned.trail().len();
        Ok(())
    }
}
