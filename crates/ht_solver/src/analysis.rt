//! What a conflict teaches, by the first unique implication point (Moskewicz and others 2001, Chaff), and which
//! assumptions it needs (Een and Sorensson 2003, An Extensible SAT-solver).
use crate::arena::{Arena, ClauseRef};
use crate::assignment::Assignment;
use crate::decisions::Decisions;
use crate::literal::Literal;
use std::alloc::{AllocError, Global};

/// Room for the analysis of conflicts, kept from one to the next.
#[derive(Clone, Drop)]
pub struct Analysis {
    alloc: Global,
    // by variable: it takes part, and isn't explained yet
    seen: Vec<bool>,
    // literals of lower levels that take part
    lower: Vec<Literal>,
    // literals of the last level that are still to be explained
    unexplained: u64,
}

impl Analysis {
    /// No variable.
    pub fn new(alloc: Global) -> Analysis {
        Analysis {
            alloc,
            seen: Vec::new(alloc),
            lower: Vec::new(alloc),
            unexplained: 0,
        }
    }

    /// Adds a variable.
    ///
    /// # Errors
    /// Out of memory.
    pub fn add_variable(&mut self) -> Result<(), AllocError> {
        self.seen.push(false)?;
        Ok(())
    }

    #[inline(always)]
    fn has(&self, variable: u32) -> bool {
        match self.seen.get(variable as usize) {
            Some(seen) => *seen,
            None => false,
        }
    }

    #[inline(always)]
    fn set(&mut self, variable: u32, mark: bool) {
        if let Some(seen) = self.seen.get_mut(variable as usize) {
            *seen = mark;
        }
    }

    // Takes in the literals of a clause, but for that of one variable. Those of level 0 are false for ever.
    fn see(
        &mut self,
        codes: &[u32],
        but: Option<u32>,
        assigned: &Assignment,
        decisions: &mut Decisions,
    ) -> Result<(), AllocError> {
        let last = assigned.level();
        for code in codes {
            let literal = Literal { code: *code };
            let variable = literal.variable();
            if but == Some(variable) || self.has(variable) {
                continue;
            }
            let level = assigned.level_of(variable);
            if level == 0 {
                continue;
            }
            self.set(variable, true);
            decisions.bump(variable);
            if level as usize >= last {
                self.unexplained = self.unexplained.saturating_add(1);
            } else {
                self.lower.push(literal)?;
            }
        }
        Ok(())
    }

    // Takes in the rest of the clause from which a variable got its value.
    fn explain(
        &mut self,
        variable: u32,
        arena: &mut Arena,
        assigned: &Assignment,
        decisions: &mut Decisions,
    ) -> Result<(), AllocError> {
        match assigned.reason_of(variable) {
            None => Ok(()),
            Some(reason) => {
                arena.count_use(reason);
                self.see(arena.codes(reason), Some(variable), assigned, decisions)
            }
        }
    }

    // Whether the other literals that take part imply a literal of a lower level, in one step.
    fn is_redundant(&self, literal: Literal, arena: &Arena, assigned: &Assignment) -> bool {
        let variable = literal.variable();
        let Some(reason) = assigned.reason_of(variable) else {
            return false;
        };
        arena.codes(reason).iter().all(|code| {
            let other = *code / 2;
            other == variable || assigned.level_of(other) == 0 || self.has(other)
        })
    }

    // Adds the literals of lower levels that the others don't imply.
    fn add_lower(
        &self,
        lemma: &mut Vec<Literal>,
        arena: &Arena,
        assigned: &Assignment,
    ) -> Result<(), AllocError> {
        for literal in &self.lower {
            if !self.is_redundant(*literal, arena, assigned) {
                lemma.push(*literal)?;
            }
        }
        Ok(())
    }

    // Walks down the trail to the only literal of the last level that takes part, and gives its opposite.
    fn implication_point(
        &mut self,
        arena: &mut Arena,
        assigned: &Assignment,
        decisions: &mut Decisions,
    ) -> Result<Option<Literal>, AllocError> {
        for at in (0..assigned.trail().len()).rev() {
            let Some(literal) = assigned.trail().get(at).copied() else {
                break;
            };
            let variable = literal.variable();
            if !self.has(variable) {
                continue;
            }
            self.set(variable, false);
            if self.unexplained <= 1 {
                return Ok(Some(literal.opposite()));
            }
            self.unexplained -= 1;
            self.explain(variable, arena, assigned, decisions)?;
        }
        Ok(None)
    }

    /// The lemma of a clause whose literals are all false: a clause with one literal of the last level, which stands
    /// first. The second is one of the highest level of the others.
    ///
    /// # Errors
    /// Out of memory.
    pub fn lemma(
        &mut self,
        conflict: ClauseRef,
        arena: &mut Arena,
        assigned: &Assignment,
        decisions: &mut Decisions,
    ) -> Result<Vec<Literal>, AllocError> {
        self.lower.clear();
        self.unexplained = 0;
        arena.count_use(conflict);
        self.see(arena.codes(conflict), None, assigned, decisions)?;
        let mut lemma = Vec::new(self.alloc);
        if let Some(point) = self.implication_point(arena, assigned, decisions)? {
            lemma.push(point)?;
        }
        self.add_lower(&mut lemma, arena, assigned)?;
        unmark(&mut self.seen, &self.lower);
        put_highest_second(&mut lemma, assigned);
        Ok(lemma)
    }

    // Takes in the variables of a clause that have their value by decisions.
    fn see_decided(&mut self, codes: &[u32], assigned: &Assignment) {
        for code in codes {
            let variable = *code / 2;
            if assigned.level_of(variable) > 0 {
                self.set(variable, true);
            }
        }
    }

    /// The core of an assumption that is false: it, and the assumptions that make it false. All that is decided has to be
    /// assumptions.
    ///
    /// # Errors
    /// Out of memory.
    pub fn core(
        &mut self,
        denied: Literal,
        arena: &Arena,
        assigned: &Assignment,
    ) -> Result<Vec<Literal>, AllocError> {
        let mut core = Vec::new(self.alloc);
        core.push(denied)?;
        self.set(denied.variable(), true);
        for literal in assigned.decided().iter().rev() {
            let variable = literal.variable();
            if !self.has(variable) {
                continue;
            }
            match assigned.reason_of(variable) {
                None => core.push(*literal)?,
                Some(reason) => self.see_decided(arena.codes(reason), assigned),
            }
            self.set(variable, false);
        }
        self.set(denied.variable(), false);
        Ok(core)
    }
}

// Puts a literal of the highest level but for the first literal's in the second place: both are watched.
fn put_highest_second(lemma: &mut Vec<Literal>, assigned: &Assignment) {
    let mut best = 1;
    for i in 1..lemma.len() {
        if assigned.level_of(lemma[i].variable()) > assigned.level_of(lemma[best].variable()) {
            best = i;
        }
    }
    if best < lemma.len() {
        lemma.swap(1, best);
    }
}

fn unmark(seen: &mut Vec<bool>, literals: &[Literal]) {
    for literal in literals {
        if let Some(mark) = seen.get_mut(literal.variable() as usize) {
            *mark = false;
        }
    }
}
