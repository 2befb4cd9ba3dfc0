//! What is true, why, and in which order it became so.
use crate::arena::ClauseRef;
use crate::literal::{Literal, Value};
use std::alloc::{AllocError, Global};

// Why a variable has its value: its decision level, and the clause whose other literals were all false, if it wasn't
// decided.
#[derive(Clone, Copy)]
struct Reason {
    level: u32,
    clause: Option<ClauseRef>,
}

// How long the trail was when a decision level began, and how much of it was supported.
#[derive(Clone, Copy)]
struct Level {
    trail: u32,
    supported: u32,
}

/// The true literals in the order in which they became true, the trail, by decision levels. Level 0 has what follows from
/// the clauses alone.
#[derive(Clone, Drop)]
pub struct Assignment {
    // by literal
    values: Vec<Value>,
    // by variable
    reasons: Vec<Reason>,
    trail: Vec<Literal>,
    levels: Vec<Level>,
    // how much of the trail is propagated
    propagated: usize,
    // how much of the trail needs no decision to be supported
    supported: usize,
}

// A length of the trail, which has a literal for each variable at most.
fn short(length: usize) -> u32 {
    u32::try_from(length).unwrap_or(u32::MAX)
}

impl Assignment {
    /// No variable, and level 0.
    pub fn new(alloc: Global) -> Assignment {
        Assignment {
            values: Vec::new(alloc),
            reasons: Vec::new(alloc),
            trail: Vec::new(alloc),
            levels: Vec::new(alloc),
            propagated: 0,
            supported: 0,
        }
    }

    /// Adds a variable, without a value.
    ///
    /// # Errors
    /// Out of memory.
    pub fn add_variable(&mut self) -> Result<(), AllocError> {
        self.values.push(Value::Open)?;
        self.values.push(Value::Open)?;
        self.reasons.push(Reason {
            level: 0,
            clause: None,
        })?;
        Ok(())
    }

    /// How many variables there are.
    pub fn variables(&self) -> usize {
        self.reasons.len()
    }

    /// What is known of a literal; one of no variable here is false.
    #[inline(always)]
    pub fn value(&self, literal: Literal) -> Value {
        match self.values.get(literal.code as usize) {
            Some(value) => *value,
            None => Value::False,
        }
    }

    /// The decision level now.
    pub fn level(&self) -> usize {
        self.levels.len()
    }

    /// The decision level at which a variable got its value.
    #[inline(always)]
    pub fn level_of(&self, variable: u32) -> u32 {
        match self.reasons.get(variable as usize) {
            Some(reason) => reason.level,
            None => 0,
        }
    }

    /// The clause from which a variable got its value, if it wasn't decided.
    #[inline(always)]
    pub fn reason_of(&self, variable: u32) -> Option<ClauseRef> {
        match self.reasons.get(variable as usize) {
            Some(reason) => reason.clause,
            None => None,
        }
    }

    /// The literals that are true, in the order in which they became so.
    pub fn trail(&self) -> &[Literal] {
        &self.trail
    }

    /// The literals that are true by decisions: those above level 0.
    pub fn decided(&self) -> &[Literal] {
        let Some(level) = self.levels.first() else {
            return &[];
        };
        match self.trail.get(level.trail as usize..) {
            Some(decided) => decided,
            None => &[],
        }
    }

    /// How much of the trail is known to be supported.
    pub fn supported(&self) -> usize {
        self.supported
    }

    /// So much of the trail is supported.
    pub fn set_supported(&mut self, supported: usize) {
        self.supported = supported;
    }

    /// The next literal that isn't propagated; it counts as propagated from now on.
    #[inline(always)]
    pub fn next(&mut self) -> Option<Literal> {
        let literal = *self.trail.get(self.propagated)?;
        self.propagated = self.propagated.saturating_add(1);
        Some(literal)
    }

    /// Takes the whole trail for propagated: after a conflict nobody asks for the rest.
    pub fn stop(&mut self) {
        self.propagated = self.trail.len();
    }

    /// Makes a literal true at the level now: by this clause, or by a decision.
    ///
    /// # Errors
    /// Out of memory.
    #[inline(always)]
    pub fn assign(
        &mut self,
        literal: Literal,
        clause: Option<ClauseRef>,
    ) -> Result<(), AllocError> {
        self.trail.push(literal)?;
        self.set_value(literal, Value::True);
        self.set_value(literal.opposite(), Value::False);
        let level = short(self.levels.len());
        if let Some(reason) = self.reasons.get_mut(literal.variable() as usize) {
            *reason = Reason { level, clause };
        }
        Ok(())
    }

    #[inline(always)]
    fn set_value(&mut self, literal: Literal, value: Value) {
        if let Some(own) = self.values.get_mut(literal.code as usize) {
            *own = value;
        }
    }

    /// Begins a decision level.
    ///
    /// # Errors
    /// Out of memory.
    pub fn begin_level(&mut self) -> Result<(), AllocError> {
        self.levels.push(Level {
            trail: short(self.trail.len()),
            supported: short(self.supported),
        })?;
        Ok(())
    }

    /// Takes back all that became true above a decision level.
    pub fn back_to(&mut self, level: usize) {
        let Some(begun) = self.levels.get(level).copied() else {
            return;
        };
        for _ in begun.trail as usize..self.trail.len() {
            let Some(literal) = self.trail.pop() else {
                break;
            };
            self.set_value(literal, Value::Open);
            self.set_value(literal.opposite(), Value::Open);
        }
        self.propagated = begun.trail as usize;
        self.supported = begun.supported as usize;
        self.levels.truncate(level);
    }
}
