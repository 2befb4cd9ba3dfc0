//! What to decide: only what supports a true variable.
//!
//! A true variable is supported where each of its support clauses has another true literal. Where all true variables are
//! supported the search ends: with all else false the clauses are met, if only support clauses ask for truth. So a
//! question costs what it touches, however large the circuit is.
use crate::arena::{Arena, ClauseRef};
use crate::assignment::Assignment;
use crate::literal::{Literal, Value};
use std::alloc::{AllocError, Global};

// What speaks for a variable: how much conflicts met it of late, and among equals how little it costs.
#[derive(Clone, Copy)]
struct Weight {
    activity: u64,
    cost: u32,
}

/// The weights and the support clauses of the variables.
#[derive(Clone, Drop)]
pub struct Decisions {
    alloc: Global,
    // by variable
    weights: Vec<Weight>,
    // by variable: the clauses of which one must support it where it is true
    supports: Vec<Vec<ClauseRef>>,
    // clauses that ask for a true literal whatever is true
    roots: Vec<ClauseRef>,
    // what is added to the activity of a variable now
    step: u64,
}

// The first step, and the activity above which all are made smaller. Whole numbers, so that each machine counts alike.
const FIRST_STEP: u64 = 1 << 10;

const MAX_ACTIVITY: u64 = 1 << 60;

const SHRINK: u64 = 1 << 40;

// What a support clause asks for.
#[derive(Clone, Copy)]
enum Wanted {
    // It has a true literal.
    Nothing,
    // This open one.
    Best(Literal),
    // All are false: propagation sees to it.
    Impossible,
}

impl Weight {
    fn is_better_than(self, other: Weight) -> bool {
        self.activity > other.activity
            || (self.activity == other.activity && self.cost < other.cost)
    }
}

impl Decisions {
    /// No variable.
    pub fn new(alloc: Global) -> Decisions {
        Decisions {
            alloc,
            weights: Vec::new(alloc),
            supports: Vec::new(alloc),
            roots: Vec::new(alloc),
            step: FIRST_STEP,
        }
    }

    /// Adds a variable with its cost.
    ///
    /// # Errors
    /// Out of memory.
    pub fn add_variable(&mut self, cost: u32) -> Result<(), AllocError> {
        self.weights.push(Weight { activity: 0, cost })?;
        self.supports.push(Vec::new(self.alloc))?;
        Ok(())
    }

    /// Counts that a conflict met a variable.
    #[inline(always)]
    pub fn bump(&mut self, variable: u32) {
        if let Some(weight) = self.weights.get_mut(variable as usize) {
            weight.activity = weight.activity.saturating_add(self.step);
            if weight.activity > MAX_ACTIVITY {
                self.shrink();
            }
        }
    }

    #[cold]
    fn shrink(&mut self) {
        for weight in self.weights.iter_mut() {
            weight.activity /= SHRINK;
        }
        self.step = self.step / SHRINK + 1;
    }

    /// Lets later conflicts count more than earlier ones.
    pub fn decay(&mut self) {
        self.step = self.step.saturating_add(self.step / 20);
    }

    /// How much conflicts met a variable of late.
    pub fn activity(&self, variable: u32) -> u64 {
        match self.weights.get(variable as usize) {
            Some(weight) => weight.activity,
            None => 0,
        }
    }

    /// Takes in a support clause: it supports the variable of its only negative literal, or asks for a true literal in any
    /// case where it has none. One with more negative literals, or with one positive literal alone, asks for nothing:
    /// propagation does it.
    ///
    /// # Errors
    /// Out of memory.
    pub fn add_support(
        &mut self,
        clause: ClauseRef,
        literals: &[Literal],
    ) -> Result<(), AllocError> {
        let negative = literals
            .iter()
            .filter(|literal| !literal.is_positive())
            .count();
        if negative > 1 || literals.len() < negative + 2 {
            return Ok(());
        }
        match literals.iter().find(|literal| !literal.is_positive()) {
            None => self.roots.push(clause)?,
            Some(literal) => {
                if let Some(supports) = self.supports.get_mut(literal.variable() as usize) {
                    supports.push(clause)?;
                }
            }
        }
        Ok(())
    }

    fn weight(&self, literal: Literal) -> Weight {
        match self.weights.get(literal.variable() as usize) {
            Some(weight) => *weight,
            None => Weight {
                activity: 0,
                cost: 0,
            },
        }
    }

    // The best open literal of a clause that has no true one.
    fn wanted(&self, codes: &[u32], assigned: &Assignment) -> Wanted {
        let mut wanted = Wanted::Impossible;
        let mut most = Weight {
            activity: 0,
            cost: u32::MAX,
        };
        for code in codes {
            let literal = Literal { code: *code };
            match assigned.value(literal) {
                Value::True => return Wanted::Nothing,
                Value::False => {}
                Value::Open => {
                    let weight = self.weight(literal);
                    if matches!(wanted, Wanted::Impossible) || weight.is_better_than(most) {
                        wanted = Wanted::Best(literal);
                        most = weight;
                    }
                }
            }
        }
        wanted
    }

    // The literal that the first unsupported one of these clauses asks for.
    fn first_wanted(
        &self,
        clauses: &[ClauseRef],
        arena: &Arena,
        assigned: &Assignment,
    ) -> Option<Literal> {
        for clause in clauses {
            if let Wanted::Best(literal) = self.wanted(arena.codes(*clause), assigned) {
                return Some(literal);
            }
        }
        None
    }

    /// The literal to be decided next: it supports the first literal of the trail that isn't supported. None where all
    /// are.
    pub fn pick(&self, arena: &Arena, assigned: &mut Assignment) -> Option<Literal> {
        for at in assigned.supported()..assigned.trail().len() {
            let Some(literal) = assigned.trail().get(at).copied() else {
                break;
            };
            if literal.is_positive()
                && let Some(supports) = self.supports.get(literal.variable() as usize)
                && let Some(next) = self.first_wanted(supports, arena, assigned)
            {
                assigned.set_supported(at);
                return Some(next);
            }
        }
        let all = assigned.trail().len();
        assigned.set_supported(all);
        self.first_wanted(&self.roots, arena, assigned)
    }
}
