//! What is learnt from a conflict, and which lemmas are let go.
ghost use Rattle.std.specs.Prelude.{◌≡◌};

use crate::arena::ClauseRef;
use crate::state::State;
use std::alloc::AllocError;

// So many more lemmas are kept each time that some are let go.
const MORE_ROOM: usize = 500;

impl State {
    /// Learns from a clause whose literals are all false: adds its lemma, goes back to where that has one open literal, and
    /// makes it true. False where the arena is full.
    ///
    /// # Errors
    /// Out of memory.
    pub fn learn(&mut self, conflict: ClauseRef) -> Result<bool, AllocError>
        ensures { self.new.spent ≡ self.old.spent }
    {
        let lemma = self.analysis.lemma(
            conflict,
            &mut self.arena,
            &self.assigned,
            &mut self.decisions,
        )?;
        if let Some(log) = &mut self.log {
            let number = self.arena.count().saturating_add(1);
            log.add(conflict, &lemma, number, &self.arena, &self.assigned)?;
        }
        let level = match lemma.get(1) {
            None => 0,
            Some(literal) => self.assigned.level_of(literal.variable()),
        };
        self.assigned.back_to(level as usize);
        let Some(clause) = self.arena.add(&lemma)? else {
            return Ok(false);
        };
        let Some(first) = lemma.first() else {
            return Ok(false);
        };
        self.watches.add(clause, &lemma)?;
        self.assigned.assign(*first, Some(clause))?;
        self.decisions.decay();
        self.learnt.push(clause)?;
        Ok(true)
    }

    // Whether a lemma may be let go: it is long, and no value has it as its reason.
    fn may_go(&self, clause: ClauseRef) -> bool {
        let codes = self.arena.codes(clause);
        if codes.len() < 3 {
            return false;
        }
        self.assigned.reason_of(codes[0] / 2) != Some(clause)
    }

    // The use of a lemma that half of them exceed.
    fn median_use(&self) -> Result<u32, AllocError> {
        let mut uses = Vec::with_capacity(self.alloc, self.learnt.len())?;
        for clause in &self.learnt {
            uses.push(self.arena.used(*clause))?;
        }
        uses.sort_unstable();
        Ok(uses.get(uses.len() / 2).copied().unwrap_or(0))
    }

    // Lets the lemmas go that were used less than others, and takes back all decisions.
    fn reduce(&mut self) -> Result<(), AllocError>
        ensures { self.new.spent ≡ self.old.spent }
    {
        self.assigned.back_to(0);
        let median = self.median_use()?;
        let mut kept = Vec::with_capacity(self.alloc, self.learnt.len())?;
        for at in 0..self.learnt.len() {
            let clause = self.learnt[at];
            if self.arena.used(clause) < median && self.may_go(clause) {
                self.arena.let_go(clause);
            } else {
                self.arena.fade(clause);
                kept.push(clause)?;
            }
        }
        self.learnt = kept;
        self.room = self.room.saturating_add(MORE_ROOM);
        Ok(())
    }

    /// Lets lemmas go where there are too many. With a log all are kept, since any may be a hint.
    ///
    /// # Errors
    /// Out of memory.
    pub fn reduce_when_full(&mut self) -> Result<(), AllocError>
        ensures { self.new.spent ≡ self.old.spent }
    {
        if self.log.is_none() && self.learnt.len() > self.room {
            self.reduce()?;
        }
        Ok(())
    }
}
