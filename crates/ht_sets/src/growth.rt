//! The sets of a cone, as they grow.
ghost use Rattle.std.specs.Prelude.{◌≡◌, ◌≤◌, IfOk};

use crate::values::{Stuck, Values, set_at};
use ht_pairs::PairSet;
use ht_tern::Tern;
use ht_wiring::{Cone, Line, Pending, Wiring};
use std::alloc::{AllocError, Global};

/// How the growth of a cone's sets ends.
#[derive(Clone, Copy, PartialEq, Eq, Debug)]
pub enum Grown {
    /// No flip-flop takes a further pair, and no output may show a difference.
    Closed,
    /// An output may show a difference.
    Shown,
    /// The work that was allowed is spent.
    Spent,
}

/// The sets of all nets and flip-flops, of which those of a cone grow.
#[derive(Clone, Drop)]
pub struct Growth {
    /// By net.
    pub values: Values,
    /// By flip-flop.
    pub family: Vec<PairSet>,
    /// What may change.
    pub cone: Cone,
    pending: Pending,
    // an output may show a difference
    shown: bool,
    // how many gates may still be evaluated
    left: u64,
}

impl Growth {
    /// Nothing has grown yet, from a start.
    ///
    /// # Errors
    /// Out of memory.
    pub fn new(alloc: Global, wiring: &Wiring, start: &[Tern]) -> Result<Growth, AllocError> {
        let mut family = Vec::with_capacity(alloc, start.len())?;
        for value in start {
            family.push(PairSet::single(*value, *value))?;
        }
        Ok(Growth {
            values: Values::new(alloc, wiring)?,
            family,
            cone: Cone::new(alloc, wiring)?,
            pending: Pending::new(alloc, wiring.nets())?,
            shown: false,
            left: 0,
        })
    }

    /// Gives what may change the sets that it has in the good machine.
    pub fn restore(&mut self, wiring: &Wiring, family: &[PairSet], sets: &[PairSet]) {
        for net in self.cone.nets() {
            self.values.write(*net, set_at(sets, *net));
            if let Some(dff) = wiring.dff(*net)
                && let Some(set) = self.family.get_mut(dff as usize)
            {
                *set = set_at(family, dff);
            }
        }
    }

    // Gives a net a set, and makes what reads it pending.
    #[inline(always)]
    fn write(&mut self, wiring: &Wiring, net: u32, set: PairSet)
        ensures { self.new.left ≡ self.old.left }
    {
        if self.values.write(net, set) {
            for reader in wiring.readers(net) {
                self.pending.insert(*reader);
            }
        }
        if wiring.is_output(net) && set.may_differ() {
            self.shown = true;
        }
    }

    // Begins a net of the cone: inputs are free, flip-flops at the start, gates pending.
    fn begin_net(&mut self, wiring: &Wiring, start: &[Tern], net: u32, stuck: Stuck)
        ensures { self.new.left ≡ self.old.left }
    {
        if wiring.gate(net).is_some() {
            self.pending.insert(net);
            return;
        }
        let Some(dff) = wiring.dff(net) else {
            self.write(
                wiring,
                net,
                stuck.shown(Line::Net(net), PairSet::both_same()),
            );
            return;
        };
        if let Some(value) = start.get(dff as usize)
            && let Some(set) = self.family.get_mut(dff as usize)
        {
            *set = PairSet::single(*value, *value);
            self.show_dff(wiring, dff, stuck);
        }
    }

    // Shows the set of a flip-flop at its net.
    fn show_dff(&mut self, wiring: &Wiring, dff: u32, stuck: Stuck)
        ensures { self.new.left ≡ self.old.left }
    {
        let net = wiring.dff_net(dff);
        let set = set_at(&self.family, dff);
        self.write(wiring, net, stuck.shown(Line::Net(net), set));
    }

    // Begins all nets of the cone.
    fn begin(
        &mut self,
        alloc: Global,
        wiring: &Wiring,
        start: &[Tern],
        stuck: Stuck,
    ) -> Result<(), AllocError>
        ensures { self.new.left ≡ self.old.left }
    {
        self.shown = false;
        let nets = Vec::from_slice(alloc, self.cone.nets())?;
        for net in &nets {
            self.begin_net(wiring, start, *net, stuck);
        }
        Ok(())
    }

    // Evaluates the gates that are pending, until an output may show a difference or the work is spent.
    fn settle(&mut self, wiring: &Wiring, stuck: Stuck) -> Result<(), AllocError>
        ensures { self.new.left ≤ self.old.left }
    {
        'events: while self.left > 0 {
            if self.shown {
                return Ok(());
            }
            self.left -= 1;
            let Some(net) = self.pending.take() else {
                return Ok(());
            };
            if let Some(gate) = wiring.gate(net) {
                let set = self.values.gate(wiring, gate, net, stuck)?;
                self.write(wiring, net, set);
            }
        }
        Ok(())
    }

    // Adds to the set of a flip-flop what it takes. Whether that is more than it had.
    fn take(&mut self, wiring: &Wiring, dff: u32, stuck: Stuck) -> bool
        ensures { self.new.left ≡ self.old.left }
    {
        let taken = set_at(&self.values.sets, wiring.data(dff));
        let taken = stuck.shown(Line::Data { dff }, taken);
        let Some(set) = self.family.get_mut(dff as usize) else {
            return false;
        };
        if set.includes(taken) {
            return false;
        }
        *set = set.join(taken);
        self.show_dff(wiring, dff, stuck);
        true
    }

    // Adds to the sets of the flip-flops what they take. Whether some had less.
    fn take_all(&mut self, wiring: &Wiring, dffs: &[u32], stuck: Stuck) -> bool
        ensures { self.new.left ≡ self.old.left }
    {
        let mut more = false;
        for dff in dffs {
            if self.take(wiring, *dff, stuck) {
                more = true;
            }
        }
        more
    }

    // The flip-flops of the cone.
    fn cone_dffs(&self, alloc: Global, wiring: &Wiring) -> Result<Vec<u32>, AllocError> {
        let mut dffs = Vec::new(alloc);
        for net in self.cone.nets() {
            if let Some(dff) = wiring.dff(*net) {
                dffs.push(dff)?;
            }
        }
        Ok(dffs)
    }

    // Lets the sets of the cone grow from the start. Each round but the last adds a pair, or spends all work.
    fn rounds(&mut self, alloc: Global, wiring: &Wiring, stuck: Stuck) -> Result<Grown, AllocError>
        ensures { self.new.left ≤ self.old.left }
    {
        let dffs = self.cone_dffs(alloc, wiring)?;
        for _round in 0..=dffs.len().saturating_mul(9) {
            self.settle(wiring, stuck)?;
            if self.shown {
                return Ok(Grown::Shown);
            }
            if self.left == 0 {
                return Ok(Grown::Spent);
            }
            if !self.take_all(wiring, &dffs, stuck) {
                return Ok(Grown::Closed);
            }
        }
        Ok(Grown::Spent)
    }

    /// Lets the sets of the cone grow from the start, with at most so many gates evaluated. How that ends, and how many may
    /// still be.
    ///
    /// # Errors
    /// Out of memory.
    pub fn grow(
        &mut self,
        alloc: Global,
        wiring: &Wiring,
        start: &[Tern],
        stuck: Stuck,
        most: u64,
    ) -> Result<(Grown, u64), AllocError>
        ensures { IfOk result (λ ended. ended.1 ≤ most) }
    {
        self.left = most;
        self.pending.clear();
        self.begin(alloc, wiring, start, stuck)?;
        let grown = self.rounds(alloc, wiring, stuck)?;
        Ok((grown, self.left))
    }
}
