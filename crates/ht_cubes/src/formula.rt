//! The formula of a fault and a list of cubes.
ghost use Rattle.std.specs.Prelude.{◌≡◌, ◌++◌, ◌+◌, ◌*◌, ◌<◌, ◌-◌, ◌^◌, [], length, IfOk, OnOk};
ghost use Rattle.std.specs.List.{All, flat_map};
ghost use Rattle.ht_net.specs.Circuit.Netlist.{net_count};
ghost use Rattle.ht_cubes.specs.Rails.{IsKnownRail};
ghost use Rattle.ht_cubes.specs.Formula.{clauses_of, formula_of, last_variable, without_constants};
ghost use Rattle.ht_cubes.specs.Cones.{marked};

use crate::machines::Machines;
use crate::targets::{is_constant, push_targets};
use crate::{Cube, Rows, SignedVar};
use ht_items::FlatRows;
use std::alloc::{AllocError, Global};

/// A formula: its clauses, numbered from 1, and the highest variable.
#[derive(Drop)]
pub struct Formula {
    pub clauses: FlatRows<SignedVar>,
    pub last: u32,
}

// Adds a clause without its constants, or nothing where one is true.
fn push_plain(alloc: Global, rows: &mut Rows, clause: &[SignedVar]) -> Result<(), AllocError>
    ensures { OnOk result (rows.new ≡ rows.old ++ without_constants clause.now) }
{
    let mut plain = Vec::new(alloc);
    'literals: for literal in clause {
        let holds = is_constant(true, *literal);
        if holds {
            return Ok(());
        }
        let fails = is_constant(false, *literal);
        if !fails {
            plain.push(*literal)?;
        }
    }
    rows.push(&plain)
}

/// The clauses without constants.
pub(crate) fn without_constants(alloc: Global, clauses: &Rows) -> Result<Rows, AllocError>
    ensures { IfOk result (λ rows. rows ≡ flat_map without_constants clauses.now) }
{
    let mut rows = Rows::new(alloc);
    'clauses: for i in 0..clauses.len() {
        push_plain(alloc, &mut rows, clauses.row(i))?;
    }
    Ok(rows)
}

impl<'a> Machines<'a> {
    /// The formula of a fault and a list of cubes.
    ///
    /// # Errors
    /// Out of memory, or 2^32 or more that stands in clauses.
    pub(crate) fn build(&self, alloc: Global, cubes: &[Cube]) -> Result<Formula, AllocError>
        requires known { All (All (IsKnownRail self.now.circuit.now
            (marked self.now.cone.now))) cubes.now }
        requires cone { length self.now.cone.now ≡ net_count self.now.circuit.now }
        ensures clauses { IfOk result
            (λ f. f.clauses
            ≡ formula_of self.now.circuit.now self.now.fault (marked self.now.cone.now) cubes.now) }
        ensures last { IfOk result
            (λ f. f.last ≡ last_variable self.now.circuit.now self.now.fault
            (marked self.now.cone.now) cubes.now) }
        ensures few { IfOk result (λ f. f.last < 2 ^ 32 - 1) }
    {
        let rails = 4 * self.circuit.nets();
        let mut rows = Rows::new(alloc);
        self.push_frame(alloc, &mut rows)?;
        self.push_cubes(alloc, &mut rows, cubes)?;
        let targets = self.all_targets(alloc, cubes)?;
        let Ok(count) = u32::try_from(targets.len()) else {
            return Err(AllocError);
        };
        if count >= u32::MAX - rails {
            return Err(AllocError);
        }
        push_targets(alloc, &mut rows, rails + 1, &targets)?;
        let clauses = without_constants(alloc, &rows)?;
        Ok(Formula {
            clauses,
            last: rails + count,
        })
    }
}
