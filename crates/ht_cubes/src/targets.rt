//! The clauses of cubes, and what must not come.
ghost use Rattle.std.specs.Prelude.{◌≡◌, ◌++◌, ◌∷◌, ◌+◌, ◌<◌, ◌^◌, [], length, map, IfOk, OnOk};
ghost use Rattle.std.specs.List.{All, filter, flat_map};
ghost use Rattle.ht_net.specs.declared.net.NetId.{NetId};
ghost use Rattle.ht_net.specs.Circuit.Netlist.{net_count};
ghost use Rattle.ht_cubes.specs.Rails.{IsKnownRail};
ghost use Rattle.ht_cubes.specs.Formula.{cube_clause, is_constant, may_come, needs, next_target, output_targets, positive, some_target, target_clauses, targets_of};
ghost use Rattle.ht_cubes.specs.Cones.{marked};

use crate::machines::Machines;
use crate::{Cube, Rail, Rows, SignedVar};
use ht_net::NetId;
use std::alloc::{AllocError, Global};

// Whether a signed variable is the constant of this bit.
pub(crate) fn is_constant(bit: bool, literal: SignedVar) -> bool
    ensures { result ≡ is_constant bit literal }
{
    literal.variable == 0 && literal.value == bit
}

// Adds a target that may come.
fn push_target(rows: &mut Rows, target: &[SignedVar]) -> Result<(), AllocError>
    ensures { OnOk result (rows.new ≡ rows.old ++ filter may_come (target.now ∷ [])) }
{
    'rails: for rail in target {
        let fails = is_constant(false, *rail);
        if fails {
            return Ok(());
        }
    }
    rows.push(target)
}

impl<'a> Machines<'a> {
    // The clause by which not all rails of a cube hold.
    fn push_cube(&self, alloc: Global, rows: &mut Rows, cube: &[Rail]) -> Result<(), AllocError>
        requires known { All (IsKnownRail self.now.circuit.now
            (marked self.now.cone.now)) cube.now }
        requires cone { length self.now.cone.now ≡ net_count self.now.circuit.now }
        ensures { OnOk result (rows.new ≡ rows.old
            ++ cube_clause self.now.circuit.now (marked self.now.cone.now) cube.now ∷ []) }
    {
        prove_eq!(self.cone.len(), self.circuit.nets() as usize);
        let mut clause = Vec::new(alloc);
        'rails: for rail in cube {
            let latch = self.driver(rail.faulty, self.circuit.dff_net(rail.dff).0);
            clause.push(latch.rail(rail.value).complement())?;
        }
        rows.push(&clause)
    }

    /// The clauses of the cubes that are avoided.
    pub(crate) fn push_cubes(
        &self,
        alloc: Global,
        rows: &mut Rows,
        cubes: &[Cube],
    ) -> Result<(), AllocError>
        requires known { All (All (IsKnownRail self.now.circuit.now
            (marked self.now.cone.now))) cubes.now }
        requires cone { length self.now.cone.now ≡ net_count self.now.circuit.now }
        ensures { OnOk result (rows.new ≡ rows.old
            ++ map (cube_clause self.now.circuit.now (marked self.now.cone.now)) cubes.now) }
    {
        'cubes: for cube in cubes {
            self.push_cube(alloc, rows, cube.as_slice())?;
        }
        Ok(())
    }

    // The target of a cube.
    fn push_next(&self, alloc: Global, rows: &mut Rows, cube: &[Rail]) -> Result<(), AllocError>
        requires known { All (IsKnownRail self.now.circuit.now
            (marked self.now.cone.now)) cube.now }
        requires cone { length self.now.cone.now ≡ net_count self.now.circuit.now }
        ensures { OnOk result (rows.new ≡ rows.old
            ++ filter may_come (next_target self.now.circuit.now self.now.fault
            (marked self.now.cone.now) cube.now ∷ [])) }
    {
        let mut target = Vec::new(alloc);
        'rails: for rail in cube {
            let data = self.next(rail.faulty, rail.dff);
            target.push(data.rail(rail.value))?;
        }
        push_target(rows, &target)
    }

    // The targets of an output.
    fn push_output(&self, rows: &mut Rows, output: NetId) -> Result<(), AllocError>
        requires known { output.0 < net_count self.now.circuit.now }
        requires cone { length self.now.cone.now ≡ net_count self.now.circuit.now }
        ensures { OnOk result (rows.new ≡ rows.old
            ++ filter may_come (output_targets self.now.circuit.now self.now.fault
            (marked self.now.cone.now) output)) }
    {
        prove_eq!(self.cone.len(), self.circuit.nets() as usize);
        let inside = self.cone[output.index()];
        if !inside {
            return Ok(());
        }
        let good = self.net(false, output.0);
        let faulty = self.net(true, output.0);
        push_target(rows, &[good.rail(false), faulty.rail(true)])?;
        push_target(rows, &[good.rail(true), faulty.rail(false)])?;
        Ok(())
    }

    /// The targets that have a variable, of the cubes and then of the outputs.
    pub(crate) fn all_targets(&self, alloc: Global, cubes: &[Cube]) -> Result<Rows, AllocError>
        requires known { All (All (IsKnownRail self.now.circuit.now
            (marked self.now.cone.now))) cubes.now }
        requires cone { length self.now.cone.now ≡ net_count self.now.circuit.now }
        ensures { IfOk result (λ rows. rows
            ≡ targets_of self.now.circuit.now self.now.fault (marked self.now.cone.now) cubes.now) }
    {
        prove_eq!(self.cone.len(), self.circuit.nets() as usize);
        let mut rows = Rows::new(alloc);
        'cubes: for cube in cubes {
            self.push_next(alloc, &mut rows, cube.as_slice())?;
        }
        'places: for o in 0..self.circuit.outputs() {
            let output = self.circuit.output(o);
            self.push_output(&mut rows, output)?;
        }
        Ok(rows)
    }
}

// The clauses by which a target's variable needs its rails.
fn push_needs(rows: &mut Rows, variable: u32, target: &[SignedVar]) -> Result<(), AllocError>
    ensures { OnOk result (rows.new ≡ rows.old
        ++ map (λ l. needs (positive variable) (l ∷ [])) target.now) }
{
    'rails: for rail in target {
        rows.push(&[
            SignedVar {
                variable,
                value: false,
            },
            *rail,
        ])?;
    }
    Ok(())
}

/// The clauses of the targets, whose variables are from `first` on, and the clause by which some target comes.
pub(crate) fn push_targets(
    alloc: Global,
    rows: &mut Rows,
    first: u32,
    targets: &Rows,
) -> Result<(), AllocError>
    requires { first + length targets.now < 2 ^ 32 }
    ensures { OnOk result (rows.new ≡ rows.old ++ (target_clauses first targets.now
        ++ some_target first targets.now ∷ [])) }
{
    let mut some = Vec::new(alloc);
    'targets: for i in 0..targets.len() {
        let variable = first + i as u32;
        push_needs(rows, variable, targets.row(i))?;
        some.push(SignedVar {
            variable,
            value: true,
        })?;
    }
    rows.push(&some)
}
