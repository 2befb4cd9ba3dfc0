//! Whether cubes and steps refute a fault.
ghost use Rattle.std.specs.Prelude.{◌≡◌, ◌↔◌, ◌<◌, IsTrue, get_or, length, IfOk};
ghost use Rattle.std.specs.List.{All};
ghost use Rattle.ht_tern.specs.declared.tern.Tern.TheVariants.{Unk};
ghost use Rattle.ht_tern.specs.Gate.{tern_of};
ghost use Rattle.ht_net.specs.Circuit.Netlist.{net_count};
ghost use Rattle.ht_net.specs.Detect.Detection.{IsStart};
ghost use Rattle.ht_cubes.specs.Rails.{AvoidsAll, Avoids, Holds, IsKnownRail, both};
ghost use Rattle.ht_cubes.specs.Cones.{marked};
ghost use Rattle.ht_net.specs.Detect.Undetectable.{IsUndetectable};
ghost use Rattle.ht_cubes.specs.Passing.{RefutesByCubes};

use crate::cone::cone_of;
use crate::machines::Machines;
use crate::steps::{are_within, ends_empty, steps_pass};
use crate::{ClauseStep, Cube, Rail};
use ht_net::{Circuit, Fault};
use ht_tern::Tern;
use std::alloc::{AllocError, Global};

// Whether a rail's flip-flop is there, and in the cone where it is of the faulty machine.
fn is_known(circuit: &Circuit, cone: &[bool], rail: Rail) -> bool
    requires { length cone.now ≡ net_count circuit.now }
    ensures { IsTrue result ↔ IsKnownRail circuit.now (marked cone.now) rail }
{
    prove_eq!(cone.len(), circuit.nets() as usize);
    if rail.dff >= circuit.dffs() {
        return false;
    }
    !rail.faulty || cone[circuit.dff_net(rail.dff).index()]
}

// Whether all rails of a cube are known.
fn is_known_cube(circuit: &Circuit, cone: &[bool], cube: &[Rail]) -> bool
    requires { length cone.now ≡ net_count circuit.now }
    ensures { IsTrue result ↔ All (IsKnownRail circuit.now (marked cone.now)) cube.now }
{
    for rail in cube {
        if !is_known(circuit, cone, *rail) {
            return false;
        }
    }
    true
}

/// Whether all rails of cubes are known.
pub(crate) fn are_known(circuit: &Circuit, cone: &[bool], cubes: &[Cube]) -> bool
    requires { length cone.now ≡ net_count circuit.now }
    ensures { IsTrue result ↔ All (All (IsKnownRail circuit.now (marked cone.now))) cubes.now }
{
    for cube in cubes {
        if !is_known_cube(circuit, cone, cube.as_slice()) {
            return false;
        }
    }
    true
}

// What a latch holds in a state, or unknown where there is none.
fn latch_value(state: &[Tern], dff: u32) -> Tern
    ensures { result ≡ get_or state.now dff Unk }
{
    let j = dff as usize;
    if j < state.len() {
        return state[j];
    }
    Tern::Unk
}

// Whether a value is definitely a bit.
fn is_bit(value: Tern, bit: bool) -> bool
    ensures { IsTrue result ↔ (value ≡ tern_of bit) }
{
    if bit {
        value == Tern::One
    } else {
        value == Tern::Zero
    }
}

// Whether a rail holds where both machines are in a state.
fn holds(state: &[Tern], rail: Rail) -> bool
    ensures { IsTrue result ↔ Holds (both state.now) rail }
{
    is_bit(latch_value(state, rail.dff), rail.value)
}

// Whether a state of both machines avoids a cube.
fn avoids(state: &[Tern], cube: &[Rail]) -> bool
    ensures { IsTrue result ↔ Avoids (both state.now) cube.now }
{
    for rail in cube {
        let held = holds(state, *rail);
        if !held {
            return true;
        }
    }
    false
}

// Whether a state of both machines avoids each cube.
fn avoids_all(state: &[Tern], cubes: &[Cube]) -> bool
    ensures { IsTrue result ↔ AvoidsAll (both state.now) cubes.now }
{
    for cube in cubes {
        if !avoids(state, cube.as_slice()) {
            return false;
        }
    }
    true
}

/// Whether cubes and steps refute a fault from a start, so that no list of vectors of any length detects it: from the
/// start, or from all-unknown. A start has a value for each flip-flop. The steps are gone through once, and each hint is
/// looked at once.
///
/// # Errors
/// Out of memory, or 2^32 or more that stands in clauses.
pub fn refuted(
    alloc: Global,
    circuit: &Circuit,
    fault: Fault,
    start: &[Tern],
    cubes: &[Cube],
    steps: &[ClauseStep],
) -> Result<bool, AllocError>
    requires { IsStart circuit.now start.now }
    ensures exact { IfOk result (λ yes. IsTrue yes
        ↔ RefutesByCubes circuit.now fault start.now cubes.now steps.now) }
    ensures sound { IfOk result (λ yes. IsTrue yes
        → IsUndetectable circuit.now fault start.now) }
{
    let marks = cone_of(alloc, circuit, fault)?;
    let cone = marks.as_slice();
    prove_eq!(cone.len(), circuit.nets() as usize);
    if !are_known(circuit, cone, cubes) {
        return Ok(false);
    }
    if !avoids_all(start, cubes) {
        return Ok(false);
    }
    if !ends_empty(steps) {
        return Ok(false);
    }
    let machines = Machines {
        circuit,
        fault,
        cone,
    };
    let mut formula = machines.build(alloc, cubes)?;
    if !are_within(formula.last, steps) {
        return Ok(false);
    }
    let passes = steps_pass(alloc, formula.last, &mut formula.clauses, steps)?;
    Ok(passes)
}
