//! The search, and what becomes of what it finds.
ghost use Rattle.std.specs.Prelude.{◌≡◌, IfOk};
ghost use Rattle.ht_net.specs.Detect.Detection.{IsStart};
ghost use Rattle.ht_solver.specs.Efforts.{IsNoMore};
ghost use Rattle.ht_close.specs.ClosedFaults.{ClosedHolds};

use crate::closed::Closed;
use crate::judge::{judge_cubes, judge_list};
use crate::shared::Shared;
use crate::steps::{Refutation, write_refutation};
use ht_cubes::{Cube, Rail, Rails};
use ht_items::Items;
use ht_net::{Circuit, Fault, unknown_start};
use ht_rails::{LatchRails, problem_of};
use ht_reach::{Cube as Forbidden, Problem, Reached, decide_reachability};
use ht_solver::Effort;
use ht_tern::Tern;
use std::alloc::{AllocError, Global};

// What a search found, in the words of an entry.
#[derive(Drop)]
enum Found {
    Refuted(Refutation),
    Detected(Vec<Vec<bool>>),
    Nothing,
}

// A cube that no state meets: a flip-flop holds both values. An entry has a cube at least, also where no output of the
// cone can differ.
fn no_state(alloc: Global) -> Result<Cube, AllocError> {
    let mut cube = Items::new(alloc);
    for value in [false, true] {
        cube.push(Rail {
            faulty: false,
            dff: 0,
            value,
        })?;
    }
    Ok(cube)
}

// The cubes of a search as cubes of an entry.
fn entry_cubes(
    alloc: Global,
    latches: &LatchRails,
    forbidden: &[Forbidden],
) -> Result<Vec<Cube>, AllocError> {
    let mut cubes = Vec::with_capacity(alloc, forbidden.len())?;
    for cube in forbidden {
        cubes.push(latches.cube(alloc, cube)?)?;
    }
    if cubes.is_empty() {
        cubes.push(no_state(alloc)?)?;
    }
    Ok(cubes)
}

// The steps of the cubes that a search found.
fn found_cubes(
    alloc: Global,
    rails: &Rails<'_>,
    problem: &Problem,
    cubes: Vec<Cube>,
    left: &mut Effort,
) -> Result<Found, AllocError>
    ensures { IsNoMore left.new left.old }
{
    match write_refutation(alloc, rails, problem, cubes, left)? {
        Some(refutation) => Ok(Found::Refuted(refutation)),
        None => Ok(Found::Nothing),
    }
}

// A cube of an earlier fault is tried for each so many propagations that are left: with a small effort the search needs
// most of it for itself.
const PROPAGATIONS_A_CANDIDATE: u64 = 1000;

// How many cubes of earlier faults are tried.
fn most_candidates(left: Effort) -> usize {
    let most = left.propagations / PROPAGATIONS_A_CANDIDATE;
    usize::try_from(most).unwrap_or(usize::MAX)
}

// Searches from a start.
fn find(
    alloc: Global,
    circuit: &Circuit,
    fault: Fault,
    start: &[Tern],
    shared: &Shared,
    left: &mut Effort,
) -> Result<Found, AllocError>
    ensures { IsNoMore left.new left.old }
{
    let rails = Rails::new(alloc, circuit, fault)?;
    let latches = LatchRails::new(alloc, &rails)?;
    let problem = problem_of(alloc, &rails, &latches, &shared.costs, start)?;
    let candidates = shared.pool.candidates(&rails, most_candidates(*left))?;
    match decide_reachability(alloc, &problem, &candidates, left)? {
        Reached::GivenUp => Ok(Found::Nothing),
        Reached::Detected(vectors) => Ok(Found::Detected(vectors)),
        Reached::Refuted(forbidden) => {
            let cubes = entry_cubes(alloc, &latches, &forbidden)?;
            found_cubes(alloc, &rails, &problem, cubes, left)
        }
    }
}

// Whether something is known of a start.
fn is_stated(start: &[Tern]) -> bool {
    start.iter().any(|value| *value != Tern::Unk)
}

// Searches for vectors from all-unknown.
fn find_list(
    alloc: Global,
    circuit: &Circuit,
    fault: Fault,
    start: &[Tern],
    shared: &Shared,
    left: &mut Effort,
) -> Result<Closed, AllocError>
    ensures holds { IfOk result (ClosedHolds circuit.now fault start.now) }
    ensures spent { IsNoMore left.new left.old }
{
    let unknown = unknown_start(alloc, circuit)?;
    match find(alloc, circuit, fault, &unknown, shared, left)? {
        Found::Detected(vectors) => judge_list(alloc, circuit, fault, start, &vectors),
        _ => Ok(Closed::Open),
    }
}

// What a search from the start comes to. Vectors that detect the fault from there alone are no answer: they are then
// looked for from all-unknown.
fn decide(
    alloc: Global,
    circuit: &Circuit,
    fault: Fault,
    start: &[Tern],
    shared: &Shared,
    left: &mut Effort,
) -> Result<Closed, AllocError>
    requires { IsStart circuit.now start.now }
    ensures holds { IfOk result (ClosedHolds circuit.now fault start.now) }
    ensures spent { IsNoMore left.new left.old }
{
    match find(alloc, circuit, fault, start, shared, left)? {
        Found::Nothing => Ok(Closed::Open),
        Found::Refuted(refutation) => judge_cubes(alloc, circuit, fault, start, refutation),
        Found::Detected(vectors) => {
            let closed = judge_list(alloc, circuit, fault, start, &vectors)?;
            match closed {
                Closed::Open if is_stated(start) => {
                    find_list(alloc, circuit, fault, start, shared, left)
                }
                _ => Ok(closed),
            }
        }
    }
}

/// Closes a fault, if it can: cubes and steps that refute it from the start, or a list that detects it from
/// all-unknown, each judged before it is said. Searches and steps spend no more than what is left, and take it from
/// that; what they build, and the judging, isn't counted. The cubes of a refutation join the pool.
///
/// # Errors
/// Out of memory, or 2^32 or more that stands in clauses.
pub fn close(
    alloc: Global,
    circuit: &Circuit,
    fault: Fault,
    start: &[Tern],
    shared: &mut Shared,
    left: &mut Effort,
) -> Result<Closed, AllocError>
    requires { IsStart circuit.now start.now }
    ensures holds { IfOk result (ClosedHolds circuit.now fault start.now) }
    ensures spent { IsNoMore left.new left.old }
{
    let closed = decide(alloc, circuit, fault, start, shared, left)?;
    if let Closed::Refuted { cubes, .. } = &closed {
        shared.pool.add(cubes.as_slice())?;
    }
    Ok(closed)
}
