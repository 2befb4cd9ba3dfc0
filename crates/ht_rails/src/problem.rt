//! The problem of a fault.
ghost use Rattle.std.specs.Prelude.{◌<◌, length};

use crate::clauses::all_literals;
use crate::costs::{Cost, Costs};
use crate::latch_rails::{LatchRails, write};
use ht_cubes::{Rail, Rails, Signal, SignedVar};
use ht_net::NetId;
use ht_reach::{Difference, InputBit, Problem, Source};
use ht_tern::Tern;
use std::alloc::{AllocError, Global};

// What makes a signed variable true: variable 0 is the constant true.
fn source_of(signed: SignedVar) -> Source {
    match (signed.variable, signed.value) {
        (0, true) => Source::Always,
        (0, false) => Source::Never,
        (variable, _) => Source::Variable(variable),
    }
}

// Whether a start has a rail.
fn has_rail(start: &[Tern], rail: Rail) -> bool {
    match start.get(rail.dff as usize) {
        Some(value) => *value == Tern::from(rail.value),
        None => false,
    }
}

// The variables of the rails, with the numbers that they have in the formula; no rail is 0.
fn add_variables(problem: &mut Problem, rails: &Rails<'_>) -> Result<(), AllocError> {
    for _variable in 0..=rails.last_variable() {
        problem.add_variable(0)?;
    }
    Ok(())
}

// What the rails of a line cost.
fn add_cost(problem: &mut Problem, line: Signal, cost: Cost) {
    write(&mut problem.costs, line.zero.variable, cost.zero);
    write(&mut problem.costs, line.one.variable, cost.one);
}

// What the rails of all nets cost.
fn add_costs(problem: &mut Problem, rails: &Rails<'_>, costs: &Costs) {
    let circuit = rails.circuit();
    for x in 0..circuit.nets() {
        let cost = costs.of(NetId(x));
        add_cost(problem, rails.driver(false, x), cost);
        add_cost(problem, rails.driver(true, x), cost);
    }
}

// The input and the bit that a variable says.
fn add_input(problem: &mut Problem, signed: SignedVar, input: u32, value: bool) {
    let bit = InputBit { input, value };
    write(&mut problem.inputs, signed.variable, Some(bit));
}

// Which variables are inputs: those of the good machine, since loads of a stuck input see the stuck value.
fn add_inputs(problem: &mut Problem, rails: &Rails<'_>) {
    let circuit = rails.circuit();
    for input in 0..circuit.inputs() {
        let driver = rails.driver(false, input);
        add_input(problem, driver.zero, input, false);
        add_input(problem, driver.one, input, true);
    }
}

// Which variables are rails of latches: what makes them hold after the frame, and whether they do at the start.
fn add_latches(problem: &mut Problem, rails: &Rails<'_>, latches: &LatchRails, start: &[Tern]) {
    let circuit = rails.circuit();
    for variable in 0..=rails.last_variable() {
        if let Some(rail) = latches.rail(variable)
            && rail.dff < circuit.dffs()
        {
            let source = source_of(rails.next(rail));
            write(&mut problem.next, variable, Some(source));
            write(&mut problem.initial, variable, has_rail(start, rail));
        }
    }
}

// How outputs may differ.
fn add_differences(
    alloc: Global,
    problem: &mut Problem,
    rails: &Rails<'_>,
) -> Result<(), AllocError> {
    let rows = rails.differences(alloc)?;
    for i in 0..rows.len() {
        if let [good, faulty] = rows.row(i) {
            problem.differences.push(Difference {
                good: source_of(*good),
                faulty: source_of(*faulty),
            })?;
        }
    }
    Ok(())
}

/// The problem of reaching a difference at an output from a start: the variables are the rails by the numbers of the
/// formula, the clauses those of its frame, and a vector has a bit for each input.
///
/// # Errors
/// Out of memory, or 2^32 or more that stands in clauses.
pub fn problem_of(
    alloc: Global,
    rails: &Rails<'_>,
    latches: &LatchRails,
    costs: &Costs,
    start: &[Tern],
) -> Result<Problem, AllocError> {
    let mut problem = Problem::new(alloc, rails.circuit().inputs() as usize);
    add_variables(&mut problem, rails)?;
    add_costs(&mut problem, rails, costs);
    add_inputs(&mut problem, rails);
    add_latches(&mut problem, rails, latches, start);
    add_differences(alloc, &mut problem, rails)?;
    problem.clauses = all_literals(alloc, &rails.frame(alloc)?)?;
    Ok(problem)
}
