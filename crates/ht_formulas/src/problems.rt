//! Tests of the search over a problem by hand: one that is detected, and one that is refuted.
use ht_reach::{Cube, Difference, InputBit, Problem, Reached, Source, decide_reachability};
use ht_solver::{Effort, Literal};
use std::alloc::{AllocError, Global};
use std::test::Fail;

// Adds a rail of the input, or of a latch.
fn add_rail(
    problem: &mut Problem,
    input: Option<InputBit>,
    next: Option<Source>,
) -> Result<(), AllocError> {
    problem.costs.push(1)?;
    problem.inputs.push(input)?;
    problem.next.push(next)?;
    problem.initial.push(false)?;
    Ok(())
}

// One input and one latch that takes it. Variables 0 and 1 say that the input is 0 and 1, 2 that the good latch holds 1,
// and 3 that the faulty one holds 0, as it does where its input is `stuck`. Where 2 and 3 are true an output differs.
fn add_latch(alloc: Global, problem: &mut Problem, is_stuck: bool) -> Result<(), AllocError> {
    let faulty = if is_stuck {
        Source::Always
    } else {
        Source::Variable(0)
    };
    for value in [false, true] {
        add_rail(problem, Some(InputBit { input: 0, value }), None)?;
    }
    add_rail(problem, None, Some(Source::Variable(1)))?;
    add_rail(problem, None, Some(faulty))?;
    problem.differences.push(Difference {
        good: Source::Variable(2),
        faulty: Source::Variable(3),
    })?;
    problem.clauses.push(never_both(alloc)?)?;
    Ok(())
}

// The input isn't 0 and 1 at once.
fn never_both(alloc: Global) -> Result<Vec<Literal>, AllocError> {
    let mut clause = Vec::new(alloc);
    for variable in [0, 1] {
        if let Some(literal) = Literal::new(variable, false) {
            clause.push(literal)?;
        }
    }
    Ok(clause)
}

// What the search of a problem comes to, within so many propagations: 1 for the vectors 1, 0, and 2 for the cube of both
// rails.
fn reached(alloc: Global, problem: &Problem, pool: &[Cube], most: u64) -> Result<u8, AllocError> {
    let mut left = Effort {
        conflicts: 100,
        propagations: most,
    };
    match decide_reachability(alloc, problem, pool, &mut left)? {
        Reached::Detected(vectors) => Ok(is_one_zero(&vectors).into()),
        Reached::Refuted(cubes) => Ok(if is_both(&cubes) { 2 } else { 0 }),
        Reached::GivenUp => Ok(3),
    }
}

fn is_one_zero(vectors: &[Vec<bool>]) -> bool {
    match vectors {
        [first, second] => {
            first.as_slice() == [true].as_slice() && second.as_slice() == [false].as_slice()
        }
        _ => false,
    }
}

fn is_both(cubes: &[Cube]) -> bool {
    match cubes {
        [cube] => cube.variables() == [2, 3].as_slice(),
        _ => false,
    }
}

// Whether the stuck latch is detected, by two vectors, unless nothing may be spent.
fn is_detected(alloc: Global) -> Result<bool, AllocError> {
    let mut problem = Problem::new(alloc, 1);
    add_latch(alloc, &mut problem, true)?;
    Ok(reached(alloc, &problem, &[], 100)? == 1 && reached(alloc, &problem, &[], 0)? == 3)
}

// Whether the latch without a fault never differs: by a search, and for less by the cube where a pool has it.
fn is_never_reached(alloc: Global) -> Result<bool, AllocError> {
    let mut problem = Problem::new(alloc, 1);
    add_latch(alloc, &mut problem, false)?;
    let pool = pool_of_both(alloc)?;
    Ok(
        reached(alloc, &problem, &[], 100)? == 2
            && reached(alloc, &problem, &[], 20)? == 3
            && reached(alloc, &problem, &pool, 20)? == 2,
    )
}

fn pool_of_both(alloc: Global) -> Result<Vec<Cube>, AllocError> {
    let mut pool = Vec::new(alloc);
    pool.push(Cube::new(Vec::from_slice(alloc, &[3, 2])?))?;
    Ok(pool)
}

#[test]
fn a_difference_is_reached_or_refuted(rt: HostRuntime) -> Result<(), Fail> {
    assert!(rt; is_detected(rt.alloc())?, "detected");
    assert!(rt; is_never_reached(rt.alloc())?, "refuted");
    Ok(())
}
