//! Tests of the solver over formulas by hand: one with a solution, and one that is refuted.
//!
//! A formula is a text: a clause a line, a variable as its number, its opposite as the negative number.
use ht_solver::{Answer, Effort, Lemma, Literal, Solver, Value, needed};
use std::alloc::{AllocError, Global};
use std::test::Fail;

// Where 1 is true 2 or 3 is, and 2 asks for 4; 4 is false where 5 is true.
const SUPPORTS: &str = "-1 2 3\n-2 4\n-4 -5\n";

// Three birds don't fit into two nests: bird i is in the first nest (2i - 1) or in the second one (2i).
const BIRDS: &str = "1 2\n3 4\n5 6\n-1 -3\n-1 -5\n-3 -5\n-2 -4\n-2 -6\n-4 -6\n";

const BUDGET: Effort = Effort {
    conflicts: 1000,
    propagations: 1000,
};

fn literal_of(word: &str) -> Option<Literal> {
    let number = word.parse::<i32>().ok()?;
    Literal::new(number.unsigned_abs(), number > 0)
}

fn clause_of(alloc: Global, line: &str) -> Result<Vec<Literal>, AllocError> {
    let mut clause = Vec::new(alloc);
    for word in line.split_ascii_whitespace() {
        if let Some(literal) = literal_of(word) {
            clause.push(literal)?;
        }
    }
    Ok(clause)
}

fn clauses_of(alloc: Global, text: &str) -> Result<Vec<Vec<Literal>>, AllocError> {
    let mut clauses = Vec::new(alloc);
    for line in text.lines() {
        clauses.push(clause_of(alloc, line)?)?;
    }
    Ok(clauses)
}

// Adds variables 0 to 6, of which a later one costs more.
fn add_variables(solver: &mut Solver) -> Result<(), AllocError> {
    for cost in 0..7 {
        solver.add_variable(cost)?;
    }
    Ok(())
}

fn add_formula(solver: &mut Solver, clauses: &[Vec<Literal>]) -> Result<(), AllocError> {
    add_variables(solver)?;
    for clause in clauses {
        solver.add_support(clause)?;
    }
    Ok(())
}

// What the solver says under assumptions, and of 2 and 3 after that.
fn said(solver: &mut Solver, assumptions: &[Literal]) -> Result<[Option<bool>; 3], AllocError> {
    let is_met = match solver.solve(assumptions, BUDGET)? {
        Answer::Satisfiable => Some(true),
        Answer::Unsatisfiable(core) => {
            if core.len() < assumptions.len() {
                Some(false)
            } else {
                None
            }
        }
        Answer::GivenUp => None,
    };
    Ok([is_met, value_of(solver, "2"), value_of(solver, "3")])
}

fn value_of(solver: &Solver, word: &str) -> Option<bool> {
    match solver.value(literal_of(word)?) {
        Value::Open => None,
        Value::True => Some(true),
        Value::False => Some(false),
    }
}

// Whether 1 is supported by 2, which is cheaper, and by 3 where 5 keeps 2 from it; 2 and 5 are never both true.
fn is_supported(alloc: Global) -> Result<bool, AllocError> {
    let clauses = clauses_of(alloc, SUPPORTS)?;
    let mut solver = Solver::new(alloc, false);
    add_formula(&mut solver, &clauses)?;
    let one = clause_of(alloc, "1")?;
    let one_and_five = clause_of(alloc, "1 5")?;
    let three_two_five = clause_of(alloc, "3 2 5")?;
    Ok(
        said(&mut solver, &one)? == [Some(true), Some(true), None]
            && said(&mut solver, &one_and_five)? == [Some(true), Some(false), Some(true)]
            && said(&mut solver, &three_two_five)?[0] == Some(false),
    )
}

// What a hint leaves of a clause where these literals are false: the open literals.
fn open_in(
    alloc: Global,
    clause: &[Literal],
    falses: &[Literal],
) -> Result<Vec<Literal>, AllocError> {
    let mut open = Vec::new(alloc);
    for literal in clause {
        if !falses.contains(literal) {
            open.push(*literal)?;
        }
    }
    Ok(open)
}

// Whether a lemma follows by its hints, as a checker of LRAT steps has it.
fn follows(alloc: Global, clauses: &[Vec<Literal>], lemma: &Lemma) -> Result<bool, AllocError> {
    let mut falses = lemma.literals.clone()?;
    for hint in &lemma.hints {
        let Some(clause) = clauses.get((*hint as usize).wrapping_sub(1)) else {
            return Ok(false);
        };
        let open = open_in(alloc, clause, &falses)?;
        match open.first() {
            None => return Ok(true),
            Some(literal) => falses.push(literal.opposite())?,
        }
        if open.len() > 1 {
            return Ok(false);
        }
    }
    Ok(false)
}

// Whether each lemma follows from the clauses and those before it, and the last one is empty.
fn refute(
    alloc: Global,
    clauses: &mut Vec<Vec<Literal>>,
    lemmas: &[Lemma],
) -> Result<bool, AllocError> {
    let mut is_empty = false;
    for lemma in lemmas {
        if !follows(alloc, clauses, lemma)? {
            return Ok(false);
        }
        clauses.push(lemma.literals.clone()?)?;
        is_empty = lemma.literals.is_empty() && lemma.number as usize == clauses.len();
    }
    Ok(is_empty)
}

// Whether the birds have no solution, and the lemmas that are needed refute them by their hints.
fn is_refuted(alloc: Global) -> Result<bool, AllocError> {
    let mut clauses = clauses_of(alloc, BIRDS)?;
    let mut solver = Solver::new(alloc, true);
    add_formula(&mut solver, &clauses)?;
    let is_unsatisfiable = matches!(solver.solve(&[], BUDGET)?, Answer::Unsatisfiable(_));
    let lemmas = needed(alloc, solver.lemmas(), 9)?;
    Ok(is_unsatisfiable && refute(alloc, &mut clauses, &lemmas)?)
}

#[test]
fn a_solver_supports_and_refutes(rt: HostRuntime) -> Result<(), Fail> {
    assert!(rt; is_supported(rt.alloc())?, "supports");
    assert!(rt; is_refuted(rt.alloc())?, "birds");
    Ok(())
}
