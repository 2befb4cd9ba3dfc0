//! Entries as rows of numbers: each list by its length and its members, each choice by its number from 0.
use crate::entries::pairs::{count, holds};
use ht_cubes::{ClauseStep, Cube, Rail, SignedVar};
use ht_items::Items;
use ht_net::Vectors;
use ht_pairs::PairSet;
use ht_tree::{Aim, Assign, Clause, Entry, FamilyRow, Literal, Spot, Token, Told};
use std::alloc::AllocError;

// A list's length, and its numbers.
fn push_numbers(row: &mut Vec<u64>, numbers: &[u32]) -> Result<(), AllocError> {
    row.push(numbers.len() as u64)?;
    for number in numbers {
        row.push(u64::from(*number))?;
    }
    Ok(())
}

// A token: its kind in the order `lo`, `hi`, `x`, `dead`, `before`, and its variable or 0.
fn push_token(row: &mut Vec<u64>, token: Token) -> Result<(), AllocError> {
    let (kind, var) = match token {
        Token::Two { var, first } => (u64::from(first), var),
        Token::Three { var } => (2, var),
        Token::Dead => (3, 0),
        Token::Before => (4, 0),
    };
    row.push(kind)?;
    row.push(u64::from(var))?;
    Ok(())
}

fn push_tokens(row: &mut Vec<u64>, tokens: &[Token]) -> Result<(), AllocError> {
    row.push(tokens.len() as u64)?;
    for token in tokens {
        push_token(row, *token)?;
    }
    Ok(())
}

fn push_sets(row: &mut Vec<u64>, sets: &[Assign]) -> Result<(), AllocError> {
    row.push(sets.len() as u64)?;
    for set in sets {
        row.push(u64::from(set.var))?;
        row.push(u64::from(set.value))?;
    }
    Ok(())
}

fn push_told(row: &mut Vec<u64>, told: &Told) -> Result<(), AllocError> {
    let (kind, index) = match told.place {
        Spot::Output(output) => (0, output),
        Spot::State(dff) => (1, dff),
        Spot::Cube => (2, 0),
    };
    row.push(kind)?;
    row.push(u64::from(index))?;
    push_sets(row, told.sets.as_slice())
}

fn push_chain(row: &mut Vec<u64>, chain: &[Told]) -> Result<(), AllocError> {
    row.push(chain.len() as u64)?;
    for told in chain {
        push_told(row, told)?;
    }
    Ok(())
}

fn push_bits(row: &mut Vec<u64>, bits: &[bool]) -> Result<(), AllocError> {
    row.push(bits.len() as u64)?;
    for bit in bits {
        row.push(u64::from(*bit))?;
    }
    Ok(())
}

fn push_vectors(row: &mut Vec<u64>, vectors: &Vectors) -> Result<(), AllocError> {
    row.push(vectors.len())?;
    for t in 0..vectors.len() {
        push_bits(row, vectors.get(t))?;
    }
    Ok(())
}

// 0 where there is no aim, and else its kind from 1.
fn push_aim(row: &mut Vec<u64>, aim: &Option<Aim>) -> Result<(), AllocError> {
    match aim {
        None => {
            row.push(0)?;
            Ok(())
        }
        Some(Aim::ForwardClosed(tokens)) => push_search(row, 1, tokens.as_slice()),
        Some(Aim::ForwardOpen(tokens)) => push_search(row, 2, tokens.as_slice()),
        Some(Aim::BackClosed(tokens)) => push_search(row, 3, tokens.as_slice()),
        Some(Aim::BackOpen(tokens)) => push_search(row, 4, tokens.as_slice()),
        Some(Aim::Attempt { back, ahead }) => {
            row.push(5)?;
            push_vectors(row, back)?;
            push_vectors(row, ahead)
        }
    }
}

fn push_search(row: &mut Vec<u64>, kind: u64, tokens: &[Token]) -> Result<(), AllocError> {
    row.push(kind)?;
    push_tokens(row, tokens)
}

fn push_walk(row: &mut Vec<u64>, walk: &Option<Items<Token>>) -> Result<(), AllocError> {
    match walk {
        None => {
            row.push(0)?;
            Ok(())
        }
        Some(tokens) => push_search(row, 1, tokens.as_slice()),
    }
}

fn push_walks(row: &mut Vec<u64>, walks: &[Items<Token>]) -> Result<(), AllocError> {
    row.push(walks.len() as u64)?;
    for tokens in walks {
        push_tokens(row, tokens.as_slice())?;
    }
    Ok(())
}

fn push_literal(row: &mut Vec<u64>, literal: Literal) -> Result<(), AllocError> {
    row.push(u64::from(literal.dff))?;
    row.push(u64::from(literal.value))?;
    Ok(())
}

// A clause: how many literals it has after the first, and these; and its tokens.
fn push_clause(row: &mut Vec<u64>, clause: &Clause) -> Result<(), AllocError> {
    push_literal(row, clause.first)?;
    match clause.second {
        None => row.push(0)?,
        Some(literal) => {
            row.push(1)?;
            push_literal(row, literal)?;
        }
    }
    push_tokens(row, clause.tokens.as_slice())
}

fn push_clauses(row: &mut Vec<u64>, clauses: &[Clause]) -> Result<(), AllocError> {
    row.push(clauses.len() as u64)?;
    for clause in clauses {
        push_clause(row, clause)?;
    }
    Ok(())
}

// A set: how many members it has, and their numbers.
fn push_set(row: &mut Vec<u64>, set: PairSet) -> Result<(), AllocError> {
    row.push(count(set))?;
    for pair in 0..9 {
        if holds(set, pair) {
            row.push(pair)?;
        }
    }
    Ok(())
}

fn push_rows(row: &mut Vec<u64>, rows: &[FamilyRow]) -> Result<(), AllocError> {
    row.push(rows.len() as u64)?;
    for held in rows {
        row.push(u64::from(held.dff))?;
        push_set(row, held.set)?;
    }
    Ok(())
}

fn push_cube(row: &mut Vec<u64>, cube: &[Rail]) -> Result<(), AllocError> {
    row.push(cube.len() as u64)?;
    for rail in cube {
        row.push(u64::from(rail.faulty))?;
        row.push(u64::from(rail.dff))?;
        row.push(u64::from(rail.value))?;
    }
    Ok(())
}

fn push_cubes(row: &mut Vec<u64>, cubes: &[Cube]) -> Result<(), AllocError> {
    row.push(cubes.len() as u64)?;
    for cube in cubes {
        push_cube(row, cube.as_slice())?;
    }
    Ok(())
}

fn push_step(row: &mut Vec<u64>, step: &ClauseStep) -> Result<(), AllocError> {
    row.push(step.literals.as_slice().len() as u64)?;
    for literal in step.literals.as_slice() {
        row.push(u64::from(literal.value))?;
        row.push(u64::from(literal.variable))?;
    }
    push_numbers(row, step.hints.as_slice())
}

fn push_steps(row: &mut Vec<u64>, steps: &[ClauseStep]) -> Result<(), AllocError> {
    row.push(steps.len() as u64)?;
    for step in steps {
        push_step(row, step)?;
    }
    Ok(())
}

// The flip-flops at which the states may differ, and the walk.
fn push_frame(row: &mut Vec<u64>, z: &[u32], tokens: &[Token]) -> Result<(), AllocError> {
    push_numbers(row, z)?;
    push_tokens(row, tokens)
}

/// Appends the numbers of an entry: 0 and an untestable one, 1 and an aborted one, 2 and an untestable one from a state,
/// 3 and an undetectable one by sets, or 4 and one by cubes.
pub fn push_entry(row: &mut Vec<u64>, entry: &Entry) -> Result<(), AllocError> {
    match entry {
        Entry::Untestable { z, tokens } => {
            row.push(0)?;
            push_frame(row, z.as_slice(), tokens.as_slice())
        }
        Entry::UntestableFrom {
            state,
            clauses,
            z,
            tokens,
        } => {
            row.push(2)?;
            push_bits(row, state.as_slice())?;
            push_clauses(row, clauses.as_slice())?;
            push_frame(row, z.as_slice(), tokens.as_slice())
        }
        Entry::UndetectableBySets { rows } => {
            row.push(3)?;
            push_rows(row, rows.as_slice())
        }
        Entry::UndetectableByCubes { cubes, steps } => {
            row.push(4)?;
            push_cubes(row, cubes.as_slice())?;
            push_steps(row, steps.as_slice())
        }
        Entry::Aborted {
            told,
            walk,
            aim,
            sweep,
        } => {
            row.push(1)?;
            push_chain(row, told.as_slice())?;
            push_walk(row, walk)?;
            push_aim(row, aim)?;
            push_walks(row, sweep.as_slice())
        }
    }
}

/// Appends 0 and the number of a malformed line, or 0 where there is none.
pub fn push_end(row: &mut Vec<u64>, line: u64) -> Result<(), AllocError> {
    row.push(0)?;
    row.push(line)?;
    Ok(())
}
