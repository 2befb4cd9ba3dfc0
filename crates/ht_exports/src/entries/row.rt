//! Entries from rows of numbers: each list by its length and its members, each choice by its number from 0.
use crate::entries::pairs::single;
use ht_cubes::{ClauseStep, Cube, Rail, SignedVar};
use ht_items::Items;
use ht_net::Vectors;
use ht_pairs::PairSet;
use ht_tree::{Aim, Assign, Clause, Entry, FamilyRow, Literal, Spot, Token, Told};
use std::alloc::{AllocError, Global};

/// The rest of a row. A row that ends too early, or has a number that can't stand there, is answered as out of memory.
#[derive(Drop)]
pub struct Row<'r> {
    numbers: &'r [u64],
    at: usize,
}

impl<'r> Row<'r> {
    /// A row from its front on.
    pub fn new(numbers: &'r [u64]) -> Row<'r> {
        Row { numbers, at: 0 }
    }

    /// The next number.
    pub fn next(&mut self) -> Result<u64, AllocError> {
        if self.at >= self.numbers.len() {
            return Err(AllocError);
        }
        let number = self.numbers[self.at];
        self.at += 1;
        Ok(number)
    }

    /// The next number as one of 32 bits.
    pub fn next_u32(&mut self) -> Result<u32, AllocError> {
        let number = self.next()?;
        if number > u64::from(u32::MAX) {
            return Err(AllocError);
        }
        Ok(number as u32)
    }
}

// As many members as the next number says, each by an expression that takes it from the row.
macro_rules! take_list {
    ($alloc:ident, $row:ident, $take:expr) => {{
        let mut members = Vec::new($alloc);
        for _ in 0..$row.next()? {
            let member = $take;
            members.push(member)?;
        }
        Ok(Items::from_vec(members))
    }};
}

fn take_token(row: &mut Row) -> Result<Token, AllocError> {
    let kind = row.next()?;
    let var = row.next_u32()?;
    match kind {
        0 => Ok(Token::Two { var, first: false }),
        1 => Ok(Token::Two { var, first: true }),
        2 => Ok(Token::Three { var }),
        3 => Ok(Token::Dead),
        _ => Ok(Token::Before),
    }
}

fn take_tokens(alloc: Global, row: &mut Row) -> Result<Items<Token>, AllocError> {
    take_list!(alloc, row, take_token(row)?)
}

fn take_numbers(alloc: Global, row: &mut Row) -> Result<Items<u32>, AllocError> {
    take_list!(alloc, row, row.next_u32()?)
}

fn take_assign(row: &mut Row) -> Result<Assign, AllocError> {
    let var = row.next_u32()?;
    let value = row.next()? == 1;
    Ok(Assign { var, value })
}

fn take_sets(alloc: Global, row: &mut Row) -> Result<Items<Assign>, AllocError> {
    take_list!(alloc, row, take_assign(row)?)
}

fn take_told(alloc: Global, row: &mut Row) -> Result<Told, AllocError> {
    let kind = row.next()?;
    let index = row.next_u32()?;
    let place = if kind == 0 {
        Spot::Output(index)
    } else {
        Spot::State(index)
    };
    let sets = take_sets(alloc, row)?;
    Ok(Told { place, sets })
}

fn take_chain(alloc: Global, row: &mut Row) -> Result<Items<Told>, AllocError> {
    take_list!(alloc, row, take_told(alloc, row)?)
}

// The bits of a vector after its width.
fn take_bits(alloc: Global, row: &mut Row) -> Result<Items<bool>, AllocError> {
    take_list!(alloc, row, row.next()? == 1)
}

// Vectors of a width.
fn take_vectors(alloc: Global, row: &mut Row, width: u32) -> Result<Vectors, AllocError> {
    let mut vectors = Vectors::new(alloc, width);
    for _ in 0..row.next()? {
        let vector = take_bits(alloc, row)?;
        if vector.as_slice().len() != width as usize {
            return Err(AllocError);
        }
        vectors.push(vector.as_slice())?;
    }
    Ok(vectors)
}

fn take_attempt(alloc: Global, row: &mut Row) -> Result<Aim, AllocError> {
    let width = row.next_u32()?;
    let back = take_vectors(alloc, row, width)?;
    let ahead = take_vectors(alloc, row, width)?;
    Ok(Aim::Attempt { back, ahead })
}

fn take_aim(alloc: Global, row: &mut Row) -> Result<Option<Aim>, AllocError> {
    match row.next()? {
        0 => Ok(None),
        1 => Ok(Some(Aim::ForwardClosed(take_tokens(alloc, row)?))),
        2 => Ok(Some(Aim::ForwardOpen(take_tokens(alloc, row)?))),
        3 => Ok(Some(Aim::BackClosed(take_tokens(alloc, row)?))),
        4 => Ok(Some(Aim::BackOpen(take_tokens(alloc, row)?))),
        _ => Ok(Some(take_attempt(alloc, row)?)),
    }
}

fn take_walk(alloc: Global, row: &mut Row) -> Result<Option<Items<Token>>, AllocError> {
    match row.next()? {
        0 => Ok(None),
        _ => Ok(Some(take_tokens(alloc, row)?)),
    }
}

fn take_walks(alloc: Global, row: &mut Row) -> Result<Items<Items<Token>>, AllocError> {
    take_list!(alloc, row, take_tokens(alloc, row)?)
}

fn take_literal(row: &mut Row) -> Result<Literal, AllocError> {
    let dff = row.next_u32()?;
    let value = row.next()? == 1;
    Ok(Literal { dff, value })
}

fn take_clause(alloc: Global, row: &mut Row) -> Result<Clause, AllocError> {
    let first = take_literal(row)?;
    let second = match row.next()? {
        0 => None,
        _ => Some(take_literal(row)?),
    };
    let tokens = take_tokens(alloc, row)?;
    Ok(Clause {
        first,
        second,
        tokens,
    })
}

fn take_clauses(alloc: Global, row: &mut Row) -> Result<Items<Clause>, AllocError> {
    take_list!(alloc, row, take_clause(alloc, row)?)
}

// The flip-flops at which the states may differ, and the walk.
fn take_frame(alloc: Global, row: &mut Row) -> Result<(Items<u32>, Items<Token>), AllocError> {
    let z = take_numbers(alloc, row)?;
    let tokens = take_tokens(alloc, row)?;
    Ok((z, tokens))
}

fn take_untestable(alloc: Global, row: &mut Row) -> Result<Entry, AllocError> {
    let (z, tokens) = take_frame(alloc, row)?;
    Ok(Entry::Untestable { z, tokens })
}

fn take_untestable_from(alloc: Global, row: &mut Row) -> Result<Entry, AllocError> {
    let state = take_bits(alloc, row)?;
    let clauses = take_clauses(alloc, row)?;
    let (z, tokens) = take_frame(alloc, row)?;
    Ok(Entry::UntestableFrom {
        state,
        clauses,
        z,
        tokens,
    })
}

fn take_aborted(alloc: Global, row: &mut Row) -> Result<Entry, AllocError> {
    let told = take_chain(alloc, row)?;
    let walk = take_walk(alloc, row)?;
    let aim = take_aim(alloc, row)?;
    let sweep = take_walks(alloc, row)?;
    Ok(Entry::Aborted {
        told,
        walk,
        aim,
        sweep,
    })
}

// A set, by how many members it has, at least one, and their numbers.
fn take_set(row: &mut Row) -> Result<PairSet, AllocError> {
    let count = row.next()?;
    if count == 0 {
        return Err(AllocError);
    }
    let mut set = single(row.next()?);
    for _ in 1..count {
        let pair = row.next()?;
        set = set.join(single(pair));
    }
    Ok(set)
}

fn take_family_row(row: &mut Row) -> Result<FamilyRow, AllocError> {
    let dff = row.next_u32()?;
    let set = take_set(row)?;
    Ok(FamilyRow { dff, set })
}

fn take_rows(alloc: Global, row: &mut Row) -> Result<Items<FamilyRow>, AllocError> {
    take_list!(alloc, row, take_family_row(row)?)
}

fn take_by_sets(alloc: Global, row: &mut Row) -> Result<Entry, AllocError> {
    let rows = take_rows(alloc, row)?;
    Ok(Entry::UndetectableBySets { rows })
}

fn take_rail(row: &mut Row) -> Result<Rail, AllocError> {
    let faulty = row.next()? == 1;
    let dff = row.next_u32()?;
    let value = row.next()? == 1;
    Ok(Rail { faulty, dff, value })
}

fn take_cube(alloc: Global, row: &mut Row) -> Result<Cube, AllocError> {
    take_list!(alloc, row, take_rail(row)?)
}

fn take_cubes(alloc: Global, row: &mut Row) -> Result<Items<Cube>, AllocError> {
    take_list!(alloc, row, take_cube(alloc, row)?)
}

// A signed variable, by its value and its number.
fn take_signed_var(row: &mut Row) -> Result<SignedVar, AllocError> {
    let value = row.next()? == 1;
    let variable = row.next_u32()?;
    Ok(SignedVar { variable, value })
}

fn take_signed(alloc: Global, row: &mut Row) -> Result<Items<SignedVar>, AllocError> {
    take_list!(alloc, row, take_signed_var(row)?)
}

fn take_step(alloc: Global, row: &mut Row) -> Result<ClauseStep, AllocError> {
    let literals = take_signed(alloc, row)?;
    let hints = take_numbers(alloc, row)?;
    Ok(ClauseStep { literals, hints })
}

fn take_steps(alloc: Global, row: &mut Row) -> Result<Items<ClauseStep>, AllocError> {
    take_list!(alloc, row, take_step(alloc, row)?)
}

fn take_by_cubes(alloc: Global, row: &mut Row) -> Result<Entry, AllocError> {
    let cubes = take_cubes(alloc, row)?;
    let steps = take_steps(alloc, row)?;
    Ok(Entry::UndetectableByCubes { cubes, steps })
}

/// The next entry of a row.
pub fn take_entry(alloc: Global, row: &mut Row) -> Result<Entry, AllocError> {
    match row.next()? {
        0 => take_untestable(alloc, row),
        1 => take_aborted(alloc, row),
        2 => take_untestable_from(alloc, row),
        3 => take_by_sets(alloc, row),
        _ => take_by_cubes(alloc, row),
    }
}
