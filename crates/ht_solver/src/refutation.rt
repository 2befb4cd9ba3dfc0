//! The lemmas that a refutation needs.
use crate::log::Lemma;
use std::alloc::{AllocError, Global};

fn mark_all(marks: &mut Vec<bool>, numbers: &[u32]) {
    for number in numbers {
        if let Some(mark) = marks.get_mut(*number as usize) {
            *mark = true;
        }
    }
}

fn is_marked(marks: &[bool], number: u32) -> bool {
    marks.get(number as usize).copied().unwrap_or(false)
}

// By number: whether the last lemma needs that clause.
fn needed_numbers(alloc: Global, lemmas: &[Lemma]) -> Result<Vec<bool>, AllocError> {
    let Some(last) = lemmas.last() else {
        return Ok(Vec::new(alloc));
    };
    let mut marks = vec![in alloc; false; last.number as usize + 1]?;
    mark_all(&mut marks, &[last.number]);
    for lemma in lemmas.iter().rev() {
        if is_marked(&marks, lemma.number) {
            mark_all(&mut marks, &lemma.hints);
        }
    }
    Ok(marks)
}

// By number: whether it is a lemma's.
fn lemma_numbers(alloc: Global, lemmas: &[Lemma], count: usize) -> Result<Vec<bool>, AllocError> {
    let mut is_lemma = vec![in alloc; false; count]?;
    for lemma in lemmas {
        mark_all(&mut is_lemma, &[lemma.number]);
    }
    Ok(is_lemma)
}

// By number: how many given clauses there are up to it, which is the number of a given clause without the lemmas.
fn given_numbers(alloc: Global, is_lemma: &[bool]) -> Result<Vec<u32>, AllocError> {
    let mut numbers = Vec::with_capacity(alloc, is_lemma.len())?;
    let mut given = 0u32;
    for (number, is_lemma) in is_lemma.iter().enumerate() {
        if number > 0 && !*is_lemma {
            given = given.saturating_add(1);
        }
        numbers.push(given)?;
    }
    Ok(numbers)
}

fn renumbered(alloc: Global, numbers: &[u32], hints: &[u32]) -> Result<Vec<u32>, AllocError> {
    let mut renumbered = Vec::with_capacity(alloc, hints.len())?;
    for hint in hints {
        renumbered.push(numbers.get(*hint as usize).copied().unwrap_or(0))?;
    }
    Ok(renumbered)
}

/// The lemmas that the last one needs, in order, and that one, with numbers as if all `given` clauses had come before
/// them: the given clauses have 1 to `given` in their order, and the lemmas follow.
///
/// # Errors
/// Out of memory.
pub fn needed(alloc: Global, lemmas: &[Lemma], given: u32) -> Result<Vec<Lemma>, AllocError> {
    let marks = needed_numbers(alloc, lemmas)?;
    let is_lemma = lemma_numbers(alloc, lemmas, marks.len())?;
    let mut numbers = given_numbers(alloc, &is_lemma)?;
    let mut kept = Vec::new(alloc);
    let mut last = given;
    for lemma in lemmas {
        if !is_marked(&marks, lemma.number) {
            continue;
        }
        last = last.saturating_add(1);
        let hints = renumbered(alloc, &numbers, &lemma.hints)?;
        if let Some(number) = numbers.get_mut(lemma.number as usize) {
            *number = last;
        }
        kept.push(Lemma {
            number: last,
            literals: lemma.literals.clone()?,
            hints,
        })?;
    }
    Ok(kept)
}
