//! Which faults are to be worked on.
ghost use Rattle.std.specs.Prelude.{◌≡◌, ◌⊎◌, ◌↔◌, ℕ, true, false, length, get_or, IfOk};
ghost use Rattle.ht_engine.specs.Marks.{AreMarks, AreListedNumbers, MarksAny};
ghost use Rattle.ht_engine.specs.Steps.{IsInClass};

use crate::settings::Settings;
use ht_faults::Classes;
use std::alloc::{AllocError, Global};

/// Marks the representatives that are to be worked on, by number from 0: those of the chosen faults, or all where no
/// choice was made.
///
/// # Errors
/// Out of memory.
pub fn mark_chosen(
    alloc: Global,
    classes: &Classes,
    settings: &Settings,
) -> Result<Vec<bool>, AllocError>
    requires { AreListedNumbers classes.now }
    ensures { IfOk result (λ marks. AreMarks classes.now settings.now marks.items) }
{
    match &settings.chosen {
        None => vec![in alloc; true; classes.len() as usize],
        Some(numbers) => mark_numbers(alloc, classes, numbers.as_slice()),
    }
}

// Marks the representatives of the faults of these numbers, which count from 1.
fn mark_numbers(alloc: Global, classes: &Classes, numbers: &[u32]) -> Result<Vec<bool>, AllocError>
    requires { AreListedNumbers classes.now }
    ensures { IfOk result (λ marks. MarksAny classes.now numbers.now marks.items) }
{
    let mut marks = vec![in alloc; false; classes.len() as usize]?;
    for number in numbers {
        mark(classes, *number, &mut marks);
    }
    Ok(marks)
}

// Marks the representative of the fault of a number from 1, if there is one.
fn mark(classes: &Classes, number: u32, marks: &mut [bool])
    requires each { length marks.old ≡ length classes.now }
    requires within { AreListedNumbers classes.now }
    ensures each { length marks.new ≡ length marks.old }
    ensures marks { (i : ℕ) → (get_or marks.new i false ≡ true)
        ↔ ((get_or marks.old i false ≡ true) ⊎ IsInClass classes.now number i) }
{
    if number == 0 || number > classes.len() {
        return;
    }
    marks[classes.of(number - 1) as usize] = true;
}
