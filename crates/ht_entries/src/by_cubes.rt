//! The form of an entry that shows a fault undetectable by forbidden cubes.
ghost use Rattle.std.specs.Prelude.{◌≡◌, ◌++◌, ◌∷◌, [], map, IfOk, OnOk};
ghost use Rattle.ht_texts.specs.Lines.{with_lf};
ghost use Rattle.ht_entries.specs.LineTexts.{lines_text};
ghost use Rattle.ht_entries.specs.ParsedLines.{IsParsed};
ghost use Rattle.ht_entries.specs.ProofLineLengths.{IsShortProofLine};
ghost use Rattle.ht_entries.specs.ByCubes as by_cubes;

use crate::found::Found;
use crate::limits::MAX_PROOF_LINE_BYTES;
use crate::line_items::{items_after, push_items, take_items};
use crate::parse_words::{after_word, number_between};
use crate::proof_line::ProofLine;
use crate::push_item::with_item;
use crate::write_line::push_entry_head;
use ht_cubes::{ClauseStep, Cube, Rail, SignedVar};
use ht_items::Items;
use ht_tree::Entry;
use std::alloc::{AllocError, Global};

/// A line that only an entry of this form has.
#[derive(Drop)]
pub enum ByCubesLine {
    /// `entry 7 undetectable by cubes`: the entry of the fault of this number begins.
    Begins(u32),
    /// `never good 3 1 faulty 3 0`: a forbidden cube. Flip-flops count from 0 here.
    Never(Cube),
    /// `step -4 1 by 3 7`: a clause, and the numbers of the clauses that show it. Variables and clauses count from 1.
    Step(ClauseStep),
}

/// As much of an entry of this form as was read.
#[derive(Drop)]
pub struct ByCubesPart {
    pub cubes: Items<Cube>,
    pub steps: Items<ClauseStep>,
}

// ---- its lines read

// The line of this form whose text these bytes are, without the LF, or `None` where they are the text of none.
pub fn parse_by_cubes(alloc: Global, line: &[u8]) -> Found<ByCubesLine>
    ensures { IfOk result (λ parsed.
        IsParsed by_cubes.by_cubes_text by_cubes.IsByCubesLine line.now parsed) }
{
    if let Some(number) = number_between(line, b"entry ", b" undetectable by cubes") {
        return Ok(Some(ByCubesLine::Begins(number)));
    }
    if line.len() > MAX_PROOF_LINE_BYTES as usize {
        return Ok(None);
    }
    if let Some(cube) = parse_cube(alloc, line)? {
        return Ok(Some(ByCubesLine::Never(cube)));
    }
    if let Some(step) = parse_step(alloc, line)? {
        return Ok(Some(ByCubesLine::Step(step)));
    }
    Ok(None)
}

// The line of a cube.
fn parse_cube(alloc: Global, line: &[u8]) -> Found<Cube>
    requires { IsShortProofLine line.now }
    ensures { IfOk result
        (λ parsed. IsParsed by_cubes.cube_text by_cubes.IsCubeText line.now parsed) }
{
    items_after::<Rail>(alloc, line, b"never")
}

// The line of a step.
fn parse_step(alloc: Global, line: &[u8]) -> Found<ClauseStep>
    requires { IsShortProofLine line.now }
    ensures { IfOk result
        (λ parsed. IsParsed by_cubes.step_text by_cubes.IsStepText line.now parsed) }
{
    let Some(text) = after_word(line, b"step") else {
        return Ok(None);
    };
    let (literals, rest) = take_items::<SignedVar>(alloc, text)?;
    let Some(hints) = items_after::<u32>(alloc, rest, b" by")? else {
        return Ok(None);
    };
    Ok(Some(ClauseStep { literals, hints }))
}

// ---- a line more of it

impl ByCubesPart {
    // What the line `entry 7 undetectable by cubes` begins.
    pub fn new(alloc: Global) -> ByCubesPart
        ensures { result ≡ by_cubes.no_cubes }
    {
        ByCubesPart {
            cubes: Items::new(alloc),
            steps: Items::new(alloc),
        }
    }

    // The entry, if there is a cube.
    pub fn entry(self) -> Option<Entry>
        ensures { result ≡ by_cubes.by_cubes_entry self }
    {
        if self.cubes.as_slice().is_empty() {
            return None;
        }
        Some(Entry::UndetectableByCubes {
            cubes: self.cubes,
            steps: self.steps,
        })
    }
}

// The part with one line more, or none where the line doesn't belong to it there.
pub fn grow_by_cubes(part: ByCubesPart, line: &ProofLine) -> Found<ByCubesPart>
    ensures { IfOk result (λ grown. grown ≡ by_cubes.grow_by_cubes part line.now) }
{
    match line {
        ProofLine::ByCubes(ByCubesLine::Never(cube)) => add_cube(part, cube),
        ProofLine::ByCubes(ByCubesLine::Step(step)) => add_step(part, step),
        _ => Ok(None),
    }
}

// A cube more, before any step.
fn add_cube(part: ByCubesPart, cube: &Cube) -> Found<ByCubesPart>
    ensures { IfOk result
        (λ grown. grown ≡ by_cubes.grow_by_cubes part (by_cubes.never_line cube.now)) }
{
    if !part.steps.as_slice().is_empty() {
        return Ok(None);
    }
    let cubes = with_cube(part.cubes, cube)?;
    Ok(Some(ByCubesPart { cubes, ..part }))
}

// The cubes and a copy of this one.
fn with_cube(cubes: Items<Cube>, cube: &Cube) -> Result<Items<Cube>, AllocError>
    ensures { IfOk result (λ more. more ≡ cubes ++ cube.now ∷ []) }
{
    let copy = cube.copy()?;
    with_item(cubes, copy)
}

// A step more, after the cubes.
fn add_step(part: ByCubesPart, step: &ClauseStep) -> Found<ByCubesPart>
    ensures { IfOk result
        (λ grown. grown ≡ by_cubes.grow_by_cubes part (by_cubes.step_line step.now)) }
{
    if part.cubes.as_slice().is_empty() {
        return Ok(None);
    }
    let steps = with_step(part.steps, step)?;
    Ok(Some(ByCubesPart { steps, ..part }))
}

// The steps and a copy of this one.
fn with_step(steps: Items<ClauseStep>, step: &ClauseStep) -> Result<Items<ClauseStep>, AllocError>
    ensures { IfOk result (λ more. more ≡ steps ++ step.now ∷ []) }
{
    let copy = copied(step)?;
    with_item(steps, copy)
}

// A copy of a step.
fn copied(step: &ClauseStep) -> Result<ClauseStep, AllocError>
    ensures { IfOk result (λ copy. copy ≡ step.now) }
{
    Ok(ClauseStep {
        literals: step.literals.copy()?,
        hints: step.hints.copy()?,
    })
}

// ---- its lines written

// Appends the lines of the entry of the fault of this number.
pub fn push_by_cubes(
    text: &mut Vec<u8>,
    number: u32,
    cubes: &[Cube],
    steps: &[ClauseStep],
) -> Result<(), AllocError>
    ensures { OnOk result (text.new.items ≡ text.old.items
        ++ lines_text (by_cubes.by_cubes_lines number cubes.now steps.now)) }
{
    push_entry_head(text, number, b" undetectable by cubes")?;
    push_cubes(text, cubes)?;
    push_steps(text, steps)
}

// Appends the lines of cubes.
fn push_cubes(text: &mut Vec<u8>, cubes: &[Cube]) -> Result<(), AllocError>
    ensures { OnOk result
        (text.new.items ≡ text.old.items ++ lines_text (map by_cubes.never_line cubes.now)) }
{
    for cube in cubes {
        push_cube(text, cube.as_slice())?;
    }
    Ok(())
}

// Appends the line of a cube.
fn push_cube(text: &mut Vec<u8>, cube: &[Rail]) -> Result<(), AllocError>
    ensures { OnOk result
        (text.new.items ≡ text.old.items ++ with_lf (by_cubes.cube_text cube.now)) }
{
    text.extend_from_slice(b"never")?;
    push_items(text, cube)?;
    text.extend_from_slice(b"\n")
}

// Appends the lines of steps.
fn push_steps(text: &mut Vec<u8>, steps: &[ClauseStep]) -> Result<(), AllocError>
    ensures { OnOk result
        (text.new.items ≡ text.old.items ++ lines_text (map by_cubes.step_line steps.now)) }
{
    for step in steps {
        push_step(text, step)?;
    }
    Ok(())
}

// Appends the line of a step.
fn push_step(text: &mut Vec<u8>, step: &ClauseStep) -> Result<(), AllocError>
    ensures { OnOk result
        (text.new.items ≡ text.old.items ++ with_lf (by_cubes.step_text step.now)) }
{
    text.extend_from_slice(b"step")?;
    push_items(text, step.literals.as_slice())?;
    text.extend_from_slice(b" by")?;
    push_items(text, step.hints.as_slice())?;
    text.extend_from_slice(b"\n")
}
