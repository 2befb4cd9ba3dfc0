//! Whether the lines of an entry by cubes are short enough to be written.
ghost use Rattle.std.specs.Prelude.{◌<◌, IsTrue};
ghost use Rattle.std.specs.List.{All};
ghost use Rattle.ht_cubes.specs.declared.rail.Rail.{Rail};
ghost use Rattle.ht_cubes.specs.declared.signed_var.SignedVar.{SignedVar};
ghost use Rattle.ht_entries.specs.ProofLineLengths.{IsShortProofLine};
ghost use Rattle.ht_entries.specs.ByCubes.{cube_text};
ghost use Rattle.ht_valid.specs.WritableEntries.{AreShort, IsShortStep};
ghost use Rattle.ht_close.specs.ShortLines.{short_number};

use ht_cubes::{ClauseStep, Cube, Rail, SignedVar};

// A number below this has at most nine digits, and is far from the greatest number of a text.
const SHORT_NUMBER: u32 = 999_999_999;

// So many rails, or signed variables and hints, fit a line of a proofs text: each takes at most 20 bytes.
const MAX_LINE_ITEMS: usize = 50_000;

// Whether the numbers of flip-flops are short.
fn are_short_rails(cube: &[Rail]) -> bool
    ensures { IsTrue result → All (λ (rail : Rail). rail.dff < short_number) cube.now }
{
    for rail in cube {
        if rail.dff >= SHORT_NUMBER {
            return false;
        }
    }
    true
}

// Whether the numbers of variables are short.
fn are_short_variables(clause: &[SignedVar]) -> bool
    ensures { IsTrue result
        → All (λ (literal : SignedVar). literal.variable < short_number) clause.now }
{
    for literal in clause {
        if literal.variable >= SHORT_NUMBER {
            return false;
        }
    }
    true
}

// Whether hints are short numbers.
fn are_short_hints(hints: &[u32]) -> bool
    ensures { IsTrue result → All (λ hint. hint < short_number) hints.now }
{
    for hint in hints {
        if *hint >= SHORT_NUMBER {
            return false;
        }
    }
    true
}

// Whether the line of a cube is short.
#[tactic(auto, using(crate::proofs::ShortLaws::cube_is_short))]
fn is_short_cube(cube: &[Rail]) -> bool
    ensures { IsTrue result → IsShortProofLine (cube_text cube.now) }
{
    if cube.len() > MAX_LINE_ITEMS {
        return false;
    }
    are_short_rails(cube)
}

// Whether the line of a step is short.
#[tactic(auto, using(crate::proofs::ShortLaws::step_is_short))]
fn is_short_step(step: &ClauseStep) -> bool
    ensures { IsTrue result → IsShortStep step.now }
{
    let literals = step.literals.as_slice();
    let hints = step.hints.as_slice();
    if literals.len() > MAX_LINE_ITEMS {
        return false;
    }
    if hints.len() > MAX_LINE_ITEMS - literals.len() {
        return false;
    }
    if !are_short_variables(literals) {
        return false;
    }
    are_short_hints(hints)
}

// Whether the lines of all cubes are short.
fn are_short_cubes(cubes: &[Cube]) -> bool
    ensures { IsTrue result → All (λ cube. IsShortProofLine (cube_text cube)) cubes.now }
{
    for cube in cubes {
        if !is_short_cube(cube.as_slice()) {
            return false;
        }
    }
    true
}

// Whether the lines of all steps are short.
fn are_short_steps(steps: &[ClauseStep]) -> bool
    ensures { IsTrue result → All IsShortStep steps.now }
{
    for step in steps {
        if !is_short_step(step) {
            return false;
        }
    }
    true
}

/// Whether an entry by cubes and steps can be written, if it passes: there is a cube, and no line is too long. Lines
/// near the limit are said to be too long.
pub fn are_short(cubes: &[Cube], steps: &[ClauseStep]) -> bool
    ensures { IsTrue result → AreShort cubes.now steps.now }
{
    if cubes.is_empty() {
        return false;
    }
    if !are_short_cubes(cubes) {
        return false;
    }
    are_short_steps(steps)
}
