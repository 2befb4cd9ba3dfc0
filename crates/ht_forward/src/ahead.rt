//! The search of one window for a list of vectors.
ghost use Rattle.std.specs.Prelude.{◌≡◌, ◌<◌, ◌≤◌, ℕ, [], true, Some, IfOk};
ghost use Rattle.ht_tree.specs.declared.window.Spot.{Spot};
ghost use Rattle.ht_tree.specs.declared.token.Status3.TheVariants as status3;
ghost use Rattle.ht_tree.specs.Walk.Counts.{seeks_difference};
ghost use Rattle.ht_tree.specs.Window.Places.{state_places};
ghost use Rattle.ht_tree.specs.Walk.Searches.{guide_of, node_at};
ghost use Rattle.ht_tree.specs.Window.Windows.{IsStart, token_weight};
ghost use Rattle.ht_tree.specs.Window.WindowStatus.{status_at, without_place};
ghost use Rattle.ht_search.specs.Outcomes.{IsOutcome};
ghost use Rattle.ht_window.specs.Starts.{start_of, window_from};
ghost use Rattle.ht_forward.specs.AheadSearches.{IsAhead};

use ht_items::Items;
use ht_net::{Fault, Vectors};
use ht_search::Outcome;
use ht_tree::{Status, Token};
use ht_window::{Bases, MAX_FRAMES, Start, Trial, Window, explore, list};
use std::alloc::{AllocError, Global};

/// What the search of a window for a difference at an output comes to.
#[derive(Drop)]
pub enum Ahead {
    /// The vectors up to the first frame in which an output differs for certain.
    Found { list: Vectors },
    /// No output can differ: a complete walk.
    Closed { tokens: Items<Token> },
    /// The budget was spent: an open walk.
    Spent { tokens: Items<Token> },
}

/// Searches a window in which a difference counts only at the outputs. Each token weighs as much as the window has
/// frames.
///
/// # Errors
/// Out of memory.
pub fn search_ahead(
    alloc: Global,
    bases: &mut Bases,
    fault: Fault,
    frames: u32,
    start: &Start,
    budget: u64,
) -> Result<Ahead, AllocError>
    requires some { 0 < frames }
    requires few { frames ≤ MAX_FRAMES }
    requires start { IsStart bases.old.circuit (Some fault) frames (start_of start.now) }
    requires seeks { seeks_difference (start_of start.now) ≡ true }
    requires outputs { state_places bases.old.circuit (start_of start.now) ≡ [] }
    ensures circuit { bases.new.circuit ≡ bases.old.circuit }
    ensures answer { IfOk result
        (IsAhead (window_from bases.old.circuit (Some fault) frames start.now) budget) }
{
    let mut trial = begin(alloc, bases, fault, frames, start)?;
    let ahead = search_trial(alloc, &mut trial, frames, budget);
    // for the proof: dropped by name
    drop(trial);
    ahead
}

// The window of a start before its first decision.
fn begin<'c>(
    alloc: Global,
    bases: &mut Bases<'c>,
    fault: Fault,
    frames: u32,
    start: &Start,
) -> Result<Trial<'c>, AllocError>
    requires few { frames ≤ MAX_FRAMES }
    requires start { IsStart bases.old.circuit (Some fault) frames (start_of start.now) }
    requires seeks { seeks_difference (start_of start.now) ≡ true }
    ensures circuit { bases.new.circuit ≡ bases.old.circuit }
    ensures window { IfOk result (λ trial. trial.window.window
        ≡ window_from bases.old.circuit (Some fault) frames start.now) }
    ensures decisions { IfOk result (λ trial. trial.window.decisions ≡ []) }
{
    let window = bases.window(alloc, Some(fault), frames, start)?;
    Ok(Trial { window })
}

// Searches a window of so many frames before its first decision.
fn search_trial(
    alloc: Global,
    trial: &mut Trial,
    frames: u32,
    budget: u64,
) -> Result<Ahead, AllocError>
    requires some { 0 < frames }
    requires few { frames ≤ MAX_FRAMES }
    requires frames { trial.old.window.window.frames ≡ frames }
    requires outputs { state_places trial.old.window.window.circuit
        trial.old.window.window.start ≡ [] }
    requires decisions { trial.old.window.decisions ≡ [] }
    ensures { IfOk result (IsAhead trial.old.window.window budget) }
{
    let outcome = explore(alloc, trial, budget, frames as u64)?;
    answer(alloc, &trial.window, outcome)
}

// What the outcome of a search within any budget comes to. The window stands where the search left it.
fn answer(alloc: Global, window: &Window, outcome: Outcome) -> Result<Ahead, AllocError>
    requires few { window.now.window.frames ≤ MAX_FRAMES }
    requires seeks { seeks_difference window.now.window.start ≡ true }
    requires outputs { state_places window.now.window.circuit window.now.window.start ≡ [] }
    requires outcome { (budget : ℕ) × IsOutcome (guide_of window.now.window) budget
        (token_weight window.now.window) (node_at window.now.decisions) outcome }
    ensures { IfOk result (λ answer. (budget : ℕ) → IsOutcome (guide_of window.now.window) budget
        (token_weight window.now.window) (node_at window.now.decisions) outcome
        → IsAhead window.now.window budget answer) }
{
    match outcome {
        Outcome::Closed { tokens } => Ok(Ahead::Closed {
            tokens: Items::from_vec(tokens),
        }),
        Outcome::Spent { tokens } => Ok(Ahead::Spent {
            tokens: Items::from_vec(tokens),
        }),
        Outcome::Found { tokens: _ } => Ok(Ahead::Found {
            list: list(alloc, window, sure_frame(window) + 1)?,
        }),
    }
}

// The first frame in which an output differs for certain.
fn sure_frame(window: &Window) -> u32
    requires seeks { seeks_difference window.now.window.start ≡ true }
    requires outputs { state_places window.now.window.circuit window.now.window.start ≡ [] }
    requires sure { without_place (status_at window.now.window window.now.decisions)
        ≡ status3.Sure }
    ensures sure { (place : Spot) × (status_at window.now.window window.now.decisions
        ≡ Status.Sure result place) }
    ensures known { result < window.now.window.frames }
{
    match window.status() {
        Status::Sure { frame, place: _ } => frame,
        Status::Dead | Status::Open => unreachable!(),
    }
}
