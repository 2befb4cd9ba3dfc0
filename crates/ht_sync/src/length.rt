//! The search of each length.
ghost use Rattle.std.specs.Prelude.{◌≡◌, ◌<◌, ◌≤◌, ℕ, [], IfOk};
ghost use Rattle.ht_net.specs.Circuit.Netlist.{Netlist};
ghost use Rattle.ht_tree.specs.Walk.Searches.{node_at};
ghost use Rattle.ht_search.specs.Outcomes.{IsOutcome};
ghost use Rattle.ht_forward.specs.LengthAnswers.{IsOneLength};
ghost use Rattle.ht_sync.specs.SyncSearches.{FindsSyncList};
ghost use Rattle.ht_sync.specs.SyncWindows.{sync_guide, sync_window};

use crate::trial::{SyncTrial, explore};
use ht_forward::{LengthSearch, OneLength};
use ht_items::Items;
use ht_search::Outcome;
use ht_window::{Bases, MAX_FRAMES, Start, list};
use std::alloc::{AllocError, Global};

/// The windows in which a list that synchronizes is searched for.
#[derive(Drop)]
pub struct SyncSearch<'c> {
    /// Where each window comes from.
    pub bases: Bases<'c>,
}

impl<'c> LengthSearch for SyncSearch<'c> {
    ghost use Rattle.ht_net.specs.Circuit.Netlist.{Netlist};
    ghost use Rattle.ht_sync.specs.SyncWindows.{sync_guide};
    ghost use Rattle.ht_sync.specs.SyncSearches.{FindsSyncList};

    ghost Subject = { Netlist };

    ghost subject = { λ s. s.bases.circuit };

    ghost guide = { λ c frames. sync_guide c frames };

    ghost Finds = { λ c frames budget list. FindsSyncList c frames budget list };

    fn search(&mut self, alloc: Global, frames: u32, budget: u64) -> Result<OneLength, AllocError> {
        let mut trial = begin(alloc, &mut self.bases, frames)?;
        let length = search_trial(alloc, &mut trial, budget);
        // for the proof: dropped by name
        drop(trial);
        length
    }
}

// The window of so many frames before its first decision.
fn begin<'c>(alloc: Global, bases: &mut Bases<'c>, frames: u32) -> Result<SyncTrial<'c>, AllocError>
    requires some { 0 < frames }
    requires few { frames ≤ MAX_FRAMES }
    ensures circuit { bases.new.circuit ≡ bases.old.circuit }
    ensures window { IfOk result
        (λ trial. trial.window.window ≡ sync_window bases.old.circuit frames) }
    ensures decisions { IfOk result (λ trial. trial.window.decisions ≡ []) }
{
    let window = bases.window(alloc, None, frames, &Start::Unknown)?;
    Ok(SyncTrial { window, frames })
}

// Searches a trial before its first decision.
fn search_trial(alloc: Global, trial: &mut SyncTrial, budget: u64) -> Result<OneLength, AllocError>
    requires { trial.old.window.decisions ≡ [] }
    ensures { IfOk result (λ length. (circuit : Netlist) (frames : ℕ)
        → trial.old.window.window ≡ sync_window circuit frames
        → IsOneLength (sync_guide circuit frames) (FindsSyncList circuit frames budget) frames
        budget length) }
{
    let outcome = explore(alloc, trial, budget)?;
    answer(alloc, trial, outcome)
}

// What the outcome of a search within any budget comes to. The trial stands where the search left it.
fn answer(alloc: Global, trial: &SyncTrial, outcome: Outcome) -> Result<OneLength, AllocError>
    ensures { IfOk result (λ answer. (budget : ℕ)
        → IsOutcome (sync_guide trial.now.window.window.circuit trial.now.frames) budget
        trial.now.frames (node_at trial.now.window.decisions) outcome
        → IsOneLength (sync_guide trial.now.window.window.circuit trial.now.frames)
        (FindsSyncList trial.now.window.window.circuit trial.now.frames budget)
        trial.now.frames budget answer) }
{
    match outcome {
        Outcome::Closed { tokens } => Ok(OneLength::Closed {
            tokens: Items::from_vec(tokens),
        }),
        Outcome::Spent { tokens } => Ok(OneLength::Spent {
            tokens: Items::from_vec(tokens),
        }),
        Outcome::Found { tokens: _ } => Ok(OneLength::Found {
            list: list(alloc, &trial.window, trial.frames)?,
        }),
    }
}
