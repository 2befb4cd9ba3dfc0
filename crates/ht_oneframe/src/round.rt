//! One round: the search of a one-frame window.
ghost use Rattle.std.specs.Prelude.{◌≡◌, ℕ, List, [], length, IfOk};
ghost use Rattle.ht_net.specs.Circuit.Netlist.{Netlist};
ghost use Rattle.ht_tree.specs.Window.Windows as windows;
ghost use Rattle.ht_window.specs.Starts.{marked};
ghost use Rattle.ht_tree.specs.Walk.Searches.{Guide, node_at};
ghost use Rattle.ht_search.specs.Outcomes.{IsOutcome};
ghost use Rattle.ht_oneframe.specs.Rounds.{IsRound, LeavesSure, guide_in};

use crate::telling::told_frame;
use ht_items::Items;
use ht_net::Fault;
use ht_search::Outcome;
use ht_tree::{Status, Token, Told};
use ht_window::{Bases, Start, Trial, Window, explore};
use std::alloc::{AllocError, Global};

/// What the search of a one-frame window comes to.
#[derive(Drop)]
pub enum Round {
    /// No place may differ: a complete walk.
    Closed { tokens: Items<Token> },
    /// A place differs for certain.
    Told { told: Told },
    /// The budget was spent: an open walk.
    Spent { tokens: Items<Token> },
}

/// The one-frame window of a fault in which the states may differ at the flip-flops that are marked.
///
/// # Errors
/// Out of memory.
pub fn one_frame_window<'c>(
    alloc: Global,
    bases: &mut Bases<'c>,
    fault: Fault,
    marks: &[bool],
) -> Result<Window<'c>, AllocError>
    requires { length marks.now ≡ length bases.old.circuit.dffs }
    ensures circuit { bases.new.circuit ≡ bases.old.circuit }
    ensures window { IfOk result
        (λ w. w.window ≡ windows.one_frame_window bases.old.circuit fault (marked 0 marks.now)) }
    ensures decisions { IfOk result (λ w. w.decisions ≡ []) }
{
    // for the proof: the circuit is well formed
    let _ = bases.circuit().nets();
    let z = Items::from_slice(alloc, marks)?;
    let start = Start::OneFrame { z };
    let window = bases.window(alloc, Some(fault), 1, &start);
    // for the proof: dropped by name
    drop(start);
    window
}

/// What the outcome of a one-frame window's search comes to. The window stands where the search left it.
///
/// # Errors
/// Out of memory.
pub fn round_of(alloc: Global, window: &Window, outcome: Outcome) -> Result<Round, AllocError>
    requires { LeavesSure window.now.window window.now.decisions outcome }
    ensures { IfOk result (λ round. (c : Netlist) (fault : Fault) (guide : List ℕ → Guide)
        (budget : ℕ) (z : List ℕ) → window.now.window ≡ windows.one_frame_window c fault z
        → IsOutcome (guide z) budget 1 (node_at window.now.decisions) outcome
        → IsRound c fault guide budget z round) }
{
    match outcome {
        Outcome::Closed { tokens } => Ok(Round::Closed {
            tokens: Items::from_vec(tokens),
        }),
        Outcome::Spent { tokens } => Ok(Round::Spent {
            tokens: Items::from_vec(tokens),
        }),
        Outcome::Found { tokens: _ } => match window.status() {
            Status::Sure { frame: _, place } => Ok(Round::Told {
                told: told_frame(alloc, window, place)?,
            }),
            Status::Dead | Status::Open => unreachable!(),
        },
    }
}

// Searches a one-frame window.
fn search_trial(alloc: Global, trial: &mut Trial, budget: u64) -> Result<Round, AllocError>
    requires { trial.old.window.decisions ≡ [] }
    ensures { IfOk result (λ round. (c : Netlist) (fault : Fault) (z : List ℕ)
        → trial.old.window.window ≡ windows.one_frame_window c fault z
        → IsRound c fault (guide_in c fault) budget z round) }
{
    let outcome = explore(alloc, trial, budget, 1)?;
    let round = round_of(alloc, &trial.window, outcome)?;
    Ok(round)
}

/// Searches the one-frame window of a fault in which the states may differ at the flip-flops that are marked. Each
/// token takes one from the budget.
///
/// # Errors
/// Out of memory.
pub fn search_one_frame(
    alloc: Global,
    bases: &mut Bases,
    fault: Fault,
    budget: u64,
    marks: &[bool],
) -> Result<Round, AllocError>
    requires { length marks.now ≡ length bases.old.circuit.dffs }
    ensures circuit { bases.new.circuit ≡ bases.old.circuit }
    ensures round { IfOk result (IsRound bases.old.circuit fault (guide_in bases.old.circuit fault)
        budget (marked 0 marks.now)) }
{
    let window = one_frame_window(alloc, bases, fault, marks)?;
    let mut trial = Trial { window };
    let round = search_trial(alloc, &mut trial, budget);
    // for the proof: dropped by name
    drop(trial);
    round
}
