//! The refutation of a fault from one named state.
ghost use Rattle.std.specs.Prelude.{◌≡◌, ◌≤◌, ℕ, List, [], Bool, true, length, IfOk};
ghost use Rattle.ht_net.specs.Circuit.Netlist.{Netlist};
ghost use Rattle.std.specs.List.{All};
ghost use Rattle.ht_tree.specs.Walk.Budgets.{refutation_cost};
ghost use Rattle.ht_tree.specs.Clause.Clauses.{IsClause, literals_of_each};
ghost use Rattle.ht_tree.specs.Clause.Invariants.{IsInvariant};
ghost use Rattle.ht_tree.specs.Clause.SealedInClauses.{SealedIn};
ghost use Rattle.ht_tree.specs.Window.Windows as windows;
ghost use Rattle.ht_window.specs.Starts.{marked};
ghost use Rattle.ht_oneframe.specs.Rounds.{IsRound};
ghost use Rattle.ht_invariant.specs.declared.sought.Sought.TheVariants.{Difference};
ghost use Rattle.ht_invariant.specs.Trials.{knows_each};
ghost use Rattle.ht_invariant.specs.FromStates.{FromStateHolds, IsFromState, IsRefutedFrom, guide_from};

use crate::finding::Invariant;
use crate::marks::no_marks;
use crate::sought::Sought;
use crate::trial::{ClauseTrial, explore_under};
use ht_items::Items;
use ht_net::{Circuit, Fault};
use ht_oneframe::{Round, marked, one_frame_window, round_of};
use ht_tree::{Assign, Clause, Spot, Token, Told};
use ht_window::Bases;
use std::alloc::{AllocError, Global};

/// What the one-frame windows of a fault under the clauses of an invariant say of it. Flip-flops count from 0, and
/// rise.
#[derive(Drop)]
pub enum FromState {
    /// A difference doesn't leave the flip-flops `z`: a complete walk of their window under the clauses.
    Refuted {
        z: Items<u32>,
        tokens: Items<Token>,
    },
    /// A difference comes to an output through the flip-flops `z`: the output, and the decisions in the window of `z`.
    Told {
        z: Items<u32>,
        place: Spot,
        sets: Items<Assign>,
    },
    /// The budget was spent in the window of the flip-flops `z`: an open walk.
    Spent {
        z: Items<u32>,
        tokens: Items<Token>,
    },
}

// Searches a one-frame window under clauses for a difference.
fn search_trial(alloc: Global, trial: &mut ClauseTrial, budget: u64) -> Result<Round, AllocError>
    requires start { trial.old.window.decisions ≡ [] }
    requires sought { trial.old.sought ≡ Difference }
    ensures { IfOk result (λ round. (c : Netlist) (fault : Fault) (z : List ℕ)
        → trial.old.window.window ≡ windows.one_frame_window c fault z
        → IsRound c fault (guide_from c fault (literals_of_each trial.old.clauses.now)) budget z
        round) }
{
    let outcome = explore_under(alloc, trial, budget)?;
    let round = round_of(alloc, &trial.window, outcome)?;
    Ok(round)
}

// Searches the one-frame window of a fault and marked flip-flops under clauses. Each token takes one from the budget.
fn search_under(
    alloc: Global,
    bases: &mut Bases,
    fault: Fault,
    clauses: &[Clause],
    budget: u64,
    marks: &[bool],
) -> Result<Round, AllocError>
    requires marks { length marks.now ≡ length bases.old.circuit.dffs }
    requires known { knows_each bases.old.circuit clauses.now ≡ true }
    ensures circuit { bases.new.circuit ≡ bases.old.circuit }
    ensures round { IfOk result (IsRound bases.old.circuit fault
        (guide_from bases.old.circuit fault (literals_of_each clauses.now)) budget
        (marked 0 marks.now)) }
{
    let window = one_frame_window(alloc, bases, fault, marks)?;
    let mut trial = ClauseTrial {
        window,
        sought: Sought::Difference,
        clauses,
    };
    let round = search_trial(alloc, &mut trial, budget);
    // for the proof: dropped by name
    drop(trial);
    round
}

/// Searches the one-frame windows of a fault under the clauses of an invariant, from no flip-flop on: each flip-flop
/// that is told joins the set at which the states may differ, as in a refutation without clauses. Each search has the
/// whole budget, of which a token takes one.
///
/// A refuted fault is silent from the invariant's state, so that no list of any length detects it; its set is the least
/// that seals the fault as long as the clauses are met. Where an output is told, no set seals it so. A budget of
/// 2^(n + 2m + 1), for n inputs and m flip-flops, is never spent.
///
/// # Errors
/// Out of memory.
pub fn refute_from(
    alloc: Global,
    circuit: &Circuit,
    fault: Fault,
    invariant: &Invariant,
    budget: u64,
) -> Result<FromState, AllocError>
    requires { IsInvariant circuit.now invariant.now.state invariant.now.clauses }
    ensures answer { IfOk result (IsFromState circuit.now fault
        (literals_of_each invariant.now.clauses) budget) }
    ensures holds { IfOk result (FromStateHolds circuit.now fault invariant.now.state
        invariant.now.clauses budget) }
    ensures enough { refutation_cost circuit.now ≤ budget → (z : ℕ → Bool)
        → SealedIn circuit.now fault z (literals_of_each invariant.now.clauses)
        → IfOk result IsRefutedFrom }
{
    let mut bases = Bases::new(alloc, circuit)?;
    let clauses = invariant.clauses.as_slice();
    let answer = refute_under(alloc, &mut bases, fault, clauses, budget);
    // for the proof: dropped by name
    drop(bases);
    answer
}

/// What `refute_from` does for the circuit of some bases, from which each window is copied, and the clauses of any
/// invariant of that circuit.
///
/// # Errors
/// Out of memory.
pub fn refute_under(
    alloc: Global,
    bases: &mut Bases,
    fault: Fault,
    clauses: &[Clause],
    budget: u64,
) -> Result<FromState, AllocError>
    requires { All (IsClause bases.old.circuit) clauses.now }
    ensures circuit { bases.new.circuit ≡ bases.old.circuit }
    ensures answer { IfOk result (IsFromState bases.old.circuit fault
        (literals_of_each clauses.now) budget) }
    ensures holds { (state : List Bool) → IsInvariant bases.old.circuit state clauses.now
        → IfOk result (FromStateHolds bases.old.circuit fault state clauses.now budget) }
    ensures enough { refutation_cost bases.old.circuit ≤ budget → (z : ℕ → Bool)
        → SealedIn bases.old.circuit fault z (literals_of_each clauses.now)
        → IfOk result IsRefutedFrom }
{
    let circuit = bases.circuit();
    // for the proof: the circuit is well formed
    let _ = circuit.nets();
    let mut marks = no_marks(alloc, circuit.dffs() as usize)?;
    'rounds: loop {
        match search_under(alloc, bases, fault, clauses, budget, &marks)? {
            Round::Closed { tokens } => {
                let z = marked(alloc, &marks)?;
                return Ok(FromState::Refuted { z, tokens });
            },
            Round::Spent { tokens } => {
                let z = marked(alloc, &marks)?;
                return Ok(FromState::Spent { z, tokens });
            },
            Round::Told { told } => {
                let Told { place, sets } = told;
                match place {
                    Spot::State(j) => marks[j as usize] = true,
                    Spot::Output(_) => {
                        let z = marked(alloc, &marks)?;
                        return Ok(FromState::Told { z, place, sets });
                    },
                    Spot::Cube => unreachable!(),
                }
            },
        }
    }
}
