//! The rounds in which flip-flops are removed from the set that is held unknown.
ghost use Rattle.std.specs.Prelude.{◌≡◌, ◌<◌, ◌+◌, ◌++◌, ◌∷◌, [], ℕ, None, length, replicate, set, IfOk, OnOk};
ghost use Rattle.ht_uninit.specs.RoundStates.{IsAt, IsFinished, IsRemoved};

use crate::held_window::HeldWindow;
use crate::net_search::{Searched, search_net};
use crate::record::{Out3, Removed};
use ht_items::Items;
use ht_net::Circuit;
use ht_tree::Token;
use std::alloc::{AllocError, Global};

/// How far the rounds have come: the window of the set that is left, the removals in their order, the walk of each
/// flip-flop that was kept last, and how many were removed before this round.
#[derive(Drop)]
pub struct Rounds<'c> {
    pub held: HeldWindow<'c>,
    pub removed: Vec<Removed>,
    pub walks: Vec<Option<Items<Token>>>,
    pub before: usize,
}

// Notes the removal of flip-flop j, which has no walk then.
fn note_removal(
    removed: &mut Vec<Removed>,
    walks: &mut Vec<Option<Items<Token>>>,
    j: u32,
    why: Removed,
) -> Result<(), AllocError>
    requires { j < length walks.old.items }
    ensures removed { OnOk result (removed.new.items ≡ removed.old.items ++ why ∷ []) }
    ensures walks { OnOk result (walks.new.items ≡ set walks.old.items j None) }
{
    removed.push(why)?;
    walks[j as usize] = None;
    Ok(())
}

// Removes flip-flop j, for a reason.
fn remove<'c>(rounds: Rounds<'c>, j: u32, why: Removed) -> Result<Rounds<'c>, AllocError>
    requires member { j < length rounds.held.circuit.dffs }
    requires walks { j < length rounds.walks.items }
    ensures { IfOk result (IsRemoved rounds.entry j why) }
{
    let Rounds {
        held,
        mut removed,
        mut walks,
        before,
    } = rounds;
    let noted = note_removal(&mut removed, &mut walks, j, why);
    // for the proof: where the removal isn't noted, `and` drops the window
    let held = noted.and(held.without(j))?;
    Ok(Rounds {
        held,
        removed,
        walks,
        before,
    })
}

// Searches the next state of flip-flop j, if it is a member, and removes it where the search isn't closed.
fn search_member<'c>(
    alloc: Global,
    circuit: &'c Circuit,
    rounds: Rounds<'c>,
    j: u32,
    budget: u64,
) -> Result<Rounds<'c>, AllocError>
    requires member { j < length circuit.now.dffs }
    requires at { IsAt circuit.now budget rounds.before j rounds.held rounds.removed.items
        rounds.walks.items }
    ensures before { IfOk result (λ r. r.before ≡ rounds.entry.before) }
    ensures at { IfOk result (λ r. IsAt circuit.now budget r.before (j + 1) r.held r.removed.items
        r.walks.items) }
{
    let stranger = !rounds.held.is_member(j);
    if stranger {
        return Ok(rounds);
    }
    // for the proof: the circuit is well formed
    let _ = circuit.nets();
    let net = circuit.dff_data(j);
    let Rounds {
        held,
        removed,
        walks,
        before,
    } = rounds;
    let searched = search_net(alloc, held, net, budget)?;
    let Searched { held, out } = searched;
    let mut rounds = Rounds {
        held,
        removed,
        walks,
        before,
    };
    match out {
        Out3::Mute { tokens } => {
            rounds.walks[j as usize] = Some(tokens);
            Ok(rounds)
        },
        Out3::Seen { sets } => remove(rounds, j, Removed::Free { dff: j, sets }),
        Out3::Open { tokens } => remove(rounds, j, Removed::Spent { dff: j, tokens }),
    }
}

// One round.
fn round<'c>(
    alloc: Global,
    circuit: &'c Circuit,
    rounds: Rounds<'c>,
    budget: u64,
) -> Result<Rounds<'c>, AllocError>
    requires { IsAt circuit.now budget (length rounds.removed.items) 0 rounds.held
        rounds.removed.items rounds.walks.items }
    ensures before { IfOk result (λ r. r.before ≡ length rounds.entry.removed.items) }
    ensures at { IfOk result (λ r. IsAt circuit.now budget r.before (length circuit.now.dffs) r.held
        r.removed.items r.walks.items) }
{
    let mut next = rounds;
    next.before = next.removed.len();
    for j in 0..circuit.dffs() {
        next = search_member(alloc, circuit, next, j, budget)?;
    }
    Ok(next)
}

// So many flip-flops have no walk.
fn no_walks(alloc: Global, count: usize) -> Result<Vec<Option<Items<Token>>>, AllocError>
    ensures { IfOk result (λ walks. walks.items ≡ replicate count None) }
{
    let mut walks = Vec::with_capacity(alloc, count)?;
    for _ in 0..count {
        walks.push(None)?;
    }
    Ok(walks)
}

// Before the first round all flip-flops are held unknown.
fn first_rounds<'c>(alloc: Global, circuit: &'c Circuit) -> Result<Rounds<'c>, AllocError>
    ensures { IfOk result (λ r. (budget : ℕ) → IsAt circuit.now budget (length r.removed.items) 0
        r.held r.removed.items r.walks.items) }
{
    let walks = no_walks(alloc, circuit.dffs() as usize)?;
    let held = HeldWindow::new(alloc, circuit)?;
    let removed = Vec::new(alloc);
    Ok(Rounds {
        held,
        removed,
        walks,
        before: 0,
    })
}

/// Rounds over the flip-flops of a circuit, at first all held unknown, until one round removes none.
///
/// # Errors
/// Out of memory.
pub fn find_held<'c>(
    alloc: Global,
    circuit: &'c Circuit,
    budget: u64,
) -> Result<Rounds<'c>, AllocError>
    ensures { IfOk result (λ r. IsFinished circuit.now budget r.held r.removed.items
        r.walks.items) }
{
    let mut rounds = first_rounds(alloc, circuit)?;
    'rounds: loop {
        let next = round(alloc, circuit, rounds, budget)?;
        let last = next.removed.len() == next.before;
        if last {
            return Ok(next);
        }
        rounds = next;
    }
}
