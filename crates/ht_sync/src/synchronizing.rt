//! The search for a shortest list that synchronizes.
ghost use Rattle.std.specs.Prelude.{◌≡◌, ◌≤◌, IfOk};
ghost use Rattle.ht_sync.specs.SyncSearches.{FindsWithin, IsSynchronized, SynchronizedHolds};

use crate::final_state::end_state;
use crate::length::SyncSearch;
use ht_forward::{Lengths, search_lengths};
use ht_items::Items;
use ht_net::{Circuit, Vectors};
use ht_tree::{MAX_BUDGET, Token};
use ht_window::Bases;
use std::alloc::{AllocError, Global};

/// What the search for a list that synchronizes comes to.
#[derive(Drop)]
pub enum Synchronized {
    /// A shortest list, the state to which it brings every flip-flop, and the complete walks of all shorter lengths.
    Found {
        list: Vectors,
        state: Items<bool>,
        walks: Items<Items<Token>>,
    },
    /// The budget was spent: the walks for 1 vector, 2 vectors and so on, all complete but the last.
    Spent {
        walks: Items<Items<Token>>,
    },
}

/// Searches the lists of no vector, 1 vector, 2 vectors and so on for one that brings every flip-flop from unknown to a
/// definite value, until one is found or the budget is spent. A token of a search of k vectors weighs k, and the budget
/// is for all searches together.
///
/// # Errors
/// Out of memory.
pub fn sync(alloc: Global, circuit: &Circuit, budget: u64) -> Result<Synchronized, AllocError>
    requires { budget ≤ MAX_BUDGET }
    ensures answer { IfOk result (IsSynchronized circuit.now budget) }
    ensures holds { IfOk result (SynchronizedHolds circuit.now budget) }
    ensures enough { IfOk result (FindsWithin circuit.now budget) }
{
    if circuit.dffs() == 0 {
        return Ok(Synchronized::Found {
            list: Vectors::new(alloc, circuit.inputs()),
            state: Items::new(alloc),
            walks: Items::new(alloc),
        });
    }
    let mut search = SyncSearch {
        bases: Bases::new(alloc, circuit)?,
    };
    let lengths = search_lengths(alloc, &mut search, budget)?;
    match lengths {
        Lengths::Found { list, walks } => {
            let state = end_state(alloc, circuit, &list)?;
            Ok(Synchronized::Found { list, state, walks })
        },
        Lengths::Spent { walks } => Ok(Synchronized::Spent { walks }),
    }
}
