//! The sweep, from all-unknown or from a pair of states.
ghost use Rattle.std.specs.Prelude.{◌≡◌, ◌<◌, ◌≤◌, [], ℕ, true, Some, length, IfOk};
ghost use Rattle.ht_tree.specs.Walk.Counts.{seeks_difference};
ghost use Rattle.ht_tree.specs.Window.Places.{state_places};
ghost use Rattle.ht_tree.specs.Window.Windows.{IsStart, state_pair};
ghost use Rattle.ht_window.specs.Starts.{start_of};
ghost use Rattle.ht_forward.specs.Sweeps.{FindsShort, IsSwept, IsSweptFrom, SweptHolds, SweptOnHolds};

use crate::ahead::{Ahead, search_ahead};
use ht_items::Items;
use ht_net::{Circuit, Fault, Vectors};
use ht_tree::{MAX_BUDGET, Token};
use ht_window::{Bases, PairState, Start};
use std::alloc::{AllocError, Global};

/// What a sweep comes to.
#[derive(Drop)]
pub enum Swept {
    /// A list that shows a difference of the good and the faulty machine, which from all-unknown is to detect the fault.
    Found { list: Vectors },
    /// The budget was spent: the walks of the windows of 1 frame, 2 frames and so on, all complete but the last.
    Spent { walks: Items<Items<Token>> },
}

/// Searches the windows of 1 frame, 2 frames and so on from all-unknown, until one of them shows the fault or the
/// budget is spent. A token of a window of k frames weighs k, and the budget is for all windows together.
///
/// # Errors
/// Out of memory.
pub fn sweep(
    alloc: Global,
    circuit: &Circuit,
    fault: Fault,
    budget: u64,
) -> Result<Swept, AllocError>
    requires { budget ≤ MAX_BUDGET }
    ensures answer { IfOk result (IsSwept circuit.now fault budget) }
    ensures holds { IfOk result (SweptHolds circuit.now fault budget) }
{
    let mut bases = Bases::new(alloc, circuit)?;
    sweep_from_bases(alloc, &mut bases, fault, budget)
}

/// What `sweep` does for the circuit of some bases, from which each window is copied.
///
/// # Errors
/// Out of memory.
#[tactic(auto, using(crate::proofs::SweepLaws::swept_holds))]
pub fn sweep_from_bases(
    alloc: Global,
    bases: &mut Bases,
    fault: Fault,
    budget: u64,
) -> Result<Swept, AllocError>
    requires { budget ≤ MAX_BUDGET }
    ensures circuit { bases.new.circuit ≡ bases.old.circuit }
    ensures answer { IfOk result (IsSwept bases.old.circuit fault budget) }
    ensures holds { IfOk result (SweptHolds bases.old.circuit fault budget) }
{
    search_windows(alloc, bases, fault, &Start::Unknown, budget)
}

/// The same from a state of the good machine and one of the faulty machine, which have a value for each flip-flop: a list
/// shows their difference at an output.
///
/// # Errors
/// Out of memory.
#[tactic(auto, using(crate::proofs::SweepLaws::swept_on_holds))]
pub fn sweep_on_from_bases(
    alloc: Global,
    bases: &mut Bases,
    fault: Fault,
    states: PairState,
    budget: u64,
) -> Result<Swept, AllocError>
    requires good { length states.good ≡ length bases.old.circuit.dffs }
    requires bad { length states.bad ≡ length bases.old.circuit.dffs }
    requires budget { budget ≤ MAX_BUDGET }
    ensures circuit { bases.new.circuit ≡ bases.old.circuit }
    ensures answer { IfOk result
        (IsSweptFrom bases.old.circuit fault (state_pair states.good states.bad) budget) }
    ensures holds { IfOk result (SweptOnHolds bases.old.circuit fault states.good states.bad) }
{
    let start = Start::Pair { state: states };
    search_windows(alloc, bases, fault, &start, budget)
}

// Searches the windows of 1 frame, 2 frames and so on from a start.
fn search_windows(
    alloc: Global,
    bases: &mut Bases,
    fault: Fault,
    start: &Start,
    budget: u64,
) -> Result<Swept, AllocError>
    requires budget { budget ≤ MAX_BUDGET }
    requires start { (frames : ℕ) → 0 < frames
        → IsStart bases.old.circuit (Some fault) frames (start_of start.now) }
    requires seeks { seeks_difference (start_of start.now) ≡ true }
    requires outputs { state_places bases.old.circuit (start_of start.now) ≡ [] }
    ensures circuit { bases.new.circuit ≡ bases.old.circuit }
    ensures answer { IfOk result
        (IsSweptFrom bases.old.circuit fault (start_of start.now) budget) }
    ensures short { IfOk result (FindsShort bases.old.circuit) }
{
    let mut walks = Vec::new(alloc);
    let mut left = budget;
    let mut frames: u32 = 1;
    'lengths: loop {
        match search_ahead(alloc, bases, fault, frames, start, left)? {
            Ahead::Found { list } => return Ok(Swept::Found { list }),
            Ahead::Spent { tokens } => {
                walks.push(tokens)?;
                return Ok(Swept::Spent {
                    walks: Items::from_vec(walks),
                });
            },
            Ahead::Closed { tokens } => {
                left -= tokens.as_slice().len() as u64 * frames as u64;
                frames += 1;
                walks.push(tokens)?;
            },
        }
    }
}
