//! The justification of a cube.
ghost use Rattle.std.specs.Prelude.{◌≡◌, ℕ, List, [], true, length, IfOk};
ghost use Rattle.ht_tern.specs.declared.tern.Tern.{Tern};
ghost use Rattle.ht_net.specs.Circuit.Netlist.{Netlist};
ghost use Rattle.ht_tree.specs.Record.AimedAttempts.{is_wanting};
ghost use Rattle.ht_tree.specs.Window.Windows.{back_window};
ghost use Rattle.ht_justify.specs.BackStates.{found_list};
ghost use Rattle.ht_justify.specs.Answers.{BackHolds, IsBack, answer_of};

use crate::back_windows::BackWindows;
use crate::cube::is_wanting;
use ht_items::Items;
use ht_net::{Circuit, Vectors};
use ht_search::{Outcome, search};
use ht_tern::Tern;
use ht_tree::Token;
use ht_window::Bases;
use std::alloc::{AllocError, Global};

/// What the justification of a cube comes to.
#[derive(Drop)]
pub enum Back {
    /// A list after which the good machine, from all-unknown, has the cube.
    Reached { list: Vectors },
    /// No list within the limit leads there: a complete back tree.
    Closed { tokens: Items<Token> },
    /// The budget was spent: an open back tree of as many tokens.
    Spent { tokens: Items<Token> },
}

// What the outcome of the search of some windows comes to: a list is read off where they stand.
fn answer(windows: &BackWindows, outcome: Outcome) -> Result<Back, AllocError>
    ensures { IfOk result (λ back. back ≡ answer_of (found_list windows.now) outcome) }
{
    match outcome {
        Outcome::Found { tokens: _ } => Ok(Back::Reached {
            list: windows.list()?,
        }),
        Outcome::Closed { tokens } => Ok(Back::Closed {
            tokens: Items::from_vec(tokens),
        }),
        Outcome::Spent { tokens } => Ok(Back::Spent {
            tokens: Items::from_vec(tokens),
        }),
    }
}

// The first window of a cube, with the bases for those under it.
fn begin<'c, 's>(
    alloc: Global,
    bases: &mut Bases<'c>,
    cube: &'s [Tern],
    limit: u32,
) -> Result<BackWindows<'c, 's>, AllocError>
    requires { length cube.now ≡ length bases.old.circuit.dffs }
    ensures circuit { bases.new.circuit ≡ bases.old.circuit }
    ensures windows { IfOk result (λ windows. windows ≡ record {
      first = back_window bases.old.circuit cube.now limit;
      above = [];
      decisions = [];
    }) }
{
    let own = bases.hand_over(alloc)?;
    let windows = BackWindows::new(alloc, own, cube, limit)?;
    Ok(windows)
}

// Searches from the first window of a cube that wants something.
fn search_back(alloc: Global, windows: &mut BackWindows, budget: u64) -> Result<Back, AllocError>
    requires { windows.old
        ≡ record { first = windows.old.first; above = []; decisions = [] } }
    ensures first { windows.new.first ≡ windows.old.first }
    ensures answer { IfOk result (λ back. (c : Netlist) (cube : List Tern) (limit : ℕ)
        → length cube ≡ length c.dffs → is_wanting cube ≡ true
        → windows.old.first ≡ back_window c cube limit
        → IsBack c cube limit budget back × BackHolds c cube limit budget back) }
{
    let outcome = search(alloc, windows, budget, 1)?;
    let back = answer(windows, outcome)?;
    Ok(back)
}

/// Searches back from a cube, which has a value for each flip-flop, unknown where none is wanted, for a list of at most
/// `limit` vectors that brings the good machine from all-unknown to it. The budget is the greatest number of tokens. A
/// cube that wants nothing is reached by the empty list.
///
/// # Errors
/// Out of memory.
pub fn justify(
    alloc: Global,
    circuit: &Circuit,
    cube: &[Tern],
    limit: u32,
    budget: u64,
) -> Result<Back, AllocError>
    requires { length cube.now ≡ length circuit.now.dffs }
    ensures answer { IfOk result (IsBack circuit.now cube.now limit budget) }
    ensures holds { IfOk result (BackHolds circuit.now cube.now limit budget) }
{
    let mut bases = Bases::new(alloc, circuit)?;
    let back = justify_from_bases(alloc, &mut bases, cube, limit, budget);
    // for the proof: dropped by name
    drop(bases);
    back
}

/// What `justify` does, with bases of its circuit, from which the windows are made.
///
/// # Errors
/// Out of memory; the bases may then be empty.
pub fn justify_from_bases(
    alloc: Global,
    bases: &mut Bases<'_>,
    cube: &[Tern],
    limit: u32,
    budget: u64,
) -> Result<Back, AllocError>
    requires { length cube.now ≡ length bases.old.circuit.dffs }
    ensures circuit { bases.new.circuit ≡ bases.old.circuit }
    ensures answer { IfOk result (IsBack bases.old.circuit cube.now limit budget) }
    ensures holds { IfOk result (BackHolds bases.old.circuit cube.now limit budget) }
{
    if !is_wanting(cube) {
        return Ok(Back::Reached {
            list: Vectors::new(alloc, bases.circuit().inputs()),
        });
    }
    let mut windows = begin(alloc, bases, cube, limit)?;
    let back = search_back(alloc, &mut windows, budget);
    bases.take_back(windows.into_bases());
    back
}
