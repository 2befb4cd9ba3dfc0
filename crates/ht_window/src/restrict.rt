//! The nets that matter to a window of a fault.
ghost use Rattle.std.specs.Prelude.{◌≡◌, ◌<◌, ◌≤◌, ℕ, false, not, Some, None, get_or, IfOk, OnOk};
ghost use Rattle.ht_net.specs.Circuit.Netlist.{Netlist};
ghost use Rattle.ht_tree.specs.Window.Windows.{IsWindow};
ghost use Rattle.ht_relevant.specs.Near.{matters};
ghost use Rattle.ht_relevant.specs.Relevant.{IsRelevant};
ghost use Rattle.ht_tern.specs.declared.tern.Tern.TheVariants.{Unk};
ghost use Rattle.ht_pairs.specs.Pairs.{same_tern};
ghost use Rattle.ht_window.specs.Matters.{is_relevant};

use crate::decisions::{Decisions, is_set, value_at};
use crate::held::Held;
use crate::start::Start;
use ht_events::{FramePlan, MAX_FRAMES};
use ht_net::{Circuit, Fault};
use ht_relevant::{Relevant, find_relevant};
use ht_tern::Tern;
use std::alloc::{AllocError, Global};

// The fewest nets of a circuit in which finding those that matter takes less time than it saves. In plain Rust the
// windows of `gen` evaluate 0.35 times the cells over 6,000 gates and 0.15 times over 12,000, in 0.60 and 0.36 times
// the seconds (docs/MEASURED.md).
const FEWEST_NETS: u32 = 4_000;

/// Whether a circuit is too small for finding the nets that matter to save time.
pub fn is_small(circuit: &Circuit) -> bool {
    circuit.nets() < FEWEST_NETS
}

// A mark for each flip-flop at which two states differ.
fn differences(
    alloc: Global,
    good: &[Tern],
    bad: &[Tern],
    dffs: u32,
) -> Result<Vec<bool>, AllocError>
    ensures { IfOk result (λ marks. (j : ℕ) → j < dffs
        → get_or marks.items j false
        ≡ not (same_tern (get_or good.now j Unk) (get_or bad.now j Unk))) }
{
    let mut marks = Vec::with_capacity(alloc, dffs as usize)?;
    for j in 0..dffs {
        marks.push(value_at(good, j) != value_at(bad, j))?;
    }
    Ok(marks)
}

// A mark for each flip-flop outside a set.
fn outside(alloc: Global, z: &[bool], dffs: u32) -> Result<Vec<bool>, AllocError>
    ensures { IfOk result (λ marks. (j : ℕ) → j < dffs
        → get_or marks.items j false ≡ not (get_or z.now j false)) }
{
    let mut marks = Vec::with_capacity(alloc, dffs as usize)?;
    for j in 0..dffs {
        marks.push(!is_set(z, j))?;
    }
    Ok(marks)
}

// The nets that matter to a window of a fault.
fn relevant_to(
    alloc: Global,
    decisions: &Decisions,
    frame_plan: &FramePlan,
    fault: Fault,
) -> Result<Relevant, AllocError>
    requires circuit { frame_plan.now.circuit ≡ decisions.now.window.circuit }
    requires fault { decisions.now.window.fault ≡ Some fault }
    requires few { decisions.now.window.frames ≤ MAX_FRAMES }
    ensures { IfOk result (λ r. IsRelevant decisions.now.window (matters r)) }
{
    // for the proof: the window is well formed
    let _ = decisions.circuit();
    let frames = decisions.frames();
    match decisions.start() {
        Start::OneFrame { z } => {
            let counted = outside(alloc, z.as_slice(), decisions.dffs())?;
            find_relevant(alloc, frame_plan, frames, fault, z.as_slice(), &counted)
        },
        Start::Pair { state } => {
            let good = state.good.as_slice();
            let apart = differences(alloc, good, state.bad.as_slice(), decisions.dffs())?;
            find_relevant(alloc, frame_plan, frames, fault, &apart, &[])
        },
        Start::Unknown | Start::Back { cube: _, limit: _ } => find_relevant(
            alloc,
            frame_plan,
            frames,
            fault,
            &[],
            &[],
        ),
    }
}

/// Leaves to a window of a fault the nets that matter. To one of the good machine all do, and in a small circuit they
/// are not looked for.
///
/// # Errors
/// Out of memory; nothing is changed.
pub fn restrict(alloc: Global, frame_plan: &FramePlan, held: &mut Held) -> Result<(), AllocError>
    requires circuit { frame_plan.now.circuit ≡ held.old.standing.window.circuit }
    requires whole { held.old.relevant ≡ None }
    ensures standing { held.new.standing ≡ held.old.standing }
    ensures cells { held.new.cells ≡ held.old.cells }
    ensures relevant { OnOk result (IsRelevant held.old.standing.window
        (is_relevant held.new.relevant)) }
    ensures good { held.old.standing.window.fault ≡ None → held.new.relevant ≡ None }
{
    let decisions = held.decisions();
    let Some(fault) = decisions.fault() else {
        return Ok(());
    };
    if is_small(decisions.circuit()) {
        return Ok(());
    }
    let relevant = relevant_to(alloc, decisions, frame_plan, fault)?;
    held.restrict(relevant);
    Ok(())
}
