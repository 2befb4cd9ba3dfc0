//! What the latches of a window's first frame are.
ghost use Rattle.std.specs.Prelude.{◌≡◌, ◌<◌, ◌≤◌, ◌+◌, ◌*◌, ℕ, List, [], length, get_or, false, IfOk};
ghost use Rattle.ht_tree.specs.Window.Decisions.{is_in};
ghost use Rattle.ht_tree.specs.Window.Variables.{is_faulty_latch};
ghost use Rattle.ht_recompute.specs.WindowStarts.{IsStartOf, first_latch_by, window_start, state_sets};
ghost use Rattle.ht_recompute.specs.Differences.{differences_in};

use crate::differences::{Differences, state_differences};
use ht_net::Circuit;
use ht_pairs::PairSet;
use ht_tern::Tern;
use std::alloc::{AllocError, Global};

/// What is known of the latches of a window's first frame. The lists have an entry for each flip-flop, in order.
#[derive(Drop)]
pub enum WindowStart<'c> {
    /// Two states that may differ at the flip-flops of z, which are marked, and nowhere else.
    OneFrame {
        z: &'c [u32],
        marks: Vec<bool>,
    },
    /// Every latch is unknown.
    Unknown,
    /// A state of each machine.
    States {
        good: &'c [Tern],
        faulty: &'c [Tern],
    },
    /// Nothing of the good machine's latches. After the frame they are to have the cube's values, where it wants one,
    /// and at most `limit` frames may lead there.
    Back {
        cube: &'c [Tern],
        limit: u32,
    },
}

/// Which of the frames that are kept is the first one of a window. Any would do. Windows that start alike have the same
/// one: where a frame gets the latches of another kind of start, nearly all its gates are evaluated.
pub fn first_kept(start: &WindowStart) -> u32 {
    match start {
        WindowStart::OneFrame { z: _, marks: _ } => 0,
        WindowStart::Back { cube: _, limit: _ } => 1,
        WindowStart::Unknown | WindowStart::States { good: _, faulty: _ } => 2,
    }
}

// The set of latch j of `count`. Variable first + j decides it, and variable first + count + j its faulty half.
fn first_latch(
    start: &WindowStart,
    decisions: &[Option<Tern>],
    first: usize,
    count: usize,
    j: usize,
) -> PairSet
    requires start { IsStartOf start.now count }
    requires inside { j < count }
    requires room { first + 2 * count ≤ length decisions.now }
    ensures { result ≡ first_latch_by (window_start start.now) decisions.now first count j }
{
    match start {
        WindowStart::OneFrame { z: _, marks } => {
            if marks[j] {
                PairSet::independent(decisions[first + j], decisions[first + count + j])
            } else {
                PairSet::same(decisions[first + j])
            }
        },
        WindowStart::Unknown => PairSet::single(Tern::Unk, Tern::Unk),
        WindowStart::States { good, faulty } => PairSet::single(good[j], faulty[j]),
        WindowStart::Back { cube: _, limit: _ } => match decisions[first + j] {
            Some(value) => PairSet::single(value, value),
            None => PairSet::same_or_unknown(),
        },
    }
}

/// Gives each latch its set. The latches have the variables from `first` on.
pub fn write_latches(
    start: &WindowStart,
    decisions: &[Option<Tern>],
    first: usize,
    latches: &mut [PairSet],
)
    requires start { IsStartOf start.now (length latches.old) }
    requires room { first + 2 * length latches.old ≤ length decisions.now }
    ensures { (j : ℕ) → j < length latches.old → get_or latches.new j []
        ≡ first_latch_by (window_start start.now) decisions.now first (length latches.old) j }
{
    let count = latches.len();
    for j in 0..count {
        latches[j] = first_latch(start, decisions, first, count, j);
    }
}

/// A mark for each of so many flip-flops: whether it is in z.
///
/// # Errors
/// Out of memory.
pub fn marks_of(alloc: Global, z: &[u32], count: usize) -> Result<Vec<bool>, AllocError>
    requires { (i : ℕ) → i < length z.now → get_or z.now i 0 < count }
    ensures count { IfOk result (λ marks. length marks.items ≡ count) }
    ensures marks { IfOk result (λ marks. (j : ℕ) → get_or marks.items j false ≡ is_in z.now j) }
{
    let mut marks = vec![in alloc; false; count]?;
    for j in z {
        marks[*j as usize] = true;
    }
    Ok(marks)
}

/// Whether a variable is that of the faulty half of a flip-flop that is marked.
pub fn is_faulty_latch(circuit: &Circuit, marks: &[bool], var: u32) -> bool
    requires { length marks.now ≡ length circuit.now.dffs }
    ensures { (z : List ℕ) → ((j : ℕ) → get_or marks.now j false ≡ is_in z j)
        → result ≡ is_faulty_latch circuit.now z var }
{
    // for the proof: the numbers of nets fit
    let _ = circuit.nets();
    let first = circuit.inputs() + circuit.dffs();
    if var < first {
        return false;
    }
    let j = var - first;
    j < circuit.dffs() && marks[j as usize]
}

/// What the next states show that count as places: those outside the set of a one-frame window.
pub fn states_show(start: &WindowStart, latches: &[PairSet]) -> Differences
    requires { IsStartOf start.now (length latches.now) }
    ensures { result ≡ differences_in (state_sets start.now latches.now) }
{
    match start {
        WindowStart::OneFrame { z: _, marks } => state_differences(marks, latches),
        WindowStart::Unknown | WindowStart::States { good: _, faulty: _ } => Differences::none(),
        WindowStart::Back { cube: _, limit: _ } => Differences::none(),
    }
}
