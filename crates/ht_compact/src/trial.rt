//! A trial: whether a list without a run of vectors detects each wanted fault. It begins where the lists differ, and
//! ends where the machines hold again what they held.
ghost use Rattle.std.specs.Prelude.{◌≡◌, ◌<◌, ◌≤◌, IsTrue, IsFalse, None, length, IfOk, OnOk};
ghost use Rattle.std.specs.List.{All};
ghost use Rattle.std.specs.Option.{ForSome};
ghost use Rattle.ht_compact.specs.Kept.{without_run};
ghost use Rattle.ht_compact.specs.Compacts.{MissesOne};
ghost use Rattle.ht_compact.specs.DetectedFaults.{IsMissed};
ghost use Rattle.ht_compact.specs.GradedLists.{AreGradedVectors, AreOpenBelow, IsGradedWithout, IsOpenFrom, MayRun, shorter};
ghost use Rattle.ht_compact.specs.Runs.{MayHavePushed};

use crate::graded::GradedVectors;
use crate::history::History;
use crate::part::Part;
use crate::recent::Recent;
use crate::runners::Runners;
use ht_net::Circuit;
use ht_proofs::FrameGrader;
use std::alloc::{AllocError, Global};

// How many faults are tried before all others: those of one group.
const MAX_HARD: usize = 64;

// Adds fault `k` to those that are tried first, if no vector before `from` detects it, it isn't among them and there is
// room.
fn push_hard(
    hard: &mut Vec<usize>,
    histories: &[History],
    from: u64,
    k: usize,
) -> Result<(), AllocError>
    requires { All (IsOpenFrom histories.now from) hard.old.items }
    ensures { All (IsOpenFrom histories.now from) hard.new.items }
{
    if hard.len() < MAX_HARD
        && k < histories.len()
        && from < histories[k].len() as u64
        && !hard.contains(&k)
    {
        hard.push(k)?;
    }
    Ok(())
}

// Adds the faults that the vectors of the part are the first to detect.
fn push_detected(hard: &mut Vec<usize>, histories: &[History], part: Part) -> Result<(), AllocError>
    requires { All (IsOpenFrom histories.now part.from) hard.old.items }
    ensures { All (IsOpenFrom histories.now part.from) hard.new.items }
{
    for k in 0..histories.len() {
        if histories[k].len() as u64 <= part.to {
            push_hard(hard, histories, part.from, k)?;
        }
    }
    Ok(())
}

// The faults that are tried first, for one of them is lost in most trials that lose one: those that were lost in the
// latest trials, and those that the vectors of the part are the first to detect. The order decides nothing but the time.
fn hard_faults(
    alloc: Global,
    histories: &[History],
    recent: &Recent,
    part: Part,
) -> Result<Vec<usize>, AllocError>
    ensures { IfOk result (λ hard. All (IsOpenFrom histories.now part.from) hard.items) }
{
    let mut hard = Vec::new(alloc);
    'recent: for k in recent.places().iter().rev() {
        push_hard(&mut hard, histories, part.from, *k)?;
    }
    push_detected(&mut hard, histories, part)?;
    Ok(hard)
}

// Adds fault `k`, if no vector before `from` detects it.
fn push_open(
    which: &mut Vec<usize>,
    history: &History,
    from: u64,
    k: usize,
) -> Result<(), AllocError>
    ensures { OnOk result
        (MayHavePushed history.now from k which.old.items which.new.items) }
{
    if from == 0 || from < history.len() as u64 {
        which.push(k)?;
    }
    Ok(())
}

// The faults that no vector before `from` detects, rising. From the first vector on these are all.
fn open_faults(alloc: Global, histories: &[History], from: u64) -> Result<Vec<usize>, AllocError>
    ensures { IfOk result (λ which.
        AreOpenBelow histories.now from (length histories.now) which.items) }
{
    let mut which = Vec::new(alloc);
    for k in 0..histories.len() {
        push_open(&mut which, &histories[k], from, k)?;
    }
    Ok(which)
}

// Runs the shorter list over some of the wanted faults, and gives one that it misses.
fn lost_among(
    alloc: Global,
    circuit: &Circuit,
    frame: &mut FrameGrader,
    graded: &GradedVectors,
    part: Part,
    hard: &[usize],
) -> Result<Option<usize>, AllocError>
    requires circuit { frame.old.group.circuit ≡ circuit.now }
    requires may { MayRun circuit.now graded.now part.from part.to }
    requires hard { All (IsOpenFrom graded.now.histories.items part.from) hard.now }
    ensures circuit { OnOk result (frame.new.group.circuit ≡ circuit.now) }
    ensures lost { IfOk result (λ lost. ForSome lost (IsMissed circuit.now graded.now.wanted.items
        (shorter graded.now part.from part.to))) }
{
    if hard.is_empty() {
        return Ok(None);
    }
    let mut run = Runners::take_up(alloc, circuit, graded, part, hard)?;
    let lost = run.run(alloc, frame, graded, part)?;
    Ok(lost)
}

/// Runs a list without a part of its vectors over all wanted faults that no vector before detects, and leaves the part
/// out unless one of them is lost, which is given.
///
/// # Errors
///
/// `AllocError`: out of memory; then what is kept has no meaning.
pub fn leave_out_unless_lost(
    alloc: Global,
    circuit: &Circuit,
    frame: &mut FrameGrader,
    graded: &mut GradedVectors,
    part: Part,
) -> Result<Option<usize>, AllocError>
    requires circuit { frame.old.group.circuit ≡ circuit.now }
    requires may { MayRun circuit.now graded.old part.from part.to }
    requires all { 0 < part.from → AreGradedVectors circuit.now graded.old }
    ensures circuit { OnOk result (frame.new.group.circuit ≡ circuit.now) }
    ensures left_out { IfOk result (λ lost. lost ≡ None
        → IsGradedWithout circuit.now graded.old part.from part.to graded.new) }
    ensures same { IfOk result (λ lost. ForSome lost (λ k. graded.new ≡ graded.old)) }
    ensures lost { IfOk result (λ lost. ForSome lost (IsMissed circuit.now graded.old.wanted.items
        (shorter graded.old part.from part.to))) }
{
    let all = open_faults(alloc, &graded.histories, part.from)?;
    let mut run = Runners::take_up(alloc, circuit, graded, part, &all)?;
    let lost = run.run(alloc, frame, graded, part)?;
    if lost.is_some() {
        return Ok(lost);
    }
    graded.leave_out(alloc, circuit, part, run)?;
    Ok(None)
}

/// Leaves the vectors of a part out, unless a fault is lost with them, and says whether it did. Those among which one is
/// likely to be lost run first and alone, so that a trial that loses it ends there.
///
/// # Errors
///
/// `AllocError`: out of memory; then what is kept has no meaning.
pub fn leave_out_part(
    alloc: Global,
    circuit: &Circuit,
    frame: &mut FrameGrader,
    graded: &mut GradedVectors,
    recent: &mut Recent,
    part: Part,
) -> Result<bool, AllocError>
    requires circuit { frame.old.group.circuit ≡ circuit.now }
    requires graded { AreGradedVectors circuit.now graded.old }
    requires order { part.from < part.to }
    requires inside { part.to ≤ length graded.old.vectors.list }
    ensures circuit { OnOk result (frame.new.group.circuit ≡ circuit.now) }
    ensures left_out { IfOk result (λ is_out. IsTrue is_out
        → IsGradedWithout circuit.now graded.old part.from part.to graded.new) }
    ensures same { IfOk result (λ is_out. IsFalse is_out → graded.new ≡ graded.old) }
    ensures lost { IfOk result (λ is_out. IsFalse is_out → MissesOne circuit.now
        graded.old.wanted.items (without_run graded.old.vectors.list part.from part.to)) }
{
    let hard = hard_faults(alloc, &graded.histories, recent, part)?;
    if let Some(k) = lost_among(alloc, circuit, frame, graded, part, &hard)? {
        recent.note(k)?;
        return Ok(false);
    }
    if let Some(k) = leave_out_unless_lost(alloc, circuit, frame, graded, part)? {
        recent.note(k)?;
        return Ok(false);
    }
    Ok(true)
}
