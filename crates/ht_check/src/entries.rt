//! Entries that pass.
ghost use Rattle.std.specs.Prelude.{◌≡◌, ◌≤◌, ◌↔◌, IfOk, IsTrue};
ghost use Rattle.ht_tree.specs.declared.limits.TheConstants.{MAX_BUDGET};
ghost use Rattle.ht_net.specs.Detect.Detection.{IsStart};
ghost use Rattle.ht_tree.specs.Record.Entries.{Means, Passes};

use crate::abort_records::is_abort_record;
use crate::refutations::refutes;
use crate::refutations_from::refutes_from;
use ht_cubes::refuted;
use ht_families::closes_by_rows;
use ht_net::{Circuit, Fault};
use ht_recompute::KeptFrames;
use ht_tern::Tern;
use ht_tree::{Entry, MAX_BUDGET};
use std::alloc::{AllocError, Global};

/// Whether an entry passes for a fault and the stated start, which has a value for each flip-flop.
///
/// An untestable entry passes where its flip-flops rise and are the circuit's, and its tokens are a complete walk of
/// the one-frame window of the fault and these flip-flops; its walk may have any length, so the budget of the run plays
/// no part. A difference then can't leave the set, both machines give equal outputs from every common state, and no
/// list of vectors detects the fault from all-unknown (`IsUntestable`). Flip-flops count from 0.
///
/// An untestable entry from a state passes where its state and clauses are an invariant, and its tokens are a complete
/// walk of the one-frame window of the fault and its flip-flops under the clauses. Then every state of a run of the
/// good machine from the state meets the clauses, both machines give equal outputs from that state, and no list of
/// vectors detects the fault from all-unknown (`IsUntestableFrom`).
///
/// An undetectable entry by sets passes where its rows rise and are of the circuit's flip-flops, and the family that
/// they give with the start closes. One by cubes passes where its rails are known, the start avoids each cube, and its
/// steps show that no vector leads to a cube or to a difference at an output (`RefutesByCubes`). Then no list of vectors
/// detects the fault, from the start or from all-unknown (`IsUndetectable`). Entries of the other forms don't look at
/// the start.
///
/// An aborted entry passes where its frames are a told chain, and each of its searches closed or filled the budget: the
/// walk after the chain, the aim at the first frame, and the sweep (`IsAbortRecord`). Then each set that seals the
/// fault has the flip-flops that were told, and no list of fewer vectors than the sweep has walks detects it
/// (`AbortMeans`).
///
/// It evaluates a frame once for each told frame, and the frames of a window once for each token. It reserves for a
/// whole walk before it judges the first token of it.
///
/// # Errors
/// Out of memory.
pub fn entry(
    alloc: Global,
    circuit: &Circuit,
    start: &[Tern],
    fault: Fault,
    budget: u64,
    entry: &Entry,
) -> Result<bool, AllocError>
    requires start { IsStart circuit.now start.now }
    requires budget { budget ≤ MAX_BUDGET }
    ensures exact { IfOk result
        (λ passes. IsTrue passes ↔ Passes circuit.now start.now fault budget entry.now) }
    ensures sound { IfOk result
        (λ passes. IsTrue passes → Means circuit.now start.now fault entry.now) }
{
    let mut kept = KeptFrames::new(alloc, circuit)?;
    let passes = entry_by_frames(alloc, &mut kept, start, fault, budget, entry);
    // for the proof: dropped by name
    drop(kept);
    passes
}

/// Whether an entry passes for a fault of the circuit of frames that are kept, as `entry` says it. The frames of each
/// window settle from where they were in the window before, and an error may lose them, so that they are made again.
///
/// # Errors
/// Out of memory.
pub fn entry_by_frames(
    alloc: Global,
    kept: &mut KeptFrames,
    start: &[Tern],
    fault: Fault,
    budget: u64,
    entry: &Entry,
) -> Result<bool, AllocError>
    requires start { IsStart kept.old.circuit start.now }
    requires budget { budget ≤ MAX_BUDGET }
    ensures exact { IfOk result
        (λ passes. IsTrue passes ↔ Passes kept.old.circuit start.now fault budget entry.now) }
    ensures sound { IfOk result
        (λ passes. IsTrue passes → Means kept.old.circuit start.now fault entry.now) }
    ensures circuit { kept.new.circuit ≡ kept.old.circuit }
{
    // for the proof: the circuit is well formed
    let _ = kept.circuit();
    passes(alloc, kept, start, fault, budget, entry)
}

// Whether an entry passes, an arm for each form.
fn passes(
    alloc: Global,
    kept: &mut KeptFrames,
    start: &[Tern],
    fault: Fault,
    budget: u64,
    entry: &Entry,
) -> Result<bool, AllocError>
    requires start { IsStart kept.old.circuit start.now }
    requires budget { budget ≤ MAX_BUDGET }
    ensures exact { IfOk result
        (λ passes. IsTrue passes ↔ Passes kept.old.circuit start.now fault budget entry.now) }
    ensures circuit { kept.new.circuit ≡ kept.old.circuit }
{
    match entry {
        Entry::Untestable { z, tokens } => refutes(alloc, kept, fault, z, tokens),
        Entry::UntestableFrom {
            state,
            clauses,
            z,
            tokens,
        } => refutes_from(alloc, kept, fault, state, clauses, z, tokens),
        Entry::UndetectableBySets { rows } => {
            closes_by_rows(alloc, kept.circuit(), fault, start, rows.as_slice())
        },
        Entry::UndetectableByCubes { cubes, steps } => {
            let (cubes, steps) = (cubes.as_slice(), steps.as_slice());
            refuted(alloc, kept.circuit(), fault, start, cubes, steps)
        },
        Entry::Aborted {
            told,
            walk,
            aim,
            sweep,
        } => is_abort_record(alloc, kept, fault, budget, told, walk, aim, sweep),
    }
}
