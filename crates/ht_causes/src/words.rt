//! The machines of a frame, 64 in a word at a time.
ghost use Rattle.std.specs.Prelude.{◌≡◌, ◌<◌, ◌≤◌, ◌+◌, ◌*◌, [], ℕ, true, length, get_or, OnOk, IfOk, replicate};
ghost use Rattle.ht_faults.specs.Sites.{faults_of};
ghost use Rattle.ht_group.specs.GroupView.{AreLatches, GroupView, lane_count};
ghost use Rattle.ht_causes.specs.Tracks.{AreLeads, AreAdded, AreLatchesShown, AreOutputsShown, AreRun, IsGoodAlone, no_track, track_at};

use crate::cause::LatchPlace;
use crate::lanes::{note_latch, note_output};
use crate::track::Track;
use ht_faults::FaultList;
use ht_group::{Group, LANES};
use ht_net::{Circuit, Place};
use std::alloc::{AllocError, Global};

// Gives the next lanes the machines of the faults with these numbers, `count` from `from` on.
fn add_machines(
    group: &mut Group,
    faults: &FaultList,
    tracks: &[Track],
    leads: &[u32],
    from: usize,
    count: u32,
) -> Result<(), AllocError>
    requires none { group.old.machines ≡ [] }
    requires few { count ≤ lane_count }
    requires room { from + count ≤ length leads.now }
    requires faults { faults.now ≡ faults_of group.old.circuit }
    requires tracks { length tracks.now ≡ length faults.now }
    requires leads { AreLeads leads.now (length faults.now) }
    requires known { (i : ℕ) → AreLatches group.old.circuit (track_at tracks.now i).diffs }
    ensures added { OnOk result (AreAdded group.old.circuit group.old.vector group.old.latches
        tracks.now leads.now from count group.new) }
{
    for k in 0..count {
        let i = leads[from + k as usize];
        group.add(faults.get(i), &tracks[i as usize].diffs)?;
    }
    Ok(())
}

// Compares what the good machine and the others show at each output of vector `t`.
fn compare_outputs(
    circuit: &Circuit,
    group: &Group,
    t: u64,
    from: usize,
    count: u32,
    shown: &mut [Track],
)
    requires circuit { group.now.circuit ≡ circuit.now }
    requires settled { group.now.settled ≡ true }
    requires count { length group.now.machines ≡ count }
    requires some { 0 < count }
    requires few { count ≤ lane_count }
    requires room { from + count ≤ length shown.old }
    ensures { AreOutputsShown group.now t (length circuit.now.outputs) from count shown.old
        shown.new }
{
    for o in 0..circuit.outputs() {
        let place = Place {
            vector: t,
            output: o,
        };
        let good = group.good_output(o);
        note_output(place, good, group.shown(0, o), from, count, shown);
    }
}

// Compares what they hold in each flip-flop after vector `t`.
fn compare_latches(
    circuit: &Circuit,
    group: &Group,
    t: u64,
    from: usize,
    count: u32,
    shown: &mut [Track],
) -> Result<(), AllocError>
    requires circuit { group.now.circuit ≡ circuit.now }
    requires settled { group.now.settled ≡ true }
    requires count { length group.now.machines ≡ count }
    requires some { 0 < count }
    requires few { count ≤ lane_count }
    requires room { from + count ≤ length shown.old }
    requires empty { (k : ℕ) → k < count → (track_at shown.old (from + k)).diffs ≡ [] }
    ensures { OnOk result (AreLatchesShown group.now t (length circuit.now.dffs) from count
        shown.old shown.new) }
{
    for j in 0..circuit.dffs() {
        let place = LatchPlace { vector: t, dff: j };
        let good = group.good_next(j);
        note_latch(place, good, group.next(0, j), from, count, shown)?;
    }
    Ok(())
}

// Runs the machines of the faults that lead lanes, `count` from `from` on, through the frame of vector `t`.
fn run_word(
    circuit: &Circuit,
    group: &mut Group,
    faults: &FaultList,
    tracks: &[Track],
    leads: &[u32],
    t: u64,
    from: usize,
    count: u32,
    shown: &mut [Track],
) -> Result<(), AllocError>
    requires circuit { group.old.circuit ≡ circuit.now }
    requires none { group.old.machines ≡ [] }
    requires some { 0 < count }
    requires few { count ≤ lane_count }
    requires room { from + count ≤ length leads.now }
    requires faults { faults.now ≡ faults_of circuit.now }
    requires tracks { length tracks.now ≡ length faults.now }
    requires leads { AreLeads leads.now (length faults.now) }
    requires known { (i : ℕ) → AreLatches circuit.now (track_at tracks.now i).diffs }
    requires shown { AreRun circuit.now group.old.vector group.old.latches tracks.now leads.now t
        from shown.old }
    ensures run { OnOk result (AreRun circuit.now group.old.vector group.old.latches tracks.now
        leads.now t (from + count) shown.new) }
    ensures frame { OnOk result (IsGoodAlone circuit.now group.old.vector group.old.latches
        group.new) }
{
    add_machines(group, faults, tracks, leads, from, count)?;
    let _ = group.settle()?;
    compare_outputs(circuit, group, t, from, count, shown);
    compare_latches(circuit, group, t, from, count, shown)?;
    group.clear();
    Ok(())
}

/// So many machines of which nothing is kept.
///
/// # Errors
/// Out of memory.
pub fn empty_tracks(alloc: Global, count: usize) -> Result<Vec<Track>, AllocError>
    ensures { IfOk result (λ tracks. tracks.items ≡ replicate count no_track) }
{
    let mut tracks = Vec::with_capacity(alloc, count)?;
    for _ in 0..count {
        tracks.push(Track::none(alloc))?;
    }
    Ok(tracks)
}

// How many lanes the next word takes.
fn next_count(from: usize, leads: usize) -> u32
    requires { from < leads }
    ensures some { 0 < result }
    ensures few { result ≤ lane_count }
    ensures room { from + result ≤ leads }
{
    (leads - from).min(LANES as usize) as u32
}

/// Runs the machines of the faults that lead lanes through the frame of vector `t`, which the group has begun.
///
/// # Errors
/// Out of memory.
pub fn run_leads(
    alloc: Global,
    circuit: &Circuit,
    group: &mut Group,
    faults: &FaultList,
    tracks: &[Track],
    leads: &[u32],
    t: u64,
) -> Result<Vec<Track>, AllocError>
    requires circuit { group.old.circuit ≡ circuit.now }
    requires none { group.old.machines ≡ [] }
    requires faults { faults.now ≡ faults_of circuit.now }
    requires tracks { length tracks.now ≡ length faults.now }
    requires leads { AreLeads leads.now (length faults.now) }
    requires known { (i : ℕ) → AreLatches circuit.now (track_at tracks.now i).diffs }
    ensures run { IfOk result (λ shown. AreRun circuit.now group.old.vector group.old.latches
        tracks.now leads.now t (length leads.now) shown.items) }
    ensures frame { OnOk result (IsGoodAlone circuit.now group.old.vector group.old.latches
        group.new) }
{
    let mut shown = empty_tracks(alloc, leads.len())?;
    let mut from = 0;
    while from < leads.len() {
        let count = next_count(from, leads.len());
        run_word(
            circuit, group, faults, tracks, leads, t, from, count, &mut shown,
        )?;
        from += count as usize;
    }
    Ok(shown)
}
