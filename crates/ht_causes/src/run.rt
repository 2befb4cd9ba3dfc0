//! All faults beside the good machine, vector by vector.
ghost use Rattle.std.specs.Prelude.{◌≡◌, ◌<◌, ◌+◌, ◌⊎◌, [], ℕ, List, Bool, None, Some, true, false, length, get_or, replicate, OnOk, IfOk, IsFalse, IsTrue};
ghost use Rattle.std.specs.Option.{is_none};
ghost use Rattle.ht_tern.specs.declared.tern.Tern as tern;
ghost use Rattle.ht_net.specs.Detect.Detection.{IsStart, terns_of};
ghost use Rattle.ht_faults.specs.Sites.{faults_of};
ghost use Rattle.ht_faults.specs.Classes.{AreClasses, fault_at, is_representative};
ghost use Rattle.ht_stems.specs.Arrivals.{net_of_line};
ghost use Rattle.ht_stems.specs.ArrivedFrames.{AreGoodValues};
ghost use Rattle.ht_stems.specs.ArrivalsView.{good_of_net};
ghost use Rattle.ht_group.specs.NetValues.{good_value};
ghost use Rattle.ht_causes.specs.Causes.{AreCauses};
ghost use Rattle.ht_causes.specs.Kept.{LineIsRead};
ghost use Rattle.ht_causes.specs.Tracks.{IsVectorAt, flag_at, lane_of, AreFaultsNoted, AreFlags, HasRun, IsRunReady, no_track, shown_in, track_at, with_frame};

use crate::assign::{Lanes, assign_lanes};
use crate::cause::Cause;
use crate::compare::{good_value, read_latches};
use crate::line::net_of_line;
use crate::track::Track;
use crate::words::{empty_tracks, run_leads};
use ht_faults::{Classes, FaultList};
use ht_group::Group;
use ht_net::Circuit;
use ht_proofs::Firsts;
use ht_stems::Arrivals;
use ht_tern::Tern;
use std::alloc::{AllocError, Global};

/// The good machine and those of the faults, and what is kept of each after the vectors so far.
#[derive(Drop)]
pub struct Run<'c> {
    pub group: Group<'c>,
    pub arrivals: Arrivals<'c>,
    /// By the number of the net, the lanes that led there in the last frame.
    pub firsts: Vec<Firsts>,
    /// The latches of the good machine.
    pub latches: Vec<Tern>,
    /// Whether each fault is simulated: a representative that isn't detected.
    pub live: Vec<bool>,
    /// Whether what the line of each fault carries changes nothing more, since the fault was excited.
    pub read: Vec<bool>,
    /// Whether the machine of each fault holds the good latches; where it doesn't say so, it may.
    pub holds: Vec<bool>,
    pub tracks: Vec<Track>,
    /// In which nothing is kept.
    pub nothing: Track,
}

// What is kept of a lane, and nothing where a fault has none.
fn shown_in<'a>(shown: &'a [Track], nothing: &'a Track, lane: Option<usize>) -> &'a Track
    requires known { (l : ℕ) → lane ≡ Some l → l < length shown.now }
    requires nothing { nothing.now ≡ no_track }
    ensures { result.now ≡ shown_in shown.now lane }
{
    match lane {
        Some(l) => &shown[l],
        None => nothing,
    }
}

// Notes what fault `i` shows at vector `t`, and what its line carries, and then whether it is simulated on, whether its
// line was read, and whether its machine holds the good latches.
fn note_fault(
    circuit: &Circuit,
    group: &Group,
    faults: &FaultList,
    i: u32,
    t: u64,
    shown: &Track,
    track: &mut Track,
    live: &mut bool,
    read: &mut bool,
    holds: &mut bool,
) -> Result<(), AllocError>
    requires circuit { group.now.circuit ≡ circuit.now }
    requires faults { faults.now ≡ faults_of circuit.now }
    requires known { i < length faults.now }
    ensures noted { OnOk result (track.new ≡ with_frame t
        (good_value group.now (net_of_line circuit.now (fault_at circuit.now i).site).0)
        (fault_at circuit.now i).value shown.now track.old) }
    ensures live { OnOk result (live.new ≡ is_none track.new.kept.detected) }
    ensures read { OnOk result (read.new ≡ true → LineIsRead track.new.kept) }
    ensures holds { OnOk result (holds.new ≡ true → track.new.diffs ≡ []) }
{
    let fault = faults.get(i);
    let net = net_of_line(circuit, fault.site);
    track.note_frame(t, good_value(group, net), fault.value, shown)?;
    *live = track.kept.detected.is_none();
    *read = track.kept.is_read();
    *holds = track.diffs.entries().is_empty();
    Ok(())
}

// Whether a frame may change what is kept of a fault: it is simulated, and its line has to be read or its machine acts
// otherwise than the good one. Most faults are not due in most frames, and what is kept of them is then not fetched.
fn is_due(live: bool, read: bool, lane: Option<usize>) -> bool
    ensures due { IsTrue result → live ≡ true }
    ensures calm { IsFalse result → (live ≡ false) ⊎ ((read ≡ true) × (lane ≡ None)) }
{
    live && !(read && lane.is_none())
}

// Notes what each fault that is simulated shows at vector `t`. One that is detected is simulated no more.
fn note_faults(
    circuit: &Circuit,
    group: &Group,
    faults: &FaultList,
    t: u64,
    lanes: &[Option<usize>],
    shown: &[Track],
    nothing: &Track,
    live: &mut [bool],
    read: &mut [bool],
    holds: &mut [bool],
    tracks: &mut [Track],
) -> Result<(), AllocError>
    requires circuit { group.now.circuit ≡ circuit.now }
    requires faults { faults.now ≡ faults_of circuit.now }
    requires lanes { length lanes.now ≡ length faults.now }
    requires live { length live.old ≡ length faults.now }
    requires read { length read.old ≡ length faults.now }
    requires holds { length holds.old ≡ length faults.now }
    requires tracks { length tracks.old ≡ length faults.now }
    requires known { (i l : ℕ) → flag_at live.old i ≡ true → lane_of lanes.now i ≡ Some l
        → l < length shown.now }
    requires calm { (i : ℕ) → i < length faults.now → flag_at live.old i ≡ true
        → lane_of lanes.now i ≡ None → (track_at tracks.old i).diffs ≡ [] }
    requires nothing { nothing.now ≡ no_track }
    requires kept { AreFlags live.old read.old holds.old tracks.old }
    ensures noted { OnOk result (AreFaultsNoted circuit.now group.now t lanes.now shown.now
        (length faults.now) live.old tracks.old live.new tracks.new) }
    ensures kept { OnOk result (AreFlags live.new read.new holds.new tracks.new) }
    ensures read { length read.new ≡ length read.old }
    ensures holds { length holds.new ≡ length holds.old }
{
    for i in 0..faults.len() {
        let k = i as usize;
        if is_due(live[k], read[k], lanes[k]) {
            let seen = shown_in(shown, nothing, lanes[k]);
            note_fault(
                circuit,
                group,
                faults,
                i,
                t,
                seen,
                &mut tracks[k],
                &mut live[k],
                &mut read[k],
                &mut holds[k],
            )?;
        }
    }
    Ok(())
}

// Which faults are simulated before the first vector: the representatives.
fn find_live(alloc: Global, faults: &FaultList, classes: &Classes) -> Result<Vec<bool>, AllocError>
    requires { length classes.now ≡ length faults.now }
    ensures count { IfOk result (λ live. length live.items ≡ length faults.now) }
    ensures each { IfOk result (λ live. (i : ℕ) → i < length faults.now
        → flag_at live.items i ≡ is_representative classes.now i) }
{
    let mut live = Vec::new(alloc);
    for i in 0..faults.len() {
        live.push(classes.of(i) == i)?;
    }
    Ok(live)
}

// So many flags with this value.
fn new_flags(alloc: Global, count: usize, value: bool) -> Result<Vec<bool>, AllocError>
    ensures { IfOk result (λ flags. flags.items ≡ replicate count value) }
{
    let mut flags = Vec::with_capacity(alloc, count)?;
    flags.resize(count, value)?;
    Ok(flags)
}

impl<'c> Run<'c> {
    /// All machines before the first vector, with these values in their flip-flops.
    ///
    /// # Errors
    /// Out of memory.
    pub fn new(
        alloc: Global,
        circuit: &'c Circuit,
        faults: &FaultList,
        classes: &Classes,
        start: &[Tern],
    ) -> Result<Run<'c>, AllocError>
        requires faults { faults.now ≡ faults_of circuit.now }
        requires classes { AreClasses circuit.now classes.now }
        requires latches { IsStart circuit.now start.now }
        ensures ready { IfOk result (λ run. IsRunReady circuit.now run) }
        ensures begun { IfOk result (λ run. (list : List (List Bool))
            → HasRun circuit.now classes.now start.now list 0 run) }
    {
        let latches = Vec::from_slice(alloc, start)?;
        let live = find_live(alloc, faults, classes)?;
        let read = new_flags(alloc, faults.len() as usize, false)?;
        let holds = new_flags(alloc, faults.len() as usize, true)?;
        let tracks = empty_tracks(alloc, faults.len() as usize)?;
        let firsts = vec![in alloc; Firsts::none(); circuit.nets() as usize]?;
        let group = Group::new(alloc, circuit)?;
        match Arrivals::of(alloc, circuit, group.good_values()) {
            Ok(arrivals) => Ok(Run {
                group,
                arrivals,
                firsts,
                latches,
                live,
                read,
                holds,
                tracks,
                nothing: Track::none(alloc),
            }),
            Err(error) => {
                // for the proof: dropped by name
                drop(group);
                Err(error)
            }
        }
    }

    /// Runs all machines through one vector more, of which the number is `t`.
    ///
    /// # Errors
    /// Out of memory; then what is kept has no meaning.
    pub fn apply(
        &mut self,
        alloc: Global,
        circuit: &Circuit,
        faults: &FaultList,
        vector: &[bool],
        t: u64,
    ) -> Result<(), AllocError>
        requires ready { IsRunReady circuit.now self.old }
        requires faults { faults.now ≡ faults_of circuit.now }
        requires width { length vector.now ≡ circuit.now.inputs }
        ensures ready { OnOk result (IsRunReady circuit.now self.new) }
        ensures run { OnOk result ((representatives : List ℕ) (start : List tern.Tern)
            (list : List (List Bool)) → t < length list → IsVectorAt list t vector.now
            → HasRun circuit.now representatives start list t self.old
            → HasRun circuit.now representatives start list (t + 1) self.new) }
    {
        self.group.start(vector, &self.latches);
        self.arrivals.refill(self.group.good_values());
        let lanes = assign_lanes(
            alloc,
            &mut self.arrivals,
            &mut self.firsts,
            faults,
            &self.live,
            &self.holds,
            &self.tracks,
        )?;
        let shown = run_leads(
            alloc,
            circuit,
            &mut self.group,
            faults,
            &self.tracks,
            &lanes.leads,
            t,
        )?;
        note_faults(
            circuit,
            &self.group,
            faults,
            t,
            &lanes.by_fault,
            &shown,
            &self.nothing,
            &mut self.live,
            &mut self.read,
            &mut self.holds,
            &mut self.tracks,
        )?;
        read_latches(circuit, &self.group, &mut self.latches);
        Ok(())
    }
}
