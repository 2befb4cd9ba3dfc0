//! The machines of a word, one a lane.
ghost use Rattle.std.specs.Prelude.{◌≡◌, ◌≢◌, ◌<◌, ◌+◌, ◌&&◌, ◌==◌, [], ℕ, Some, true, false, length, get_or, set, if◌then◌else◌, IfOk, OnOk, OnErr};
ghost use Rattle.ht_net.specs.Circuit.Netlist.{first_gate_net, net_count};
ghost use Rattle.ht_group.specs.GoodFrames.{HasFrameRoom};
ghost use Rattle.ht_group.specs.GroupView.{AreLatches, HasSite, lane_count};
ghost use Rattle.ht_group.specs.LatchWords.{HasDifferences};
ghost use Rattle.ht_group.specs.LaneRules.{in_lane, lane_env};
ghost use Rattle.ht_group.specs.MachineWords.{AreSameMachines, HasOneMore, HasSame, HasWordRoom, IsMachineAdded, IsBare, IsLaidOver, IsWordIn, machine_but};
ghost use Rattle.ht_group.specs.Overlays.{IsSpread};
ghost use Rattle.ht_group.specs.SharedFrames.{IsMorePending, IsSharedFrame};
ghost use Rattle.ht_events.specs.Schedules.{IsSchedule};
ghost use Rattle.ht_group.specs.StuckTables.{AreStuck, forced_net_of};

use crate::diffs::{Diff, Diffs};
use crate::good_frame::GoodFrame;
use crate::overlay::Overlay;
use crate::shared_frame::SharedFrame;
use crate::stuck_lines::StuckLines;
use ht_events::Schedule;
use ht_items::BitSet;
use ht_net::{Circuit, Fault, Site};
use std::alloc::{AllocError, Global};

/// Up to 64 machines of a circuit, each with a fault and latches of its own, in the lanes of a word.
// One evaluation of a gate serves 64 machines, and a machine comes with nothing but its fault and the latches that
// differ: all else is the good frame, over which the words lie (T. M. Niermann, W.-T. Cheng, J. H. Patel, "PROOFS: A
// Fast, Memory-Efficient Sequential Circuit Fault Simulator", 1992).
#[derive(Drop)]
pub struct Machines {
    /// The faults, one a lane.
    pub lines: StuckLines,
    /// The vector and then the latches of each machine, over those of the good one.
    pub sources: Overlay,
    /// Each net in each machine, over the good one.
    pub nets: Overlay,
    /// Whether both lie over the values of this frame. They are laid there when the first machine comes, so a frame
    /// costs nothing in a word that has no machines.
    pub laid: bool,
}

// The net whose driver or stem a fault changes; none where it is at a data pin.
fn forced_net(circuit: &Circuit, site: Site) -> Option<u32>
    requires { HasSite circuit.now site }
    ensures { result ≡ forced_net_of circuit.now site }
{
    match site {
        Site::Stem(net) => Some(net.0),
        Site::GatePin { gate, .. } => Some(circuit.gate_net(gate).0),
        Site::DffPin { .. } => None,
    }
}

// Makes the net pending whose driver or stem a fault changes, if it does any's.
fn touch_forced_net(circuit: &Circuit, schedule: &Schedule, site: Site, pending: &mut BitSet)
    requires schedule { IsSchedule circuit.now schedule.now }
    requires site { HasSite circuit.now site }
    requires marks { length pending.old ≡ net_count circuit.now }
    ensures marks { length pending.new ≡ net_count circuit.now }
    ensures idle { (r : ℕ) → r < net_count circuit.now → get_or pending.new r false ≡ false
        → (get_or pending.old r false ≡ false)
        × (forced_net_of circuit.now site ≢ Some (get_or schedule.now.order.items r 0)) }
{
    if let Some(net) = forced_net(circuit, site) {
        pending.insert(schedule.rank(net));
    }
}

// Gives the latch of a difference its value in lane `k`, and makes its net pending.
fn put_difference(
    circuit: &Circuit,
    schedule: &Schedule,
    diff: Diff,
    k: u32,
    sources: &mut Overlay,
    pending: &mut BitSet,
)
    requires schedule { IsSchedule circuit.now schedule.now }
    requires latch { diff.latch < length circuit.now.dffs }
    requires lane { k < lane_count }
    requires words { length sources.old.words ≡ first_gate_net circuit.now }
    requires marks { length pending.old ≡ net_count circuit.now }
    ensures good { sources.new.good ≡ sources.old.good }
    ensures count { length sources.new.words ≡ first_gate_net circuit.now }
    ensures lanes { (x n : ℕ) → n < lane_count → lane_env n sources.new.words x
        ≡ (if x == circuit.now.inputs + diff.latch && n == k then diff.value
        else lane_env n sources.old.words x) }
    ensures pending { pending.new ≡ set pending.old
        (get_or schedule.now.ranks.items (circuit.now.inputs + diff.latch) 0) true }
{
    let net = circuit.dff_net(diff.latch);
    let word = sources.words()[net.index()];
    sources.set(net.0, word.with(k, diff.value));
    pending.insert(schedule.rank(net.0));
}

// Gives lane `k`, which has the good latches, those that differ, and makes their nets pending. The last difference
// comes first, since of two at one latch the first counts.
fn put_differences(
    circuit: &Circuit,
    schedule: &Schedule,
    diffs: &Diffs,
    k: u32,
    sources: &mut Overlay,
    pending: &mut BitSet,
)
    requires schedule { IsSchedule circuit.now schedule.now }
    requires known { AreLatches circuit.now diffs.now }
    requires lane { k < lane_count }
    requires words { length sources.old.words ≡ first_gate_net circuit.now }
    requires marks { length pending.old ≡ net_count circuit.now }
    requires plain { in_lane k sources.old.words ≡ sources.old.good }
    ensures good { sources.new.good ≡ sources.old.good }
    ensures put { HasDifferences circuit.now schedule.now k diffs.now sources.old pending.old
        sources.new.words pending.new }
{
    let entries = diffs.entries();
    for i in (0..entries.len()).rev() {
        put_difference(circuit, schedule, entries[i], k, sources, pending);
    }
}

impl Machines {
    /// No machines, with room for those of a circuit.
    ///
    /// # Errors
    /// Out of memory.
    pub fn new(alloc: Global, circuit: &Circuit, frame: &GoodFrame) -> Result<Machines, AllocError>
        requires { HasFrameRoom circuit.now frame.now }
        ensures { IfOk result (λ machines. IsBare circuit.now machines) }
    {
        // for the proof: the circuit is well formed
        let _ = circuit.nets();
        Ok(Machines {
            lines: StuckLines::new(alloc, circuit)?,
            sources: Overlay::new(alloc, &frame.sources)?,
            nets: Overlay::new(alloc, &frame.values)?,
            laid: false,
        })
    }

    /// Takes all machines away, for a frame with other values.
    pub fn begin(&mut self, circuit: &Circuit)
        requires { HasWordRoom circuit.now self.old }
        ensures { IsBare circuit.now self.new }
    {
        self.lines.clear(circuit);
        self.laid = false;
    }

    // Lays the words over the values of a frame, unless they lie there.
    fn lay(&mut self, frame: &GoodFrame)
        requires sources { length frame.now.sources.items ≡ length self.old.sources.good }
        requires nets { length frame.now.values.items ≡ length self.old.nets.good }
        ensures { IsLaidOver frame.now self.old self.new }
    {
        if !self.laid {
            self.sources.reset(&frame.sources);
            self.nets.reset(&frame.values);
            self.laid = true;
        }
    }

    // Gives the next lane a machine: a fault, and latches that are the good ones but for differences. Where memory runs
    // out, the machines are as before.
    fn add(
        &mut self,
        frame: &mut SharedFrame,
        fault: Fault,
        diffs: &Diffs,
    ) -> Result<(), AllocError>
        requires frame { IsSharedFrame frame.old }
        requires stuck { AreStuck frame.old.circuit.now self.old.lines }
        requires room { length self.old.lines.faults.items < lane_count }
        requires site { HasSite frame.old.circuit.now fault.site }
        requires known { AreLatches frame.old.circuit.now diffs.now }
        requires words { length self.old.sources.words ≡ first_gate_net frame.old.circuit.now }
        requires plain { in_lane (length self.old.lines.faults.items) self.old.sources.words
            ≡ self.old.sources.good }
        ensures stuck { AreStuck frame.old.circuit.now self.new.lines }
        ensures frame { frame.new ≡ record frame.old { pending = frame.new.pending } }
        ensures ok { OnOk result (IsMachineAdded frame.old.circuit.now frame.old.schedule fault
            diffs.now self.old frame.old.pending self.new frame.new.pending) }
        ensures err { OnErr result (AreSameMachines self.old self.new) }
        ensures idle { OnErr result (frame.new ≡ frame.old) }
    {
        let k = self.lines.faults.len() as u32;
        let circuit = frame.circuit;
        self.lines.add(circuit, fault)?;
        put_differences(
            circuit,
            &frame.schedule,
            diffs,
            k,
            &mut self.sources,
            &mut frame.pending,
        );
        touch_forced_net(circuit, &frame.schedule, fault.site, &mut frame.pending);
        Ok(())
    }

    /// Gives the next lane a machine: a fault, and latches that are the good ones but for differences. The first one
    /// finds the words laid over the frame.
    ///
    /// # Errors
    /// Out of memory; the machines are as before.
    pub fn admit(
        &mut self,
        frame: &mut SharedFrame,
        fault: Fault,
        diffs: &Diffs,
    ) -> Result<(), AllocError>
        requires frame { IsSharedFrame frame.old }
        requires word { IsWordIn frame.old self.old }
        requires room { length self.old.lines.faults.items < lane_count }
        requires site { HasSite frame.old.circuit.now fault.site }
        requires known { AreLatches frame.old.circuit.now diffs.now }
        ensures word { IsWordIn frame.new self.new }
        ensures more { IsMorePending frame.old frame.new }
        ensures ok { OnOk result (HasOneMore frame.old.circuit.now self.old
            (machine_but frame.old fault diffs.now) self.new) }
        ensures err { OnErr result (HasSame frame.old.circuit.now self.old self.new) }
        ensures idle { OnErr result (frame.new ≡ frame.old) }
    {
        self.lay(&frame.good);
        self.add(frame, fault, diffs)?;
        Ok(())
    }

    /// Takes all machines away; what they changed has the good machine's values again.
    pub fn clear(&mut self, circuit: &Circuit)
        requires { AreStuck circuit.now self.old.lines }
        ensures stuck { AreStuck circuit.now self.new.lines }
        ensures none { self.new.lines.faults.items ≡ [] }
        ensures sources { IsSpread self.old.sources.good self.new.sources }
        ensures nets { IsSpread self.old.nets.good self.new.nets }
        ensures laid { self.new.laid ≡ self.old.laid }
    {
        self.lines.clear(circuit);
        self.sources.restore();
        self.nets.restore();
    }
}
