//! The sets of nets in one frame after the other: only gates that read a net that changed are evaluated.
ghost use Rattle.std.specs.Prelude.{◌≡◌, ◌≢◌, ◌<◌, ◌≤◌, ◌+◌, ◌-◌, ℕ, List, Some, true, false, length, get_or, All, IfOk};
ghost use Rattle.std.specs.List.{Contains};
ghost use Rattle.ht_pairs.specs.Pairs.{Pair};
ghost use Rattle.ht_net.specs.Circuit.Netlist.{first_gate_net, net_count};
ghost use Rattle.ht_net.specs.Frames.Frame.{frame_outputs, net_value, next_state, values_at};
ghost use Rattle.ht_events.specs.declared.schedule.Schedule.{Schedule};
ghost use Rattle.ht_events.specs.Schedules.{IsSchedule};
ghost use Rattle.ht_tree.specs.Window.Windows.{pair_set_rules};
ghost use Rattle.ht_recompute.specs.GateSets.{AreGatesSettled, AreQuietSettled, gate_rank, is_gate_line, is_stuck_gate, sets_of};
ghost use Rattle.ht_recompute.specs.NetSetsOf.{AreNetSets};

use ht_events::Schedule;
use ht_frame::{MAX_GATE_PINS, capture, gate_output, stem};
use ht_items::BitSet;
use ht_net::{Circuit, Fault, Site};
use ht_pairs::PairSet;
use std::alloc::{AllocError, Global};

/// What the nets of a frame settle under: a circuit with its schedule, and a fault or none.
#[derive(Drop)]
pub struct Settling<'a> {
    pub circuit: &'a Circuit,
    pub schedule: &'a Schedule,
    pub fault: Option<Fault>,
}

/// The sets of a circuit's nets in a frame, from which the next one settles, under the same fault or another. All room
/// is taken once, when it is made.
#[derive(Drop)]
pub struct NetSets {
    // a set for each net
    values: Vec<PairSet>,
    // the ranks of gates that may not be settled: all at first, and none after a frame
    pending: BitSet,
    // room for the pins of one gate
    pins: Vec<PairSet>,
    // the fault of the frame that ran last
    fault: Option<Fault>,
}

// All gates, by their ranks: inputs and flip-flops have lower ones.
fn all_gates(alloc: Global, circuit: &Circuit) -> Result<BitSet, AllocError>
    ensures count { IfOk result (λ pending. length pending ≡ net_count circuit.now) }
    ensures all { IfOk result (λ pending. (r : ℕ) → first_gate_net circuit.now ≤ r
        → r < net_count circuit.now → get_or pending r false ≡ true) }
{
    let nets = circuit.nets();
    let mut pending = BitSet::new(alloc, nets)?;
    for rank in circuit.inputs() + circuit.dffs()..nets {
        pending.insert(rank);
    }
    Ok(pending)
}

impl NetSets {
    /// Room for the nets of a circuit.
    ///
    /// # Errors
    /// Out of memory.
    pub fn new(alloc: Global, circuit: &Circuit) -> Result<NetSets, AllocError>
        ensures { IfOk result (λ sets. (schedule : Schedule) → IsSchedule circuit.now schedule
            → AreNetSets circuit.now schedule sets) }
    {
        let nets = circuit.nets() as usize;
        Ok(NetSets {
            values: vec![in alloc; PairSet::both_same(); nets]?,
            pending: all_gates(alloc, circuit)?,
            pins: vec![in alloc; PairSet::both_same(); MAX_GATE_PINS]?,
            fault: None,
        })
    }

    // Gives every net its set in a frame, from where the frame was: at another node, in another window or under another
    // fault. Two nodes that come one after the other differ in few decisions, so only gates that read a change are
    // evaluated, each once, in the order of the schedule (evaluation by events: T. M. Niermann, W.-T. Cheng, J. H.
    // Patel, "PROOFS: A Fast, Memory-Efficient Sequential Circuit Fault Simulator", 1992). Frames of windows that start
    // otherwise are kept apart (`first_kept`): by turns in one frame 5.90 million gates were evaluated, now 1.92. A
    // trail back to the node above didn't pay: it would save a seventh of these at most where that was counted, and
    // take memory at each token, which now takes none.
    fn settle(&mut self, under: &Settling, vector: &[PairSet], latches: &[PairSet])
        requires vector { length vector.now ≡ under.now.circuit.now.inputs }
        requires latches { length latches.now ≡ length under.now.circuit.now.dffs }
        requires nets { AreNetSets under.now.circuit.now under.now.schedule.now self.old }
        ensures nets { AreNetSets under.now.circuit.now under.now.schedule.now self.new }
        ensures sets { (x : ℕ) → x < net_count under.now.circuit.now
            → sets_of self.new.values.items x
            ≡ net_value under.now.circuit.now (pair_set_rules under.now.fault)
            vector.now latches.now x }
    {
        let pending = &mut self.pending;
        change_fault(
            under.circuit,
            under.schedule,
            self.fault,
            under.fault,
            pending,
        );
        self.fault = under.fault;
        follow(
            under,
            vector,
            latches,
            &mut self.values,
            pending,
            &mut self.pins,
        );
    }

    /// Runs a frame of the circuit, under the fault of the frames before or another: `outputs` get what the outputs
    /// show, and `latches` take what stands at their data pins.
    pub fn run(
        &mut self,
        under: &Settling,
        vector: &[PairSet],
        latches: &mut [PairSet],
        outputs: &mut [PairSet],
    )
        requires vector { length vector.now ≡ under.now.circuit.now.inputs }
        requires latches { length latches.old ≡ length under.now.circuit.now.dffs }
        requires outputs { length outputs.old ≡ length under.now.circuit.now.outputs }
        requires nets { AreNetSets under.now.circuit.now under.now.schedule.now self.old }
        ensures nets { AreNetSets under.now.circuit.now under.now.schedule.now self.new }
        ensures latches { latches.new
            ≡ next_state under.now.circuit.now (pair_set_rules under.now.fault)
            vector.now latches.old }
        ensures outputs { outputs.new
            ≡ frame_outputs under.now.circuit.now (pair_set_rules under.now.fault)
            vector.now latches.old }
    {
        self.settle(under, vector, latches);
        show(under.circuit, &self.values, outputs);
        capture(under.circuit, under.fault, &self.values, latches);
    }
}

// Gives each output the set of its net.
fn show(circuit: &Circuit, values: &[PairSet], outputs: &mut [PairSet])
    requires values { length values.now ≡ net_count circuit.now }
    requires outputs { length outputs.old ≡ length circuit.now.outputs }
    ensures { outputs.new ≡ values_at (sets_of values.now) circuit.now.outputs }
{
    // for the proof: the nets of outputs are among those that have sets
    prove_eq!(values.len(), circuit.nets() as usize);
    for o in 0..circuit.outputs() {
        outputs[o as usize] = values[circuit.output(o).index()];
    }
}

// The gate that a site is at, by the stem of its net or by one of its pins.
fn gate_of(circuit: &Circuit, site: Site) -> Option<u32>
    ensures { (g : ℕ) → is_gate_line circuit.now site g ≡ true → result ≡ Some g }
{
    match site {
        Site::Stem(net) => gate_of_net(circuit, net.0),
        Site::GatePin { gate, .. } => Some(gate),
        Site::DffPin { .. } => None,
    }
}

// The gate that drives a net, none where it is an input or a flip-flop.
fn gate_of_net(circuit: &Circuit, net: u32) -> Option<u32>
    ensures { (g : ℕ) → first_gate_net circuit.now + g ≡ net → result ≡ Some g }
{
    // for the proof: the nets are few enough that they have numbers
    let _ = circuit.nets();
    let first = circuit.inputs() + circuit.dffs();
    if net < first { None } else { Some(net - first) }
}

// Makes the gate pending that a fault is at, if it is at one.
fn touch_fault(circuit: &Circuit, schedule: &Schedule, fault: Option<Fault>, pending: &mut BitSet)
    requires schedule { IsSchedule circuit.now schedule.now }
    requires marks { length pending.old ≡ net_count circuit.now }
    ensures marks { length pending.new ≡ net_count circuit.now }
    ensures stuck { (g : ℕ) → g < length circuit.now.gates
        → is_stuck_gate circuit.now fault g ≡ true
        → get_or pending.new (gate_rank circuit.now schedule.now g) false ≡ true }
    ensures more { (r : ℕ) → get_or pending.old r false ≡ true
        → get_or pending.new r false ≡ true }
{
    let Some(fault) = fault else {
        return;
    };
    match gate_of(circuit, fault.site) {
        Some(g) if g < circuit.gates() => {
            pending.insert(schedule.rank(circuit.gate_net(g).0));
        },
        _ => {},
    }
}

// Makes the gates pending that may have other sets under one fault than under another: those that the two faults are
// at. All others are settled under both or under none.
fn change_fault(
    circuit: &Circuit,
    schedule: &Schedule,
    before: Option<Fault>,
    after: Option<Fault>,
    pending: &mut BitSet,
)
    requires schedule { IsSchedule circuit.now schedule.now }
    requires marks { length pending.old ≡ net_count circuit.now }
    ensures { (values : List (List Pair))
        → AreQuietSettled circuit.now schedule.now before pending.old values
        → AreQuietSettled circuit.now schedule.now after pending.new values }
{
    if before != after {
        touch_fault(circuit, schedule, before, pending);
        touch_fault(circuit, schedule, after, pending);
    }
}

// Gives a net its set. Where it had another, the gates that read it are pending.
fn write_net(net: u32, set: PairSet, readers: &[u32], values: &mut [PairSet], pending: &mut BitSet)
    requires net { net < length values.old }
    requires readers { All (λ r. r < length pending.old) readers.now }
    ensures set { sets_of values.new net ≡ set }
    ensures sets { (x : ℕ) → x ≢ net → sets_of values.new x ≡ sets_of values.old x }
    ensures marks { length pending.new ≡ length pending.old }
    ensures readers { (r : ℕ) → Contains readers.now r → get_or pending.new r false ≡ false
        → values.new ≡ values.old }
    ensures more { (r : ℕ) → get_or pending.old r false ≡ true
        → get_or pending.new r false ≡ true }
    ensures rest { (r : ℕ) → ¬ Contains readers.now r
        → get_or pending.new r false ≡ get_or pending.old r false }
{
    let net = net as usize;
    if values[net] == set {
        return;
    }
    values[net] = set;
    pending.insert_all(readers);
}

// Gives the nets from `first` on, which are inputs or flip-flops, the sets of `sources`, each by its stem. Where one
// had another, the gates that read it are pending.
fn drive(
    under: &Settling,
    first: u32,
    sources: &[PairSet],
    values: &mut [PairSet],
    pending: &mut BitSet,
)
    requires sources { first + length sources.now ≤ first_gate_net under.now.circuit.now }
    requires quiet { AreQuietSettled under.now.circuit.now under.now.schedule.now under.now.fault
        pending.old values.old }
    ensures quiet { AreQuietSettled under.now.circuit.now under.now.schedule.now under.now.fault
        pending.new values.new }
    ensures driven { (x : ℕ) → first ≤ x → x < first + length sources.now → sets_of values.new x
        ≡ (pair_set_rules under.now.fault).stem x (sets_of sources.now (x - first)) }
    ensures below { (x : ℕ) → x < first → sets_of values.new x ≡ sets_of values.old x }
{
    // for the proof: the nets are few enough that they have numbers
    prove_eq!(values.len(), under.circuit.nets() as usize);
    for (j, source) in sources.iter().enumerate() {
        let net = first + j as u32;
        let readers = under.schedule.readers.row(net as usize);
        write_net(
            net,
            stem(under.fault, net, *source),
            readers,
            values,
            pending,
        );
    }
}

// Evaluates the gate of a rank, which is pending no more. Where its net gets another set, the gates that read it are.
fn fire(
    under: &Settling,
    values: &mut [PairSet],
    pending: &mut BitSet,
    pins: &mut [PairSet],
    rank: u32,
)
    requires room { length pins.old ≡ MAX_GATE_PINS }
    requires gate { first_gate_net under.now.circuit.now ≤ rank }
    requires rank { rank < net_count under.now.circuit.now }
    requires quiet { AreQuietSettled under.now.circuit.now under.now.schedule.now under.now.fault
        pending.old values.old }
    ensures quiet { AreQuietSettled under.now.circuit.now under.now.schedule.now under.now.fault
        pending.new values.new }
    ensures sources { (x : ℕ) → x < first_gate_net under.now.circuit.now
        → sets_of values.new x ≡ sets_of values.old x }
    ensures taken { get_or pending.new rank false ≡ false }
    ensures before { (r : ℕ) → r < rank
        → get_or pending.new r false ≡ get_or pending.old r false }
{
    let net = under.schedule.net(rank);
    let g = net - (under.circuit.inputs() + under.circuit.dffs());
    pending.remove(rank);
    let set = stem(
        under.fault,
        net,
        gate_output(under.circuit, under.fault, values, pins, g),
    );
    let readers = under.schedule.readers.row(net as usize);
    write_net(net, set, readers, values, pending);
}

// Evaluates each gate that is pending, in the order of the schedule, and then those that read what changed: none is
// left.
fn settle_pending(
    under: &Settling,
    values: &mut [PairSet],
    pending: &mut BitSet,
    pins: &mut [PairSet],
)
    requires room { length pins.old ≡ MAX_GATE_PINS }
    requires quiet { AreQuietSettled under.now.circuit.now under.now.schedule.now under.now.fault
        pending.old values.old }
    ensures gates { AreGatesSettled under.now.circuit.now under.now.fault values.new }
    ensures sources { (x : ℕ) → x < first_gate_net under.now.circuit.now
        → sets_of values.new x ≡ sets_of values.old x }
    ensures marks { length pending.new ≡ net_count under.now.circuit.now }
{
    let mut from = under.circuit.inputs() + under.circuit.dffs();
    while let Some(rank) = pending.next(from) {
        fire(under, values, pending, pins, rank);
        from = rank + 1;
    }
}

// Gives every net its set in a frame, where each gate that isn't pending is settled.
fn follow(
    under: &Settling,
    vector: &[PairSet],
    latches: &[PairSet],
    values: &mut [PairSet],
    pending: &mut BitSet,
    pins: &mut [PairSet],
)
    requires vector { length vector.now ≡ under.now.circuit.now.inputs }
    requires latches { length latches.now ≡ length under.now.circuit.now.dffs }
    requires room { length pins.old ≡ MAX_GATE_PINS }
    requires quiet { AreQuietSettled under.now.circuit.now under.now.schedule.now under.now.fault
        pending.old values.old }
    ensures gates { AreGatesSettled under.now.circuit.now under.now.fault values.new }
    ensures sets { (x : ℕ) → x < net_count under.now.circuit.now → sets_of values.new x
        ≡ net_value under.now.circuit.now (pair_set_rules under.now.fault)
        vector.now latches.now x }
    ensures marks { length pending.new ≡ net_count under.now.circuit.now }
{
    drive(under, 0, vector, values, pending);
    drive(under, under.circuit.inputs(), latches, values, pending);
    settle_pending(under, values, pending, pins);
}
