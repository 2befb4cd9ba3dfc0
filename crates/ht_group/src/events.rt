//! One pass of events over the nets, in the order of the schedule.
ghost use Rattle.std.specs.Prelude.{◌≡◌, ◌≢◌, ◌<◌, ◌≤◌, ◌*◌, ℕ, true, false, length, get_or, All, if◌then◌else◌, nat_lt};
ghost use Rattle.std.specs.List.{Contains};
ghost use Rattle.ht_net.specs.Circuit.Netlist.{first_gate_net, net_count};
ghost use Rattle.ht_group.specs.GroupView.{max_words};
ghost use Rattle.ht_group.specs.LaneRules.{lane_env};
ghost use Rattle.ht_group.specs.MachineWords.{AreFirstChanged, AreRunning, HasRunRoom, HaveRunRoom, HaveRun, IsComputed};
ghost use Rattle.ht_group.specs.Pending.{AreGiven, IsFired};
ghost use Rattle.ht_group.specs.SharedFrames.{IsSharedFrame};
ghost use Rattle.ht_group.specs.declared.machines.Machines.{Machines};
ghost use Rattle.ht_events.specs.Schedules.{IsSchedule};
ghost use Rattle.ht_group.specs.StuckTables.{AreStuck};

use crate::evaluate::{PIN_ROOM, evaluate};
use crate::four_words::{are_free, recompute_four};
use crate::machines::Machines;
use crate::overlay::Overlay;
use crate::shared_frame::SharedFrame;
use crate::stuck_lines::StuckLines;
use ht_events::Schedule;
use ht_items::BitSet;
use ht_lanes::Word;
use ht_net::Circuit;

// Makes nets pending, by their ranks, where the net that they read changed.
fn touch_if(changed: bool, ranks: &[u32], pending: &mut BitSet)
    requires { All (λ r. r < length pending.old) ranks.now }
    ensures marks { length pending.new ≡ length pending.old }
    ensures all { changed ≡ true → (r : ℕ) → Contains ranks.now r
        → get_or pending.new r false ≡ true }
    ensures unchanged { changed ≡ false → pending.new ≡ pending.old }
    ensures rest { (r : ℕ) → ¬ Contains ranks.now r
        → get_or pending.new r false ≡ get_or pending.old r false }
{
    if changed {
        pending.insert_all(ranks);
    }
}

// How many evaluations of a gate it is to evaluate the net of a rank in so many words: none where it is an input or a
// flip-flop.
fn evaluations(circuit: &Circuit, rank: u32, words: u32) -> u32
    ensures { result ≡ (if nat_lt rank (first_gate_net circuit.now) then 0 else words) }
{
    // for the proof: the circuit is well formed
    let _ = circuit.nets();
    if rank < circuit.inputs() + circuit.dffs() {
        0
    } else {
        words
    }
}

// Evaluates a net, and says whether its word changed.
#[inline(always)]
fn recompute(
    circuit: &Circuit,
    lines: &StuckLines,
    sources: &[Word],
    nets: &mut Overlay,
    pins: &mut [Word],
    net: u32,
) -> bool
    requires stuck { AreStuck circuit.now lines.now }
    requires sources { length sources.now ≡ first_gate_net circuit.now }
    requires nets { length nets.old.good ≡ net_count circuit.now }
    requires room { length pins.old ≡ PIN_ROOM }
    requires net { net < net_count circuit.now }
    ensures good { nets.new.good ≡ nets.old.good }
    ensures given { AreGiven circuit.now lines.now.faults.items sources.now nets.old.words net
        (λ k. lane_env k nets.new.words net) }
    ensures others { (k x : ℕ) → x ≢ net
        → lane_env k nets.new.words x ≡ lane_env k nets.old.words x }
    ensures unchanged { result ≡ false → nets.new.words ≡ nets.old.words }
{
    let word = evaluate(circuit, lines, sources, nets.words(), pins, net);
    if word.same(nets.words()[net as usize]) {
        return false;
    }
    nets.set(net, word);
    true
}

// Evaluates a net for the machines of a word, and says whether the word of the net changed.
#[inline(always)]
fn recompute_word(circuit: &Circuit, machines: &mut Machines, pins: &mut [Word], net: u32) -> bool
    requires room { HasRunRoom circuit.now machines.old }
    requires pins { length pins.old ≡ PIN_ROOM }
    requires net { net < net_count circuit.now }
    ensures { IsComputed circuit.now net result machines.old machines.new }
{
    recompute(
        circuit,
        &machines.lines,
        machines.sources.words(),
        &mut machines.nets,
        pins,
        net,
    )
}

// Evaluates a net for each of the first words, one after the other, and says whether the word of the net changed in
// one.
fn recompute_each(
    circuit: &Circuit,
    words: &mut [Machines],
    used: u32,
    pins: &mut [Word],
    net: u32,
) -> bool
    requires used { used ≤ length words.old }
    requires room { HaveRunRoom circuit.now used words.old }
    requires pins { length pins.old ≡ PIN_ROOM }
    requires net { net < net_count circuit.now }
    ensures { AreFirstChanged used (IsComputed circuit.now net result) words.old words.new }
{
    let mut changed = false;
    for w in 0..used {
        if recompute_word(circuit, &mut words[w as usize], pins, net) {
            changed = true;
        }
    }
    changed
}

// Evaluates a net for each of the first words, and says whether the word of the net changed in one. Four words whose
// machines have no stuck pin at its gate are evaluated at once.
fn recompute_words(
    circuit: &Circuit,
    words: &mut [Machines],
    used: u32,
    pins: &mut [Word],
    fours: &mut [[Word; 4]],
    net: u32,
) -> bool
    requires used { used ≤ length words.old }
    requires room { HaveRunRoom circuit.now used words.old }
    requires pins { length pins.old ≡ PIN_ROOM }
    requires fours { length fours.old ≡ PIN_ROOM }
    requires net { net < net_count circuit.now }
    ensures { AreFirstChanged used (IsComputed circuit.now net result) words.old words.new }
{
    if are_free(circuit, words, used, net) {
        recompute_four(circuit, words, fours, net)
    } else {
        recompute_each(circuit, words, used, pins, net)
    }
}

// The net of a rank was evaluated, and is pending no more; where it changed, the nets that read it are pending. Says
// how many evaluations of a gate this was in so many words. Both loops below go through it for each net, so it is to
// cost no call.
#[inline(always)]
fn fire(
    circuit: &Circuit,
    schedule: &Schedule,
    rank: u32,
    net: u32,
    changed: bool,
    words: u32,
    pending: &mut BitSet,
) -> u32
    requires schedule { IsSchedule circuit.now schedule.now }
    requires marks { length pending.old ≡ net_count circuit.now }
    requires rank { rank < net_count circuit.now }
    requires net { net ≡ get_or schedule.now.order.items rank 0 }
    ensures marks { IsFired circuit.now schedule.now rank changed pending.old pending.new }
    ensures steps { result ≡ (if nat_lt rank (first_gate_net circuit.now) then 0 else words) }
{
    pending.remove(rank);
    touch_if(changed, schedule.readers.row(net as usize), pending);
    evaluations(circuit, rank, words)
}

// Evaluates each net that is pending in one word, in the order of the schedule, and then those that read what changed.
// What reads a net stands after it in that order, so one walk over the marks evaluates each net once. It is what
// `settle` does where there is one word, and nothing is looked up for each net.
fn settle_word(
    circuit: &Circuit,
    schedule: &Schedule,
    machines: &mut Machines,
    pending: &mut BitSet,
    pins: &mut [Word],
) -> u32
    requires schedule { IsSchedule circuit.now schedule.now }
    requires runs { AreRunning circuit.now schedule.now pending.old machines.old }
    requires marks { length pending.old ≡ net_count circuit.now }
    requires pins { length pins.old ≡ PIN_ROOM }
    ensures machines { HaveRun circuit.now schedule.now pending.new machines.old machines.new }
    ensures marks { length pending.new ≡ length pending.old }
    ensures none { (r : ℕ) → get_or pending.new r false ≡ false }
    ensures steps { result ≤ length circuit.now.gates }
{
    let mut evaluated = 0;
    let mut from = 0;
    while let Some(rank) = pending.next(from) {
        let net = schedule.net(rank);
        let changed = recompute_word(circuit, machines, pins, net);
        evaluated += fire(circuit, schedule, rank, net, changed, 1, pending);
        from = rank + 1;
    }
    evaluated
}

// The same where there are more words.
fn settle_words(
    circuit: &Circuit,
    schedule: &Schedule,
    words: &mut [Machines],
    used: u32,
    pending: &mut BitSet,
    pins: &mut [Word],
    fours: &mut [[Word; 4]],
) -> u32
    requires schedule { IsSchedule circuit.now schedule.now }
    requires used { used ≤ length words.old }
    requires few { used ≤ max_words }
    requires runs { (w : ℕ) (d : Machines) → w < used
        → AreRunning circuit.now schedule.now pending.old (get_or words.old w d) }
    requires marks { length pending.old ≡ net_count circuit.now }
    requires pins { length pins.old ≡ PIN_ROOM }
    requires fours { length fours.old ≡ PIN_ROOM }
    ensures words { AreFirstChanged used (HaveRun circuit.now schedule.now pending.new)
        words.old words.new }
    ensures marks { length pending.new ≡ length pending.old }
    ensures none { (r : ℕ) → get_or pending.new r false ≡ false }
    ensures steps { result ≤ length circuit.now.gates * used }
{
    let mut evaluated = 0;
    let mut from = 0;
    while let Some(rank) = pending.next(from) {
        let net = schedule.net(rank);
        let changed = recompute_words(circuit, words, used, pins, fours, net);
        evaluated += fire(circuit, schedule, rank, net, changed, used, pending);
        from = rank + 1;
    }
    evaluated
}

/// Evaluates each net that is pending in the first words, in the order of the schedule, and then those that read what
/// changed. None is left, and none is evaluated twice. Says how many evaluations of gates these were, one a word.
// The loop is a group's own and not that of ht_events' `Core`, which fires an item of one plant: here a net is taken
// once for up to four words. Groups are 24 percent of the time of `sim` (docs/MEASURED.md).
pub fn settle(
    frame: &mut SharedFrame,
    words: &mut [Machines],
    used: u32,
    pins: &mut [Word],
    fours: &mut [[Word; 4]],
) -> u32
    requires frame { IsSharedFrame frame.old }
    requires used { used ≤ length words.old }
    requires few { used ≤ max_words }
    requires runs { (w : ℕ) (d : Machines) → w < used → AreRunning frame.old.circuit.now
        frame.old.schedule frame.old.pending (get_or words.old w d) }
    requires pins { length pins.old ≡ PIN_ROOM }
    requires fours { length fours.old ≡ PIN_ROOM }
    ensures words { AreFirstChanged used
        (HaveRun frame.old.circuit.now frame.old.schedule frame.new.pending)
        words.old words.new }
    ensures frame { frame.new ≡ record frame.old { pending = frame.new.pending } }
    ensures marks { length frame.new.pending ≡ length frame.old.pending }
    ensures none { (r : ℕ) → get_or frame.new.pending r false ≡ false }
    ensures steps { result ≤ length frame.old.circuit.now.gates * used }
{
    let circuit = frame.circuit;
    let schedule = &frame.schedule;
    if used == 1 {
        return settle_word(circuit, schedule, &mut words[0], &mut frame.pending, pins);
    }
    settle_words(
        circuit,
        schedule,
        words,
        used,
        &mut frame.pending,
        pins,
        fours,
    )
}
