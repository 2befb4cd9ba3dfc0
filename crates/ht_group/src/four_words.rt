//! The net of a gate in four words of machines at once.
ghost use Rattle.std.specs.Prelude.{◌≡◌, ◌<◌, ◌≤◌, ◌-◌, [], ℕ, true, length, get_or};
ghost use Rattle.ht_lanes.specs.Lanes.{lane, word_at};
ghost use Rattle.ht_net.specs.Frames.Frame.{gate_output};
ghost use Rattle.ht_net.specs.Circuit.Netlist.{first_gate_net, net_count, no_net};
ghost use Rattle.ht_group.specs.LaneRules.{drive_from, in_lane, lane_env, rules_at};
ghost use Rattle.ht_group.specs.MachineWords.{AreFirstChanged, HaveFreePins, HasRunRoom, HaveRunRoom, IsComputed};
ghost use Rattle.ht_group.specs.declared.machines.Machines.{Machines};

use crate::evaluate::PIN_ROOM;
use crate::machines::Machines;
use ht_lanes::{Word, eval_four};
use ht_net::{Circuit, NetId};

/// Whether a net is a gate's, there are four words with machines, and none has a stuck pin at the gate.
pub fn are_free(circuit: &Circuit, words: &[Machines], used: u32, net: u32) -> bool
    requires room { HaveRunRoom circuit.now used words.now }
    requires net { net < net_count circuit.now }
    ensures { result ≡ true → HaveFreePins circuit.now net used words.now }
{
    // for the proof: the circuit is well formed
    let _ = circuit.nets();
    let first = circuit.inputs() + circuit.dffs();
    if net < first || used != 4 || words.len() != 4 {
        return false;
    }
    for w in 0..words.len() {
        if words[w].lines.at_gate(circuit, net - first) != 0 {
            return false;
        }
    }
    true
}

// The words of a net.
fn four_at(words: &[Machines], net: usize) -> [Word; 4]
    requires four { length words.now ≡ 4 }
    requires net { (w : ℕ) (d : Machines) → w < 4
        → net < length (get_or words.now w d).nets.good }
    ensures { (w : ℕ) (d : Machines) → w < 4
        → word_at result w ≡ word_at (get_or words.now w d).nets.words net }
{
    [
        words[0].nets.words()[net],
        words[1].nets.words()[net],
        words[2].nets.words()[net],
        words[3].nets.words()[net],
    ]
}

// Puts the words of the nets at a gate's pins into `fours`.
fn read_fours(args: &[NetId], words: &[Machines], fours: &mut [[Word; 4]])
    requires few { length args.now ≤ 255 }
    requires four { length words.now ≡ 4 }
    requires known { (i w : ℕ) (d : Machines) → i < length args.now → w < 4
        → (get_or args.now i no_net).0 < length (get_or words.now w d).nets.good }
    requires room { length fours.old ≡ PIN_ROOM }
    ensures room { length fours.new ≡ PIN_ROOM }
    ensures read { (i w : ℕ) (d : Machines) → i < length args.now → w < 4
        → word_at (get_or fours.new i []) w
        ≡ word_at (get_or words.now w d).nets.words (get_or args.now i no_net).0 }
{
    for (i, arg) in args.iter().enumerate() {
        fours[i] = four_at(words, arg.index());
    }
}

// What a gate without a stuck pin gives its net in four words, before the net's stem. `fours` is room for its pins.
fn gate_outputs(
    circuit: &Circuit,
    words: &[Machines],
    fours: &mut [[Word; 4]],
    net: u32,
) -> [Word; 4]
    requires free { HaveFreePins circuit.now net 4 words.now }
    requires words { HaveRunRoom circuit.now 4 words.now }
    requires net { net < net_count circuit.now }
    requires room { length fours.old ≡ PIN_ROOM }
    ensures { (w k : ℕ) (d : Machines) → w < 4 → k < 64 → lane (word_at result w) k
        ≡ gate_output circuit.now (rules_at (get_or words.now w d).lines.faults.items k)
        (lane_env k (get_or words.now w d).nets.words) (net - first_gate_net circuit.now) }
{
    let g = net - (circuit.inputs() + circuit.dffs());
    let args = circuit.gate_args(g);
    read_fours(args, words, fours);
    eval_four(circuit.gate_kind(g), &fours[..args.len()])
}

// Gives a net what its driver gives it, by its stem, and says whether its word changed.
fn take_word(circuit: &Circuit, machines: &mut Machines, net: u32, value: Word) -> bool
    requires room { HasRunRoom circuit.now machines.old }
    requires net { net < net_count circuit.now }
    requires value { (k : ℕ) → k < 64 → lane value k
        ≡ drive_from circuit.now (rules_at machines.old.lines.faults.items k)
        (in_lane k machines.old.sources.words) (lane_env k machines.old.nets.words) net }
    ensures { IsComputed circuit.now net result machines.old machines.new }
{
    let word = machines.lines.stem(circuit, net, value);
    if word.same(machines.nets.words()[net as usize]) {
        return false;
    }
    machines.nets.set(net, word);
    true
}

/// Evaluates the net of a gate without stuck pins in four words, and says whether its word changed in one. `fours` is
/// room for the pins of one gate.
pub fn recompute_four(
    circuit: &Circuit,
    words: &mut [Machines],
    fours: &mut [[Word; 4]],
    net: u32,
) -> bool
    requires free { HaveFreePins circuit.now net 4 words.old }
    requires words { HaveRunRoom circuit.now 4 words.old }
    requires net { net < net_count circuit.now }
    requires room { length fours.old ≡ PIN_ROOM }
    ensures { AreFirstChanged 4 (IsComputed circuit.now net result) words.old words.new }
{
    let values = gate_outputs(circuit, words, fours, net);
    let mut changed = false;
    for w in 0..4 {
        if take_word(circuit, &mut words[w], net, values[w]) {
            changed = true;
        }
    }
    changed
}
