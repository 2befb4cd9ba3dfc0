//! The words of a net from those that its driver reads.
ghost use Rattle.std.specs.Prelude.{◌≡◌, ◌<◌, ◌≤◌, ◌+◌, ◌&&◌, ◌==◌, ℕ, length, get_or, if◌then◌else◌};
ghost use Rattle.ht_tern.specs.Gate.{HasArity, gate_value_over, operation_of, polarity_of, tern_of};
ghost use Rattle.ht_lanes.specs.Lanes.{Lanes, lane, lane_operations};
ghost use Rattle.ht_net.specs.Circuit.Netlist.{first_gate_net, net_count, no_net};
ghost use Rattle.ht_net.specs.Frames.Frame.{gate_output, values_at};
ghost use Rattle.ht_frame.specs.Values.{env_of};
ghost use Rattle.ht_group.specs.LaneRules.{lane_env, rules_at};
ghost use Rattle.ht_pairs.specs.Places.{place_of};
ghost use Rattle.ht_group.specs.Pending.{AreGiven};
ghost use Rattle.ht_group.specs.StuckTables.{AreGateLanes, AreStuck, is_pin_number};

use crate::stuck_lines::StuckLines;
use ht_lanes::{Word, eval_word};
use ht_net::{Circuit, Fault, NetId, Site};
use ht_tern::{GateOperations, Kind, Tern};

/// Room for the pins of a gate: one for each number of a pin.
pub const PIN_ROOM: usize = 256;

// Where `combined` has what the operation of a kind makes. It is reckoned, since a jump by the kind would be guessed
// wrong every second time.
#[inline(always)]
fn operation_row(kind: Kind) -> usize
    ensures { result ≡ place_of kind }
{
    let is_or = (kind == Kind::Or) | (kind == Kind::Nor);
    let is_xor = (kind == Kind::Xor) | (kind == Kind::Xnor);
    let is_one = (kind == Kind::Not) | (kind == Kind::Buf);
    usize::from(is_or) + 2 * usize::from(is_xor) + 3 * usize::from(is_one)
}

// What the operation of a kind makes of two words: all are computed, and one is taken.
#[inline(always)]
fn combined(kind: Kind, v: Word, w: Word) -> Word
    ensures { result ≡ operation_of lane_operations kind v w }
{
    let rows = [v.conjunction(w), v.disjunction(w), v.parity(w), v];
    rows[operation_row(kind)]
}

// A folded word, or its complement where the kind inverts, again without a jump by the kind.
#[inline(always)]
fn with_polarity(kind: Kind, word: Word) -> Word
    ensures { result ≡ polarity_of lane_operations kind word }
{
    let inverts = (kind == Kind::Nand)
        | (kind == Kind::Nor)
        | (kind == Kind::Xnor)
        | (kind == Kind::Not);
    let both = [word, word.complement()];
    both[usize::from(inverts)]
}

// The word of a gate whose pins read these nets. It takes no room for the pins, as `eval_word` would.
#[inline(always)]
fn eval_nets(kind: Kind, args: &[NetId], words: &[Word]) -> Word
    requires arity { HasArity kind (length args.now) }
    requires known { (i : ℕ) → i < length args.now
        → (get_or args.now i no_net).0 < length words.now }
    ensures { (blank : Lanes) → result ≡ gate_value_over lane_operations blank kind
        (values_at (env_of blank words.now) args.now) }
{
    let mut word = words[args[0].index()];
    for arg in &args[1..] {
        word = combined(kind, word, words[arg.index()]);
    }
    with_polarity(kind, word)
}

// Puts the words of the nets at a gate's pins into `pins`.
fn read_pins(args: &[NetId], words: &[Word], pins: &mut [Word])
    requires few { length args.now ≤ 255 }
    requires known { (i : ℕ) → i < length args.now
        → (get_or args.now i no_net).0 < length words.now }
    requires room { length pins.old ≡ PIN_ROOM }
    ensures room { length pins.new ≡ PIN_ROOM }
    ensures read { (i k : ℕ) → i < length args.now
        → lane_env k pins.new i ≡ lane_env k words.now (get_or args.now i no_net).0 }
{
    for (i, arg) in args.iter().enumerate() {
        pins[i] = words[arg.index()];
    }
}

// Writes a definite value into lane `k` of a pin.
fn write_pin(pins: &mut [Word], pin: u8, k: u32, value: bool)
    requires room { length pins.old ≡ PIN_ROOM }
    requires lane { k < 64 }
    ensures room { length pins.new ≡ PIN_ROOM }
    ensures lanes { (i n : ℕ) → n < 64 → lane_env n pins.new i
        ≡ (if i == pin && n == k then tern_of value else lane_env n pins.old i) }
{
    let pin = pin as usize;
    pins[pin] = pins[pin].with(k, Tern::from(value));
}

// Sticks lane `k` of the pin that a fault stands on, if it stands on a pin of a gate.
fn stick_pin(pins: &mut [Word], fault: Fault, k: u32)
    requires room { length pins.old ≡ PIN_ROOM }
    requires lane { k < 64 }
    ensures room { length pins.new ≡ PIN_ROOM }
    ensures lanes { (i n : ℕ) → n < 64 → lane_env n pins.new i
        ≡ (if is_pin_number fault.site i && n == k then tern_of fault.value
        else lane_env n pins.old i) }
{
    match fault.site {
        Site::GatePin { pin, .. } => write_pin(pins, pin, k, fault.value),
        Site::Stem(_) => {},
        Site::DffPin { .. } => {},
    }
}

// Sticks the pins of a gate whose words stand in `pins`, each lane as its fault says.
fn stick_pins(faults: &[Fault], lanes: u64, g: u32, pins: &mut [Word])
    requires lanes { AreGateLanes faults.now g lanes }
    requires room { length pins.old ≡ PIN_ROOM }
    ensures room { length pins.new ≡ PIN_ROOM }
    ensures lanes { (i k : ℕ) → i < PIN_ROOM → k < 64 → lane_env k pins.new i
        ≡ (rules_at faults.now k).pin g i (lane_env k pins.old i) }
{
    let mut rest = lanes;
    while rest != 0 {
        let k = rest.trailing_zeros();
        stick_pin(pins, faults[k as usize], k);
        rest &= !(1 << k);
    }
}

// What a gate gives its net, before the net's stem. `pins` is room for the pins of one gate.
#[inline(always)]
fn gate_output(
    circuit: &Circuit,
    lines: &StuckLines,
    words: &[Word],
    pins: &mut [Word],
    g: u32,
) -> Word
    requires stuck { AreStuck circuit.now lines.now }
    requires gate { g < length circuit.now.gates }
    requires words { length words.now ≡ net_count circuit.now }
    requires room { length pins.old ≡ PIN_ROOM }
    ensures { (k : ℕ) → k < 64 → lane result k
        ≡ gate_output circuit.now (rules_at lines.now.faults.items k) (lane_env k words.now) g }
{
    let args = circuit.gate_args(g);
    let kind = circuit.gate_kind(g);
    let lanes = lines.at_gate(circuit, g);
    // most gates have no stuck pin
    if lanes == 0 {
        return eval_nets(kind, args, words);
    }
    read_pins(args, words, pins);
    stick_pins(&lines.faults, lanes, g, pins);
    eval_word(kind, &pins[..args.len()])
}

/// The word of a net, from its source or from the nets that its gate reads, and by its stem. The sources are the
/// vector and then the latches.
#[inline(always)]
pub fn evaluate(
    circuit: &Circuit,
    lines: &StuckLines,
    sources: &[Word],
    words: &[Word],
    pins: &mut [Word],
    net: u32,
) -> Word
    requires stuck { AreStuck circuit.now lines.now }
    requires net { net < net_count circuit.now }
    requires sources { length sources.now ≡ first_gate_net circuit.now }
    requires words { length words.now ≡ net_count circuit.now }
    requires room { length pins.old ≡ PIN_ROOM }
    ensures { AreGiven circuit.now lines.now.faults.items sources.now words.now net (lane result) }
{
    let first = circuit.inputs() + circuit.dffs();
    if net < first {
        lines.stem(circuit, net, sources[net as usize])
    } else {
        let word = gate_output(circuit, lines, words, pins, net - first);
        lines.stem(circuit, net, word)
    }
}
