//! The paths of the pins of one gate, from those of its output.
ghost use Rattle.std.specs.Prelude.{◌≡◌, List, bit_and, length, map};
ghost use Rattle.ht_tern.specs.declared.gate.Kind.{Kind};
ghost use Rattle.ht_lanes.specs.Lanes.{Lanes, word_at};
ghost use Rattle.ht_breed.specs.Sensitized.{AreTraced, AreTracedByEarlier, AreTracedByLater};

use crate::gates::{side_lanes, word_at};
use crate::paths::{NO_PATHS, Paths};
use ht_lanes::Word;
use ht_tern::Kind;

/// Paths in a set of lanes alone.
#[inline(always)]
pub fn within(paths: Paths, lanes: u64) -> Paths
    ensures { result
        ≡ record { output = bit_and paths.output lanes; end = bit_and paths.end lanes } }
{
    Paths {
        output: paths.output & lanes,
        end: paths.end & lanes,
    }
}

// The paths of the only pin of a gate.
#[inline(always)]
fn trace_one(output: Paths, pins: &mut [Paths])
    requires { length pins.old ≡ 1 }
    ensures { (kind : Kind) (words : List Lanes) → length words ≡ 1
        → AreTraced kind words output pins.new }
{
    pins[0] = output;
}

// The paths of two pins.
#[inline(always)]
fn trace_two(kind: Kind, nets: &[u32], words: &[Word], output: Paths, pins: &mut [Paths])
    requires each { length pins.old ≡ length nets.now }
    requires two { length nets.now ≡ 2 }
    ensures { AreTraced kind (map (λ net. word_at words.now net) nets.now) output pins.new }
{
    let beside_first = side_lanes(kind, word_at(words, nets[1]));
    let beside_second = side_lanes(kind, word_at(words, nets[0]));
    pins[0] = within(output, beside_first);
    pins[1] = within(output, beside_second);
}

// The paths of each pin, in the lanes in which all pins before it let an effect through.
fn trace_after_earlier(kind: Kind, nets: &[u32], words: &[Word], output: Paths, pins: &mut [Paths])
    requires { length pins.old ≡ length nets.now }
    ensures { AreTracedByEarlier kind (map (λ net. word_at words.now net) nets.now)
        output pins.new }
{
    let mut lanes = u64::MAX;
    for i in 0..nets.len() {
        pins[i] = within(output, lanes);
        lanes &= side_lanes(kind, word_at(words, nets[i]));
    }
}

// What each pin has, in the lanes in which all pins after it let an effect through.
fn trace_before_later(kind: Kind, nets: &[u32], words: &[Word], pins: &mut [Paths])
    requires { length pins.old ≡ length nets.now }
    ensures { AreTracedByLater kind (map (λ net. word_at words.now net) nets.now)
        pins.old pins.new }
{
    let mut lanes = u64::MAX;
    for i in (0..nets.len()).rev() {
        pins[i] = within(pins[i], lanes);
        lanes &= side_lanes(kind, word_at(words, nets[i]));
    }
}

/// Writes the paths of the pins of a gate with these paths: those of a pin are in the lanes in which all other pins let an
/// effect at it through.
#[inline(always)]
pub fn trace_pins(kind: Kind, nets: &[u32], words: &[Word], output: Paths, pins: &mut [Paths])
    requires { length pins.old ≡ length nets.now }
    ensures { AreTraced kind (map (λ net. word_at words.now net) nets.now) output pins.new }
{
    if output.output == 0 && output.end == 0 {
        pins.fill(NO_PATHS);
    } else if nets.len() == 1 {
        trace_one(output, pins);
    } else if nets.len() == 2 {
        trace_two(kind, nets, words, output, pins);
    } else {
        trace_after_earlier(kind, nets, words, output, pins);
        trace_before_later(kind, nets, words, pins);
    }
}
