//! What a report says of a class, read.
ghost use Rattle.std.specs.Prelude.{◌≡◌, ◌≢◌, ◌<◌, ◌==◌, ℕ, false, length, position, MatchOption};
ghost use Rattle.ht_net.specs.declared.place.Place.{Place};
ghost use Rattle.ht_net.specs.Detect.Detection.{IsPlace};
ghost use Rattle.ht_net.specs.Circuit.Netlist.{Netlist};
ghost use Rattle.ht_texts.specs.declared.said.Said.{Said};
ghost use Rattle.ht_texts.specs.Sites.{output_text};
ghost use Rattle.ht_texts.specs.Verdicts.{IsSayable, place_text, says_detected, verdict_text};

use crate::number::read_number;
use crate::said::Said;
use crate::site::output_name;
use crate::strip::strip_word;
use ht_net::{Circuit, Place};

// The verdict that the text is, or `None` where it is none.
pub fn read_verdict(circuit: &Circuit, text: &[u8]) -> Option<Said>
    ensures { MatchOption result
        ((said : Said) → IsSayable circuit.now said → text.now ≢ verdict_text circuit.now said)
        (λ said. IsSayable circuit.now said × (text.now ≡ verdict_text circuit.now said)) }
{
    if let Some(said) = read_word(text) {
        return Some(said);
    }
    let rest = strip_word(Some(text), b"detected ")?;
    let place = read_place(circuit, rest)?;
    Some(Said::Detected(place))
}

// The verdict without a place that the text is.
fn read_word(text: &[u8]) -> Option<Said>
    ensures { (c : Netlist) → MatchOption result
        ((said : Said) → says_detected said ≡ false → text.now ≢ verdict_text c said)
        (λ said. (says_detected said ≡ false) × (text.now ≡ verdict_text c said)) }
{
    if text == b"untestable".as_slice() {
        return Some(Said::Untestable);
    }
    if text == b"undetectable".as_slice() {
        return Some(Said::Undetectable);
    }
    if text == b"aborted".as_slice() {
        return Some(Said::Aborted);
    }
    if text == b"undetected".as_slice() {
        return Some(Said::Undetected);
    }
    None
}

// The place that the text is: the number of its vector from 1, a space, and the name of its output.
fn read_place(circuit: &Circuit, text: &[u8]) -> Option<Place>
    ensures { MatchOption result
        ((place : Place) → IsPlace circuit.now place → text.now ≢ place_text circuit.now place)
        (λ place. IsPlace circuit.now place × (text.now ≡ place_text circuit.now place)) }
{
    let space = find_space(text)?;
    let number = read_number(&text[..space], u64::MAX)?;
    if number == 0 {
        return None;
    }
    let output = find_output(circuit, &text[space + 1..])?;
    Some(Place {
        vector: number - 1,
        output,
    })
}

// Where the first space is.
fn find_space(text: &[u8]) -> Option<usize>
    ensures { result ≡ position (λ byte. byte == 32) text.now }
{
    text.iter().position(|byte| *byte == b' ')
}

// The first output whose net has this name.
fn find_output(circuit: &Circuit, name: &[u8]) -> Option<u32>
    ensures { MatchOption result
        ((o : ℕ) → o < length circuit.now.outputs → name.now ≢ output_text circuit.now o)
        (λ o. (o < length circuit.now.outputs) × (name.now ≡ output_text circuit.now o)) }
{
    for o in 0..circuit.outputs() {
        if output_name(circuit, o) == name {
            return Some(o);
        }
    }
    None
}
