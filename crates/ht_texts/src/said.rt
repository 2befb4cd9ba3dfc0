//! What a report says of a class of faults.
ghost use Rattle.std.specs.Prelude.{◌≡◌, OnOk, IfOk};
ghost use Rattle.ht_net.specs.Detect.Detection.{IsPlace};
ghost use Rattle.ht_texts.specs.Pieces.{add_pieces};
ghost use Rattle.ht_texts.specs.Verdicts.{IsSayable, said_of, saids_of, verdict_pieces};
ghost use Rattle.ht_texts.specs.declared.said.Said.TheVariants.{Detected};

use crate::piece::{Piece, push_pieces};
use crate::site::output_name;
use ht_net::{Circuit, Place};
use std::alloc::{AllocError, Global};

/// What is said of the representative of a class: the place of its first detection, that no test detects it, that the
/// search gave it up, or that the vectors don't detect it.
#[derive(Clone, Copy, PartialEq, Eq, Debug)]
pub enum Said {
    /// The least vector that detects the fault, and there the least output, both from 0.
    Detected(Place),
    /// No list of vectors detects the fault: it was proved.
    Untestable,
    /// The same was proved, but a chip with the fault may differ from a good one where both start in some states.
    Undetectable,
    /// The search ended without an answer.
    Aborted,
    /// The vectors that were simulated don't detect the fault, and nothing more was asked.
    Undetected,
}

impl Said {
    /// What is said of a fault that is first detected at this place, or nowhere.
    pub fn of(place: Option<Place>) -> Said
        ensures { result ≡ said_of place }
    {
        match place {
            Some(place) => Said::Detected(place),
            None => Said::Undetected,
        }
    }
}

/// What is said of each fault, by the place of its first detection or none.
///
/// # Errors
///
/// `AllocError`: out of memory.
pub fn saids_of(alloc: Global, places: &[Option<Place>]) -> Result<Vec<Said>, AllocError>
    ensures { IfOk result (λ saids. saids.items ≡ saids_of places.now) }
{
    places.iter().map(|place| Said::of(*place)).collect(alloc)
}

// Appends a verdict.
pub fn push_verdict(text: &mut Vec<u8>, circuit: &Circuit, said: Said) -> Result<(), AllocError>
    requires { IsSayable circuit.now said }
    ensures { OnOk result
        (text.new.items ≡ add_pieces text.old.items (verdict_pieces circuit.now said)) }
{
    match said {
        Said::Detected(place) => push_detection(text, circuit, place),
        Said::Untestable => text.extend_from_slice(b"untestable"),
        Said::Undetectable => text.extend_from_slice(b"undetectable"),
        Said::Aborted => text.extend_from_slice(b"aborted"),
        Said::Undetected => text.extend_from_slice(b"undetected"),
    }
}

// Appends where a fault is first detected.
fn push_detection(text: &mut Vec<u8>, circuit: &Circuit, place: Place) -> Result<(), AllocError>
    requires { IsPlace circuit.now place }
    ensures { OnOk result
        (text.new.items ≡ add_pieces text.old.items (verdict_pieces circuit.now (Detected place))) }
{
    push_pieces(
        text,
        &[
            Piece::Word(b"detected "),
            Piece::Number(place.vector + 1),
            Piece::Word(b" "),
            Piece::Name(output_name(circuit, place.output)),
        ],
    )
}
