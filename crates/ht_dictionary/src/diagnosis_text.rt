//! The text of a diagnosis.
ghost use Rattle.std.specs.Prelude.{◌≡◌, ◌<◌, ◌++◌, length, IfOk, OnOk};
ghost use Rattle.std.specs.Option.{ForSome};
ghost use Rattle.ht_net.specs.Detect.Detection.{IsPlace};
ghost use Rattle.ht_faults.specs.Sites.{faults_of};
ghost use Rattle.ht_faults.specs.Classes.{AreClasses};
ghost use Rattle.ht_texts.specs.Lines.{with_lf};
ghost use Rattle.ht_texts.specs.Pieces.{add_pieces};
ghost use Rattle.ht_dictionary.specs.Diagnoses.{IsDiagnosisOf};
ghost use Rattle.ht_dictionary.specs.DiagnosisTexts.{contradiction_pieces, good_line, diagnosed_line};
ghost use Rattle.ht_dictionary.specs.DiagnosisTexts.{consistent_count, diagnosis_body, diagnosis_total};

use crate::diagnosis::Diagnosis;
use ht_faults::{Classes, FaultList};
use ht_net::{Circuit, Place};
use ht_texts::{
    Piece, Said, count_classes, output_name, push_fault, push_line, push_line_front, push_pieces,
};
use std::alloc::{AllocError, Global};

/// The text of a diagnosis without its total line, where `vectors` is how many vectors were applied: the head line
/// `diagnosis vectors 3 faults 6 classes 6`, the good machine as `good contradicted 3 r`, and a line for each fault, as
/// `1 a s-a-0 consistent`. A fault that isn't a representative has `as` and its representative's number.
///
/// # Errors
///
/// `AllocError`: out of memory.
pub fn write_diagnosis_body(
    alloc: Global,
    circuit: &Circuit,
    faults: &FaultList,
    classes: &Classes,
    vectors: u64,
    diagnosis: &Diagnosis,
) -> Result<Vec<u8>, AllocError>
    requires faults { faults.now ≡ faults_of circuit.now }
    requires classes { AreClasses circuit.now classes.now }
    requires diagnosis { IsDiagnosisOf circuit.now diagnosis.now }
    ensures { IfOk result (λ body. body.items
        ≡ diagnosis_body circuit.now classes.now vectors diagnosis.now) }
{
    let mut body = Vec::new(alloc);
    push_line(
        &mut body,
        &[
            Piece::Word(b"diagnosis vectors "),
            Piece::Number(vectors),
            Piece::Word(b" faults "),
            Piece::Number(u64::from(faults.len())),
            Piece::Word(b" classes "),
            Piece::Number(u64::from(count_classes(classes))),
        ],
    )?;
    push_good(&mut body, circuit, diagnosis.good())?;
    for i in 0..faults.len() {
        push_diagnosed(&mut body, circuit, faults, classes, i, diagnosis.get(i))?;
    }
    Ok(body)
}

/// The last line of a diagnosis, with its LF: how many classes there are, and of how many the representative is
/// consistent, as `total 6 consistent 3`.
///
/// # Errors
///
/// `AllocError`: out of memory.
pub fn write_diagnosis_total(
    alloc: Global,
    classes: &Classes,
    diagnosis: &Diagnosis,
) -> Result<Vec<u8>, AllocError>
    requires { length diagnosis.now.places ≡ length classes.now }
    ensures { IfOk result
        (λ line. line.items ≡ with_lf (diagnosis_total classes.now diagnosis.now.places)) }
{
    let mut line = Vec::new(alloc);
    push_line(
        &mut line,
        &[
            Piece::Word(b"total "),
            Piece::Number(u64::from(count_classes(classes))),
            Piece::Word(b" consistent "),
            Piece::Number(count_consistent(classes, diagnosis)),
        ],
    )?;
    Ok(line)
}

// Of how many classes the representative is consistent.
fn count_consistent(classes: &Classes, diagnosis: &Diagnosis) -> u64
    requires { length diagnosis.now.places ≡ length classes.now }
    ensures { result ≡ consistent_count classes.now diagnosis.now.places }
{
    let mut count = 0;
    for i in classes.representatives() {
        if diagnosis.get(*i).is_none() {
            count += 1;
        }
    }
    count
}

// Appends the line of the good machine.
fn push_good(text: &mut Vec<u8>, circuit: &Circuit, place: Option<Place>) -> Result<(), AllocError>
    requires { ForSome place (IsPlace circuit.now) }
    ensures { OnOk result
        (text.new.items ≡ text.old.items ++ with_lf (good_line circuit.now place)) }
{
    text.extend_from_slice(b"good ")?;
    push_contradiction(text, circuit, place)?;
    text.extend_from_slice(b"\n")?;
    Ok(())
}

// Appends the line of fault `i`.
fn push_diagnosed(
    text: &mut Vec<u8>,
    circuit: &Circuit,
    faults: &FaultList,
    classes: &Classes,
    i: u32,
    place: Option<Place>,
) -> Result<(), AllocError>
    requires faults { faults.now ≡ faults_of circuit.now }
    requires classes { AreClasses circuit.now classes.now }
    requires fault { i < length faults.now }
    requires place { ForSome place (IsPlace circuit.now) }
    ensures { OnOk result (text.new.items
        ≡ text.old.items ++ with_lf (diagnosed_line circuit.now classes.now i place)) }
{
    if classes.of(i) != i {
        return push_fault(text, circuit, faults, classes, i, Said::Undetected);
    }
    push_line_front(text, circuit, faults, i)?;
    push_contradiction(text, circuit, place)?;
    text.extend_from_slice(b"\n")?;
    Ok(())
}

// Appends where a machine first contradicts the observation, or that it is consistent.
fn push_contradiction(
    text: &mut Vec<u8>,
    circuit: &Circuit,
    place: Option<Place>,
) -> Result<(), AllocError>
    requires { ForSome place (IsPlace circuit.now) }
    ensures { OnOk result
        (text.new.items ≡ add_pieces text.old.items (contradiction_pieces circuit.now place)) }
{
    let Some(place) = place else {
        return text.extend_from_slice(b"consistent");
    };
    push_pieces(
        text,
        &[
            Piece::Word(b"contradicted "),
            Piece::Number(place.vector + 1),
            Piece::Word(b" "),
            Piece::Name(output_name(circuit, place.output)),
        ],
    )
}
