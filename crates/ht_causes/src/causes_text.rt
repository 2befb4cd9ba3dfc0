//! The report of causes.
ghost use Rattle.std.specs.Prelude.{◌≡◌, ◌<◌, ◌++◌, true, length, IfOk, OnOk};
ghost use Rattle.ht_net.specs.Detect.Detection.{IsPlace};
ghost use Rattle.ht_faults.specs.Sites.{faults_of};
ghost use Rattle.ht_faults.specs.Classes.{AreClasses, is_representative};
ghost use Rattle.ht_texts.specs.Lines.{with_lf};
ghost use Rattle.ht_texts.specs.Pieces.{add_pieces};
ghost use Rattle.ht_texts.specs.Verdicts.{place_pieces};
ghost use Rattle.ht_causes.specs.Causes.{cause_at, table_row};
ghost use Rattle.ht_causes.specs.CauseTexts.{HaveLines, IsCauseIn, IsLatchPlace, cause_line, cause_pieces};
ghost use Rattle.ht_causes.specs.CauseTexts.{causes_body, causes_total, latch_place_pieces, row_count};

use crate::cause::{Cause, LatchPlace};
use ht_faults::{Classes, FaultList};
use ht_net::{Circuit, Place};
use ht_texts::{
    Piece, Said, count_classes, output_name, push_fault, push_line, push_line_front, push_pieces,
    write_head,
};
use std::alloc::{AllocError, Global};

/// The report of causes without its total line: the head line of a simulation's report, and a line for each fault, as
/// `2 a s-a-1 stored 2 q`. A fault that isn't a representative has `as` and its representative's number.
///
/// # Errors
///
/// `AllocError`: out of memory.
pub fn write_causes_body(
    alloc: Global,
    circuit: &Circuit,
    faults: &FaultList,
    classes: &Classes,
    causes: &[Cause],
) -> Result<Vec<u8>, AllocError>
    requires faults { faults.now ≡ faults_of circuit.now }
    requires classes { AreClasses circuit.now classes.now }
    requires causes { HaveLines circuit.now classes.now causes.now }
    ensures { IfOk result
        (λ body. body.items ≡ causes_body circuit.now classes.now causes.now) }
{
    let mut body = write_head(alloc, circuit, classes, None)?;
    for i in 0..faults.len() {
        push_cause_line(&mut body, circuit, faults, classes, i, causes[i as usize])?;
    }
    Ok(body)
}

/// The last line of the report, with its LF: how many classes there are, and how many have each cause, as
/// `total 6 detected 3 possible 0 stored 2 stopped 0 unexcited 1 unknown 0`.
///
/// # Errors
///
/// `AllocError`: out of memory.
pub fn write_causes_total(
    alloc: Global,
    classes: &Classes,
    causes: &[Cause],
) -> Result<Vec<u8>, AllocError>
    requires { length causes.now ≡ length classes.now }
    ensures { IfOk result
        (λ line. line.items ≡ with_lf (causes_total classes.now causes.now)) }
{
    let mut line = Vec::new(alloc);
    push_line(
        &mut line,
        &[
            Piece::Word(b"total "),
            Piece::Number(u64::from(count_classes(classes))),
            Piece::Word(b" detected "),
            Piece::Number(count_row(classes, causes, 0)),
            Piece::Word(b" possible "),
            Piece::Number(count_row(classes, causes, 1)),
            Piece::Word(b" stored "),
            Piece::Number(count_row(classes, causes, 2)),
            Piece::Word(b" stopped "),
            Piece::Number(count_row(classes, causes, 3)),
            Piece::Word(b" unexcited "),
            Piece::Number(count_row(classes, causes, 4)),
            Piece::Word(b" unknown "),
            Piece::Number(count_row(classes, causes, 5)),
        ],
    )?;
    Ok(line)
}

// The row of the cause that is listed for fault `i`.
fn row_at(causes: &[Cause], i: u32) -> u8
    requires { i < length causes.now }
    ensures { result ≡ table_row (cause_at causes.now i) }
{
    causes[i as usize].row()
}

// How many classes have a cause in this row of the table.
fn count_row(classes: &Classes, causes: &[Cause], row: u8) -> u64
    requires { length causes.now ≡ length classes.now }
    ensures { result ≡ row_count classes.now causes.now row }
{
    let mut count = 0;
    for i in classes.representatives() {
        if row_at(causes, *i) == row {
            count += 1;
        }
    }
    count
}

// Appends the line of fault `i`.
fn push_cause_line(
    text: &mut Vec<u8>,
    circuit: &Circuit,
    faults: &FaultList,
    classes: &Classes,
    i: u32,
    cause: Cause,
) -> Result<(), AllocError>
    requires faults { faults.now ≡ faults_of circuit.now }
    requires classes { AreClasses circuit.now classes.now }
    requires fault { i < length faults.now }
    requires within { is_representative classes.now i ≡ true → IsCauseIn circuit.now cause }
    ensures { OnOk result (text.new.items
        ≡ text.old.items ++ with_lf (cause_line circuit.now classes.now i cause)) }
{
    if classes.of(i) != i {
        return push_fault(text, circuit, faults, classes, i, Said::Undetected);
    }
    push_line_front(text, circuit, faults, i)?;
    push_cause(text, circuit, cause)?;
    text.extend_from_slice(b"\n")?;
    Ok(())
}

// Appends a cause.
fn push_cause(text: &mut Vec<u8>, circuit: &Circuit, cause: Cause) -> Result<(), AllocError>
    requires { IsCauseIn circuit.now cause }
    ensures { OnOk result
        (text.new.items ≡ add_pieces text.old.items (cause_pieces circuit.now cause)) }
{
    match cause {
        Cause::Detected(place) => {
            text.extend_from_slice(b"detected ")?;
            push_place(text, circuit, place)
        },
        Cause::Possible(place) => {
            text.extend_from_slice(b"possible ")?;
            push_place(text, circuit, place)
        },
        Cause::Stored(place) => {
            text.extend_from_slice(b"stored ")?;
            push_latch_place(text, circuit, place)
        },
        Cause::Stopped(vector) => push_pieces(
            text,
            &[Piece::Word(b"stopped "), Piece::Number(vector + 1)],
        ),
        Cause::Unexcited => text.extend_from_slice(b"unexcited"),
        Cause::Unknown => text.extend_from_slice(b"unknown"),
    }
}

// Appends a vector and an output.
fn push_place(text: &mut Vec<u8>, circuit: &Circuit, place: Place) -> Result<(), AllocError>
    requires { IsPlace circuit.now place }
    ensures { OnOk result
        (text.new.items ≡ add_pieces text.old.items (place_pieces circuit.now place)) }
{
    push_pieces(
        text,
        &[
            Piece::Number(place.vector + 1),
            Piece::Word(b" "),
            Piece::Name(output_name(circuit, place.output)),
        ],
    )
}

// Appends a vector and a flip-flop.
fn push_latch_place(
    text: &mut Vec<u8>,
    circuit: &Circuit,
    place: LatchPlace,
) -> Result<(), AllocError>
    requires { IsLatchPlace circuit.now place }
    ensures { OnOk result
        (text.new.items ≡ add_pieces text.old.items (latch_place_pieces circuit.now place)) }
{
    push_pieces(
        text,
        &[
            Piece::Number(place.vector + 1),
            Piece::Word(b" "),
            Piece::Name(circuit.name(circuit.dff_net(place.dff))),
        ],
    )
}
