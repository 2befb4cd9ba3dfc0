//! The text of a record.
ghost use Rattle.std.specs.Prelude.{◌≡◌, ◌<◌, ◌-◌, ◌++◌, None, false, flat_map, length, count_by, get_or, IfOk, OnOk};
ghost use Rattle.ht_faults.specs.Sites.{faults_of};
ghost use Rattle.ht_faults.specs.Classes.{AreClasses, own_representatives};
ghost use Rattle.ht_texts.specs.Lines.{with_lf};
ghost use Rattle.ht_uninit.specs.UninitTexts.{held_text, held_texts, hidden_texts, removal_text, searched_texts};
ghost use Rattle.ht_uninit.specs.UninitTexts.{uninit_body, uninit_head, uninit_total};

use crate::record_lines::{push_hidden, push_removal, push_searched, push_walk};
use crate::uninit_record::UninitRecord;
use ht_faults::{Classes, FaultList};
use ht_net::Circuit;
use ht_texts::{Piece, count_classes, push_line};
use std::alloc::{AllocError, Global};

/// The text of a record without its total line: the head line
/// `uninit flip-flops 1 outputs 1 faults 6 classes 4 budget 1000`; the removals, the flip-flops that are held to the end
/// and the outputs, each with its decisions or its walk; and a line for each fault, as `1 a s-a-0 hidden`, where one that
/// isn't a representative has `as` and its representative's number. The record is of the whole fault list.
///
/// # Errors
/// Out of memory.
pub fn write_uninit_body(
    alloc: Global,
    circuit: &Circuit,
    faults: &FaultList,
    classes: &Classes,
    budget: u64,
    answer: &UninitRecord,
) -> Result<Vec<u8>, AllocError>
    requires faults { faults.now ≡ faults_of circuit.now }
    requires classes { AreClasses circuit.now classes.now }
    requires walks { length answer.now.walks ≡ length circuit.now.dffs }
    requires outs { length answer.now.outs ≡ length circuit.now.outputs }
    requires hidden { length answer.now.hidden ≡ length faults.now }
    ensures { IfOk result (λ body. body.items
        ≡ uninit_body circuit.now classes.now budget answer.now) }
{
    let mut body = Vec::new(alloc);
    let dffs = circuit.dffs();
    let outputs = circuit.outputs();
    let count = faults.len();
    let class_count = count_classes(classes);
    push_head(&mut body, dffs, outputs, count, class_count, budget)?;
    push_removals(&mut body, answer)?;
    push_held(&mut body, dffs, answer)?;
    push_outputs(&mut body, outputs, answer)?;
    push_faults(&mut body, circuit, faults, classes, answer)?;
    Ok(body)
}

/// The last line of a record's text, with its LF: how many classes there are, of how many the representative is hidden,
/// and how many flip-flops are held to the end, as `total 4 hidden 4 held 1`.
///
/// # Errors
/// Out of memory.
pub fn write_uninit_total(
    alloc: Global,
    circuit: &Circuit,
    classes: &Classes,
    answer: &UninitRecord,
) -> Result<Vec<u8>, AllocError>
    requires { length answer.now.hidden ≡ length classes.now }
    ensures { IfOk result
        (λ line. line.items ≡ with_lf (uninit_total circuit.now classes.now answer.now)) }
{
    let mut line = Vec::new(alloc);
    push_line(
        &mut line,
        &[
            Piece::Word(b"total "),
            Piece::Number(u64::from(count_classes(classes))),
            Piece::Word(b" hidden "),
            Piece::Number(count_hidden(classes, answer)),
            Piece::Word(b" held "),
            Piece::Number(count_held(circuit, answer)),
        ],
    )?;
    Ok(line)
}

// How many flip-flops are held to the end.
fn count_held(circuit: &Circuit, answer: &UninitRecord) -> u64
    ensures { result ≡ length circuit.now.dffs - length answer.now.removed }
{
    let dffs = circuit.dffs() as u64;
    let removed = answer.removals() as u64;
    if removed < dffs {
        return dffs - removed;
    }
    0
}

// Of how many classes the representative is hidden.
fn count_hidden(classes: &Classes, answer: &UninitRecord) -> u64
    requires { length answer.now.hidden ≡ length classes.now }
    ensures { result ≡ count_by (λ i. get_or answer.now.hidden i false)
        (own_representatives classes.now) }
{
    let mut count = 0;
    for i in classes.representatives() {
        if answer.hidden(*i) {
            count += 1;
        }
    }
    count
}

// Appends the head line.
fn push_head(
    text: &mut Vec<u8>,
    dffs: u32,
    outputs: u32,
    faults: u32,
    classes: u32,
    budget: u64,
) -> Result<(), AllocError>
    ensures { OnOk result (text.new.items
        ≡ text.old.items ++ with_lf (uninit_head dffs outputs faults classes budget)) }
{
    push_line(
        text,
        &[
            Piece::Word(b"uninit flip-flops "),
            Piece::Number(u64::from(dffs)),
            Piece::Word(b" outputs "),
            Piece::Number(u64::from(outputs)),
            Piece::Word(b" faults "),
            Piece::Number(u64::from(faults)),
            Piece::Word(b" classes "),
            Piece::Number(u64::from(classes)),
            Piece::Word(b" budget "),
            Piece::Number(budget),
        ],
    )
}

// Appends the removals, in their order.
fn push_removals(text: &mut Vec<u8>, answer: &UninitRecord) -> Result<(), AllocError>
    ensures { OnOk result (text.new.items
        ≡ text.old.items ++ flat_map removal_text answer.now.removed) }
{
    for i in 0..answer.removals() {
        push_removal(text, answer.removed(i))?;
    }
    Ok(())
}

// Appends the flip-flops that are held to the end, with their walks.
fn push_held(text: &mut Vec<u8>, dffs: u32, answer: &UninitRecord) -> Result<(), AllocError>
    requires { length answer.now.walks ≡ dffs }
    ensures { OnOk result
        (text.new.items ≡ text.old.items ++ held_texts answer.now.walks dffs) }
{
    for j in 0..dffs {
        push_held_dff(text, j, answer)?;
    }
    Ok(())
}

// Appends flip-flop j, if it is held to the end.
fn push_held_dff(text: &mut Vec<u8>, j: u32, answer: &UninitRecord) -> Result<(), AllocError>
    requires { j < length answer.now.walks }
    ensures { OnOk result (text.new.items
        ≡ text.old.items ++ held_text j (get_or answer.now.walks j None)) }
{
    match answer.held(j) {
        Some(tokens) => {
            push_walk(text, b"held ", j, tokens)?;
            Ok(())
        },
        None => Ok(()),
    }
}

// Appends the outputs, with their walks or decisions.
fn push_outputs(text: &mut Vec<u8>, outputs: u32, answer: &UninitRecord) -> Result<(), AllocError>
    requires { length answer.now.outs ≡ outputs }
    ensures { OnOk result
        (text.new.items ≡ text.old.items ++ searched_texts answer.now.outs outputs) }
{
    for o in 0..outputs {
        push_searched(text, o, answer.output(o))?;
    }
    Ok(())
}

// Appends the faults.
fn push_faults(
    text: &mut Vec<u8>,
    circuit: &Circuit,
    faults: &FaultList,
    classes: &Classes,
    answer: &UninitRecord,
) -> Result<(), AllocError>
    requires faults { faults.now ≡ faults_of circuit.now }
    requires classes { AreClasses circuit.now classes.now }
    requires hidden { length answer.now.hidden ≡ length faults.now }
    ensures { OnOk result (text.new.items
        ≡ text.old.items
        ++ hidden_texts circuit.now classes.now answer.now.hidden (length faults.now)) }
{
    for i in 0..faults.len() {
        push_hidden(text, circuit, faults, classes, i, answer.hidden(i))?;
    }
    Ok(())
}
