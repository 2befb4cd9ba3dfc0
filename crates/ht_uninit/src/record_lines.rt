//! The lines of decisions, walks and faults in the text of a record.
ghost use Rattle.std.specs.Prelude.{◌≡◌, ◌<◌, ◌++◌, length, OnOk};
ghost use Rattle.ht_faults.specs.Sites.{faults_of};
ghost use Rattle.ht_faults.specs.Classes.{AreClasses};
ghost use Rattle.ht_texts.specs.Lines.{with_lf};
ghost use Rattle.ht_texts.specs.Pieces.{add_pieces};
ghost use Rattle.ht_uninit.specs.UninitTexts.{decision_text, decisions_text, hidden_line, hidden_pieces, removal_text, searched_text, walk_text};

use crate::record::{Out3, Removed};
use ht_entries::{push_indexed, push_token};
use ht_faults::{Classes, FaultList};
use ht_net::Circuit;
use ht_tern::Tern;
use ht_texts::{Piece, Said, push_fault, push_line_front, push_pieces};
use ht_tree::{Assign3, Token};
use std::alloc::AllocError;

// Appends the line of a decision.
fn push_decision(text: &mut Vec<u8>, set: Assign3) -> Result<(), AllocError>
    ensures { OnOk result (text.new.items ≡ text.old.items ++ with_lf (decision_text set)) }
{
    push_pieces(
        text,
        &[Piece::Word(b"set "), Piece::Number(u64::from(set.var) + 1)],
    )?;
    match set.value {
        Tern::Zero => text.extend_from_slice(b" 0\n"),
        Tern::One => text.extend_from_slice(b" 1\n"),
        Tern::Unk => text.extend_from_slice(b" X\n"),
    }
}

// Appends the line of what has this index, and its walk.
pub fn push_walk(
    text: &mut Vec<u8>,
    word: &[u8],
    index: u32,
    tokens: &[Token],
) -> Result<(), AllocError>
    ensures { OnOk result
        (text.new.items ≡ text.old.items ++ walk_text word.now index tokens.now) }
{
    push_indexed(text, word, index)?;
    for token in tokens {
        push_token(text, *token)?;
    }
    Ok(())
}

// Appends the line of what has this index, and its decisions.
fn push_decisions(
    text: &mut Vec<u8>,
    word: &[u8],
    index: u32,
    sets: &[Assign3],
) -> Result<(), AllocError>
    ensures { OnOk result
        (text.new.items ≡ text.old.items ++ decisions_text word.now index sets.now) }
{
    push_indexed(text, word, index)?;
    for set in sets {
        push_decision(text, *set)?;
    }
    Ok(())
}

// Appends the lines of a removal.
pub fn push_removal(text: &mut Vec<u8>, removed: &Removed) -> Result<(), AllocError>
    ensures { OnOk result (text.new.items ≡ text.old.items ++ removal_text removed.now) }
{
    match removed {
        Removed::Free { dff, sets } => push_decisions(text, b"free ", *dff, sets.as_slice()),
        Removed::Spent { dff, tokens } => push_walk(text, b"spent ", *dff, tokens.as_slice()),
    }
}

// Appends the lines of output o.
pub fn push_searched(text: &mut Vec<u8>, o: u32, out: &Out3) -> Result<(), AllocError>
    ensures { OnOk result (text.new.items ≡ text.old.items ++ searched_text o out.now) }
{
    match out {
        Out3::Mute { tokens } => push_walk(text, b"mute ", o, tokens.as_slice()),
        Out3::Seen { sets } => push_decisions(text, b"seen ", o, sets.as_slice()),
        Out3::Open { tokens } => push_walk(text, b"open ", o, tokens.as_slice()),
    }
}

// Appends the line of fault i.
pub fn push_hidden(
    text: &mut Vec<u8>,
    circuit: &Circuit,
    faults: &FaultList,
    classes: &Classes,
    i: u32,
    hidden: bool,
) -> Result<(), AllocError>
    requires faults { faults.now ≡ faults_of circuit.now }
    requires classes { AreClasses circuit.now classes.now }
    requires fault { i < length faults.now }
    ensures { OnOk result (text.new.items
        ≡ text.old.items ++ with_lf (hidden_line circuit.now classes.now i hidden)) }
{
    if classes.of(i) != i {
        return push_fault(text, circuit, faults, classes, i, Said::Undetected);
    }
    push_line_front(text, circuit, faults, i)?;
    push_mark(text, hidden)?;
    text.extend_from_slice(b"\n")?;
    Ok(())
}

// Appends whether a representative is hidden.
fn push_mark(text: &mut Vec<u8>, hidden: bool) -> Result<(), AllocError>
    ensures { OnOk result (text.new.items ≡ add_pieces text.old.items (hidden_pieces hidden)) }
{
    match hidden {
        true => text.extend_from_slice(b"hidden"),
        false => text.extend_from_slice(b"possible"),
    }
}
