//! The head line of a report.
ghost use Rattle.std.specs.Prelude.{◌≡◌, ◌++◌, IfOk, OnOk};
ghost use Rattle.ht_faults.specs.Classes.{AreClasses};
ghost use Rattle.ht_texts.specs.Lines.{with_lf};
ghost use Rattle.ht_texts.specs.Pieces.{add_pieces};
ghost use Rattle.ht_texts.specs.PiecesOf.{pieces_of};
ghost use Rattle.ht_texts.specs.Reports.{budget_pieces, circuit_sizes, fault_sizes, head_line};

use crate::class_counts::count_classes;
use crate::piece::{Piece, push_pieces};
use ht_faults::Classes;
use ht_net::Circuit;
use std::alloc::{AllocError, Global};

/// The first line of a report, with its LF: the sizes of the circuit, of its fault list and of the list's classes,
/// and of a search the budget. Of s27, simulated: `circuit inputs 4 outputs 1 flip-flops 3 gates 10 faults 52 classes
/// 32`; searched, it ends with ` budget 1000`.
///
/// # Errors
///
/// `AllocError`: out of memory.
pub fn write_head(
    alloc: Global,
    circuit: &Circuit,
    classes: &Classes,
    budget: Option<u64>,
) -> Result<Vec<u8>, AllocError>
    requires classes { AreClasses circuit.now classes.now }
    ensures { IfOk result
        (λ line. line.items ≡ with_lf (head_line circuit.now classes.now budget)) }
{
    let mut line = Vec::new(alloc);
    push_pieces(&mut line, &sizes_of(circuit, classes))?;
    push_budget(&mut line, budget)?;
    line.extend_from_slice(b"\n")?;
    Ok(line)
}

// The sizes of the circuit, of its fault list and of the list's classes.
pub fn sizes_of(circuit: &Circuit, classes: &Classes) -> [Piece<'static>; 12]
    requires { AreClasses circuit.now classes.now }
    ensures { pieces_of result ≡ circuit_sizes circuit.now ++ fault_sizes circuit.now classes.now }
{
    [
        Piece::Word(b"circuit inputs "),
        Piece::Number(u64::from(circuit.inputs())),
        Piece::Word(b" outputs "),
        Piece::Number(u64::from(circuit.outputs())),
        Piece::Word(b" flip-flops "),
        Piece::Number(u64::from(circuit.dffs())),
        Piece::Word(b" gates "),
        Piece::Number(u64::from(circuit.gates())),
        Piece::Word(b" faults "),
        Piece::Number(u64::from(classes.len())),
        Piece::Word(b" classes "),
        Piece::Number(u64::from(count_classes(classes))),
    ]
}

// Appends the budget, if there is one.
fn push_budget(text: &mut Vec<u8>, budget: Option<u64>) -> Result<(), AllocError>
    ensures { OnOk result (text.new.items ≡ add_pieces text.old.items (budget_pieces budget)) }
{
    let Some(budget) = budget else {
        return Ok(());
    };
    push_pieces(text, &[Piece::Word(b" budget "), Piece::Number(budget)])
}
