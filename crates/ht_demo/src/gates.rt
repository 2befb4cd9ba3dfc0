//! The lines of the gates, as they are drawn.
ghost use Rattle.std.specs.Prelude.{◌≡◌, ◌≤◌, ◌++◌, map, codes, IfOk, OnOk};
ghost use Rattle.ht_random.specs.Words.{next_word, after_word, after_words};
ghost use Rattle.ht_statement.specs.StatementText.{kind_text, arguments_text};
ghost use Rattle.ht_demo.specs.Counts.{max_demo_size, demo_name};
ghost use Rattle.ht_demo.specs.Draws.{argument_count, argument_by_word, drawn_arguments, after_gate, after_gates};
ghost use Rattle.ht_demo.specs.DemoText.{demo_name_of, drawn_gate_line, demo_gate_lines};

use crate::counts::{first_gate, push_name};
use crate::kind::{is_unary, kind_by_word};
use ht_random::Words;
use ht_statement::kind_text;
use ht_tern::Kind;
use std::alloc::{AllocError, Global};

/// The lines of all gates.
pub fn gate_lines(alloc: Global, size: u32, words: &mut Words) -> Result<Vec<u8>, AllocError>
    requires { size ≤ max_demo_size }
    ensures text { IfOk result (λ text. text.items ≡ demo_gate_lines size words.old size) }
    ensures after { OnOk result (words.new ≡ after_gates size words.old) }
{
    let mut text = Vec::new(alloc);
    let first = first_gate(size);
    for gate in 0..size {
        push_gate(&mut text, words, size, first + gate)?;
    }
    Ok(text)
}

// Appends the line of the next gate, with so many nets before it.
fn push_gate(text: &mut Vec<u8>, words: &mut Words, size: u32, nets: u32) -> Result<(), AllocError>
    requires { 1 ≤ nets }
    ensures text { OnOk result
        (text.new.items ≡ text.old.items ++ drawn_gate_line size nets words.old) }
    ensures after { OnOk result (words.new ≡ after_gate words.old) }
{
    let kind = kind_by_word(words.next());
    push_opening(text, size, nets, kind)?;
    push_arguments(text, words, size, nets, kind)?;
    text.extend_from_slice(b")\n")
}

// Appends the line of a gate up to its arguments.
fn push_opening(text: &mut Vec<u8>, size: u32, net: u32, kind: Kind) -> Result<(), AllocError>
    ensures { OnOk result (text.new.items
        ≡ text.old.items ++ (demo_name size net ++ codes " = " ++ kind_text kind ++ codes "(")) }
{
    push_name(text, size, net)?;
    text.extend_from_slice(b" = ")?;
    text.extend_from_slice(kind_text(kind))?;
    text.extend_from_slice(b"(")
}

// Appends the next arguments of a gate of this kind.
fn push_arguments(
    text: &mut Vec<u8>,
    words: &mut Words,
    size: u32,
    nets: u32,
    kind: Kind,
) -> Result<(), AllocError>
    requires { 1 ≤ nets }
    ensures text { OnOk result (text.new.items ≡ text.old.items
        ++ arguments_text (map (demo_name_of size) (drawn_arguments nets kind words.old))) }
    ensures after { OnOk result (words.new ≡ after_words (argument_count kind) words.old) }
{
    push_argument(text, words, size, nets)?;
    if is_unary(kind) {
        return Ok(());
    }
    text.extend_from_slice(b", ")?;
    push_argument(text, words, size, nets)
}

// Appends the name of the next argument.
fn push_argument(
    text: &mut Vec<u8>,
    words: &mut Words,
    size: u32,
    nets: u32,
) -> Result<(), AllocError>
    requires { 1 ≤ nets }
    ensures text { OnOk result (text.new.items ≡ text.old.items
        ++ demo_name_of size (argument_by_word nets (next_word words.old))) }
    ensures after { OnOk result (words.new ≡ after_word words.old) }
{
    let argument = argument_by_word(nets, words.next());
    push_name(text, size, argument)
}

// The net that a word gives to a gate with so many nets before it: one of the last 64.
fn argument_by_word(nets: u32, word: u32) -> u32
    requires { 1 ≤ nets }
    ensures { result ≡ (argument_by_word nets word).0 }
{
    nets - 1 - word % nets.min(64)
}
