//! Lists of lines of a proofs text.
ghost use Rattle.std.specs.Prelude.{◌≡◌, ◌++◌, flat_map, OnOk, Some};
ghost use Rattle.ht_entries.specs.EntryLines.{told_lines, walk_lines, attempt_lines, aim_lines, length_lines, sweep_lines};
ghost use Rattle.ht_entries.specs.LineTexts.{lines_text, z_lines, token_lines, set_lines, vectors_text};

use crate::write_line::{
    push_counted, push_frame, push_indexed, push_set, push_token, push_vector,
};
use ht_items::Items;
use ht_net::Vectors;
use ht_tree::{Aim, Assign, Token, Told};
use std::alloc::{AllocError, Global};

// Appends the lines of the flip-flops at which the two machines may differ.
fn push_z(text: &mut Vec<u8>, z: &[u32]) -> Result<(), AllocError>
    ensures { OnOk result (text.new.items ≡ text.old.items ++ lines_text (z_lines z.now)) }
{
    for j in z {
        push_indexed(text, b"z ", *j)?;
    }
    Ok(())
}

// Appends the lines of tokens.
pub fn push_tokens(text: &mut Vec<u8>, tokens: &[Token]) -> Result<(), AllocError>
    ensures { OnOk result
        (text.new.items ≡ text.old.items ++ lines_text (token_lines tokens.now)) }
{
    for token in tokens {
        push_token(text, *token)?;
    }
    Ok(())
}

// Appends the lines of the decisions of a told frame.
fn push_sets(text: &mut Vec<u8>, sets: &[Assign]) -> Result<(), AllocError>
    ensures { OnOk result (text.new.items ≡ text.old.items ++ lines_text (set_lines sets.now)) }
{
    for set in sets {
        push_set(text, *set)?;
    }
    Ok(())
}

// Appends the lines of a told frame.
fn push_told_frame(text: &mut Vec<u8>, frame: &Told) -> Result<(), AllocError>
    ensures { OnOk result (text.new.items ≡ text.old.items ++ lines_text (told_lines frame.now)) }
{
    push_frame(text, frame.place)?;
    push_sets(text, frame.sets.as_slice())
}

// Appends the lines of told frames.
pub fn push_told(text: &mut Vec<u8>, told: &[Told]) -> Result<(), AllocError>
    ensures { OnOk result
        (text.new.items ≡ text.old.items ++ lines_text (flat_map told_lines told.now)) }
{
    for frame in told {
        push_told_frame(text, frame)?;
    }
    Ok(())
}

// Appends the lines of the walk after the told frames, if there is one.
pub fn push_walk(text: &mut Vec<u8>, walk: &Option<Items<Token>>) -> Result<(), AllocError>
    ensures { OnOk result (text.new.items ≡ text.old.items ++ lines_text (walk_lines walk.now)) }
{
    match walk {
        Some(tokens) => push_begun_walk(text, tokens.as_slice()),
        None => Ok(()),
    }
}

// Appends the lines of a walk.
fn push_begun_walk(text: &mut Vec<u8>, tokens: &[Token]) -> Result<(), AllocError>
    ensures { OnOk result
        (text.new.items ≡ text.old.items ++ lines_text (walk_lines (Some tokens.now))) }
{
    text.extend_from_slice(b"walk\n")?;
    push_tokens(text, tokens)
}

// Appends the lines of the flip-flops at which the two machines may differ, and of the walk of the window.
pub fn push_window(text: &mut Vec<u8>, z: &[u32], tokens: &[Token]) -> Result<(), AllocError>
    ensures { OnOk result (text.new.items ≡ text.old.items
        ++ (lines_text (z_lines z.now) ++ lines_text (walk_lines (Some tokens.now)))) }
{
    push_z(text, z)?;
    push_begun_walk(text, tokens)
}

// Appends the lines of vectors, each after the word for their list.
fn push_vectors(
    alloc: Global,
    text: &mut Vec<u8>,
    word: &[u8],
    vectors: &Vectors,
) -> Result<(), AllocError>
    ensures { OnOk result
        (text.new.items ≡ text.old.items ++ vectors_text word.now vectors.now.list) }
{
    for t in 0..vectors.len() {
        push_vector(alloc, text, word, vectors.get(t))?;
    }
    Ok(())
}

// Appends the lines of how the attempt ended, if there was one.
pub fn push_aim(alloc: Global, text: &mut Vec<u8>, aim: &Option<Aim>) -> Result<(), AllocError>
    ensures { OnOk result (text.new.items ≡ text.old.items ++ lines_text (aim_lines aim.now)) }
{
    match aim {
        None => Ok(()),
        Some(Aim::ForwardClosed(tokens)) => push_search(text, b"forward closed\n", tokens),
        Some(Aim::ForwardOpen(tokens)) => push_search(text, b"forward open\n", tokens),
        Some(Aim::BackClosed(tokens)) => push_search(text, b"back closed\n", tokens),
        Some(Aim::BackOpen(tokens)) => push_search(text, b"back open\n", tokens),
        Some(Aim::Attempt { back, ahead }) => push_attempt(alloc, text, back, ahead),
    }
}

// Appends the lines of an attempt, by its two lists.
fn push_attempt(
    alloc: Global,
    text: &mut Vec<u8>,
    back: &Vectors,
    ahead: &Vectors,
) -> Result<(), AllocError>
    ensures { OnOk result (text.new.items
        ≡ text.old.items ++ lines_text (attempt_lines back.now.list ahead.now.list)) }
{
    text.extend_from_slice(b"attempt\n")?;
    push_vectors(alloc, text, b"justify ", back)?;
    push_vectors(alloc, text, b"ahead ", ahead)
}

// Appends the line that says how a search ended, and its tokens.
fn push_search(text: &mut Vec<u8>, line: &[u8], tokens: &Items<Token>) -> Result<(), AllocError>
    ensures { OnOk result (text.new.items
        ≡ text.old.items ++ (line.now ++ lines_text (token_lines tokens.now))) }
{
    text.extend_from_slice(line)?;
    push_tokens(text, tokens.as_slice())
}

/// Appends the lines of the walks for 1 frame, 2 frames and so on.
///
/// # Errors
/// Out of memory.
pub fn push_lengths(text: &mut Vec<u8>, walks: &[Items<Token>]) -> Result<(), AllocError>
    ensures { OnOk result
        (text.new.items ≡ text.old.items ++ lines_text (length_lines 1 walks.now)) }
{
    for i in 0..walks.len() {
        push_counted(text, b"length ", i as u64 + 1)?;
        push_tokens(text, walks[i].as_slice())?;
    }
    Ok(())
}

// Appends the lines of a sweep.
pub fn push_sweep(text: &mut Vec<u8>, walks: &[Items<Token>]) -> Result<(), AllocError>
    ensures { OnOk result
        (text.new.items ≡ text.old.items ++ lines_text (sweep_lines (Some walks.now))) }
{
    text.extend_from_slice(b"sweep\n")?;
    push_lengths(text, walks)
}
