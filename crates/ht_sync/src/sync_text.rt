//! The text of the record of a search for a list that synchronizes.
ghost use Rattle.std.specs.Prelude.{◌≡◌, ◌++◌, OnOk, IfOk, length};
ghost use Rattle.ht_texts.specs.Lines.{with_lf};
ghost use Rattle.ht_sync.specs.SyncTexts.{last_sync_line, sync_body, sync_head, sync_said};

use crate::synchronizing::Synchronized;
use ht_entries::{push_counted, push_lengths};
use ht_net::Circuit;
use ht_texts::{push_number, write_vector};
use std::alloc::{AllocError, Global};

// Appends the head line.
fn push_head(text: &mut Vec<u8>, latches: u32, budget: u64) -> Result<(), AllocError>
    ensures { OnOk result
        (text.new.items ≡ text.old.items ++ with_lf (sync_head latches budget)) }
{
    text.extend_from_slice(b"sync flip-flops ")?;
    push_number(text, u64::from(latches))?;
    push_counted(text, b" budget ", budget)
}

/// The text of a record without its last line: the head line `sync flip-flops 2 budget 1000`, the walks after
/// `length 1`, `length 2` and so on, and where a list was found `found 2`.
///
/// # Errors
/// Out of memory.
pub fn write_sync_body(
    alloc: Global,
    circuit: &Circuit,
    budget: u64,
    answer: &Synchronized,
) -> Result<Vec<u8>, AllocError>
    ensures { IfOk result
        (λ text. text.items ≡ sync_body (length circuit.now.dffs) budget answer.now) }
{
    let mut text = Vec::new(alloc);
    push_head(&mut text, circuit.dffs(), budget)?;
    match answer {
        Synchronized::Found { list, walks, .. } => {
            push_lengths(&mut text, walks.as_slice())?;
            push_counted(&mut text, b"found ", list.len())?;
        },
        Synchronized::Spent { walks } => push_lengths(&mut text, walks.as_slice())?,
    }
    Ok(text)
}

/// The last line of a record, with its LF: `state 00`, with `-` where there are no flip-flops, or `spent`.
///
/// # Errors
/// Out of memory.
pub fn write_sync_last(alloc: Global, answer: &Synchronized) -> Result<Vec<u8>, AllocError>
    ensures { IfOk result (λ line. line.items ≡ with_lf (last_sync_line answer.now)) }
{
    let mut line = Vec::new(alloc);
    match answer {
        Synchronized::Found { state, .. } => {
            let bits = state.as_slice();
            line.extend_from_slice(b"state ")?;
            if bits.is_empty() {
                line.extend_from_slice(b"-\n")?;
            } else {
                line.extend_from_slice(&write_vector(alloc, bits)?)?;
            }
        },
        Synchronized::Spent { walks: _ } => line.extend_from_slice(b"spent\n")?,
    }
    Ok(line)
}

/// What is said of a record, with its LF: how many vectors the list has, `sync 2`, or for how many lengths no list
/// synchronizes, `spent 4`.
///
/// # Errors
/// Out of memory.
pub fn write_sync_said(alloc: Global, answer: &Synchronized) -> Result<Vec<u8>, AllocError>
    ensures { IfOk result (λ line. line.items ≡ with_lf (sync_said answer.now)) }
{
    let mut line = Vec::new(alloc);
    match answer {
        Synchronized::Found { list, .. } => push_counted(&mut line, b"sync ", list.len())?,
        Synchronized::Spent { walks } => {
            let complete = (walks.as_slice().len() as u64).saturating_sub(1);
            push_counted(&mut line, b"spent ", complete)?
        },
    }
    Ok(line)
}
