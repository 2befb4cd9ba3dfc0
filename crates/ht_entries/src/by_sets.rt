//! The form of an entry that shows a fault undetectable by sets of pairs.
ghost use Rattle.std.specs.Prelude.{◌≡◌, ◌≢◌, ◌++◌, ◌∷◌, [], ℕ, List, IfOk, IfSome, IfNone, OnOk, MatchOption, map};
ghost use Rattle.ht_pairs.specs.Included.{joined_set};
ghost use Rattle.ht_pairs.specs.Pairs.{pair};
ghost use Rattle.ht_texts.specs.Lines.{with_lf};
ghost use Rattle.ht_tree.specs.Record.FamilyRows.{dffs_of};
ghost use Rattle.ht_entries.specs.declared.by_sets.BySetsLine.TheVariants as form;
ghost use Rattle.ht_entries.specs.LineTexts.{lines_text};
ghost use Rattle.ht_entries.specs.ParsedLines.{IsParsed};
ghost use Rattle.ht_entries.specs.PartWords.{is_above};
ghost use Rattle.ht_entries.specs.BySets as by_sets;

use crate::found::Found;
use crate::parse_words::{after_word, number_before_space, number_between};
use crate::proof_line::ProofLine;
use crate::push_item::with_item;
use crate::write_line::push_entry_head;
use ht_items::Items;
use ht_pairs::PairSet;
use ht_tern::Tern;
use ht_texts::{push_number, tern_character};
use ht_tree::FamilyRow;
use std::alloc::AllocError;

/// A line that only an entry of this form has.
#[derive(Drop)]
pub enum BySetsLine {
    /// `entry 7 undetectable by sets`: the entry of the fault of this number begins.
    Begins(u32),
    /// `pairs 3 00 0X XX`: the set of pairs of a flip-flop, which counts from 0 here.
    Pairs(FamilyRow),
}

// The nine pairs, in the order of the text.
const PAIRS: &[(Tern, Tern)] = &[
    (Tern::Zero, Tern::Zero),
    (Tern::Zero, Tern::One),
    (Tern::Zero, Tern::Unk),
    (Tern::One, Tern::Zero),
    (Tern::One, Tern::One),
    (Tern::One, Tern::Unk),
    (Tern::Unk, Tern::Zero),
    (Tern::Unk, Tern::One),
    (Tern::Unk, Tern::Unk),
];

// A pair, after a space.
fn after_space(good: Tern, faulty: Tern) -> [u8; 3]
    ensures { result ≡ by_sets.pairs_text (pair good faulty ∷ []) }
{
    [b' ', tern_character(good), tern_character(faulty)]
}

// ---- its lines read

// The line of this form whose text these bytes are, without the LF, or `None` where they are the text of none.
pub fn parse_by_sets(line: &[u8]) -> Option<BySetsLine>
    ensures { IsParsed by_sets.by_sets_text by_sets.IsBySetsLine line.now result }
{
    if let Some(row) = parse_row(line) {
        return Some(BySetsLine::Pairs(row));
    }
    let number = number_between(line, b"entry ", b" undetectable by sets")?;
    Some(BySetsLine::Begins(number))
}

// The line of a flip-flop and its pairs.
fn parse_row(line: &[u8]) -> Option<FamilyRow>
    ensures { IsParsed by_sets.row_text by_sets.IsRowText line.now result }
{
    let text = after_word(line, b"pairs ")?;
    let (number, pairs) = number_before_space(text)?;
    let set = parse_set(pairs)?;
    Some(FamilyRow {
        dff: number - 1,
        set,
    })
}

// The set whose pairs these are, each after a space, in the order of the text and each once.
fn parse_set(text: &[u8]) -> Option<PairSet>
    ensures { IsParsed by_sets.pairs_text by_sets.IsSetText text.now result }
{
    let mut rest = text;
    let mut set = None;
    for &(good, faulty) in PAIRS {
        if let Some(after) = after_pair(rest, good, faulty) {
            set = Some(with_pair(set, good, faulty));
            rest = after;
        }
    }
    if !rest.is_empty() {
        return None;
    }
    set
}

// What stands after a space and a pair that a text begins with.
fn after_pair(text: &[u8], good: Tern, faulty: Tern) -> Option<&[u8]>
    ensures { MatchOption result
        ((rest : List ℕ) → text.now ≢ by_sets.pairs_text (pair good faulty ∷ []) ++ rest)
        (λ rest. text.now ≡ by_sets.pairs_text (pair good faulty ∷ []) ++ rest.now) }
{
    after_word(text, &after_space(good, faulty))
}

// The set and one pair more, or that pair alone.
fn with_pair(set: Option<PairSet>, good: Tern, faulty: Tern) -> PairSet
    ensures { result ≡ joined_set (by_sets.pairs_of set) (pair good faulty ∷ []) }
{
    let single = PairSet::single(good, faulty);
    match set {
        Some(set) => set.join(single),
        None => single,
    }
}

// ---- a line more of it

// The rows with that of the line, or none where the line doesn't belong to the entry there.
pub fn grow_by_sets(rows: Items<FamilyRow>, line: &ProofLine) -> Found<Items<FamilyRow>>
    ensures { IfOk result (λ grown. grown ≡ by_sets.grow_by_sets rows line.now) }
{
    let ProofLine::BySets(BySetsLine::Pairs(row)) = line else {
        return Ok(None);
    };
    if !may_follow(rows.as_slice(), row.dff) {
        return Ok(None);
    }
    let rows = with_item(rows, *row)?;
    Ok(Some(rows))
}

// Whether a flip-flop is above that of the last row.
#[tactic(auto, using(crate::proofs::RisesLaws::above_last_row))]
fn may_follow(rows: &[FamilyRow], dff: u32) -> bool
    ensures { result ≡ is_above (dffs_of rows.now) dff }
{
    if rows.is_empty() {
        return true;
    }
    rows[rows.len() - 1].dff < dff
}

// ---- its lines written

// Appends the lines of the entry of the fault of this number.
pub fn push_by_sets(text: &mut Vec<u8>, number: u32, rows: &[FamilyRow]) -> Result<(), AllocError>
    ensures { OnOk result (text.new.items ≡ text.old.items
        ++ lines_text (by_sets.by_sets_lines number rows.now)) }
{
    push_entry_head(text, number, b" undetectable by sets")?;
    push_rows(text, rows)
}

// Appends the lines of rows.
fn push_rows(text: &mut Vec<u8>, rows: &[FamilyRow]) -> Result<(), AllocError>
    ensures { OnOk result
        (text.new.items ≡ text.old.items ++ lines_text (by_sets.row_lines rows.now)) }
{
    for row in rows {
        push_row(text, *row)?;
    }
    Ok(())
}

// Appends the line of a flip-flop and its pairs.
fn push_row(text: &mut Vec<u8>, row: FamilyRow) -> Result<(), AllocError>
    ensures { OnOk result (text.new.items ≡ text.old.items ++ with_lf (by_sets.row_text row)) }
{
    text.extend_from_slice(b"pairs ")?;
    push_number(text, u64::from(row.dff) + 1)?;
    push_set(text, row.set)?;
    text.extend_from_slice(b"\n")
}

// Appends the pairs of a set, each after a space.
fn push_set(text: &mut Vec<u8>, set: PairSet) -> Result<(), AllocError>
    ensures { OnOk result (text.new.items ≡ text.old.items ++ by_sets.pairs_text set) }
{
    // for the proof: the pairs that are tried in order are those that the set lists
    set.is_listed_in_order();
    for &(good, faulty) in PAIRS {
        if set.has(good, faulty) {
            push_pair(text, good, faulty)?;
        }
    }
    Ok(())
}

// Appends a pair, after a space.
fn push_pair(text: &mut Vec<u8>, good: Tern, faulty: Tern) -> Result<(), AllocError>
    ensures { OnOk result
        (text.new.items ≡ text.old.items ++ by_sets.pairs_text (pair good faulty ∷ [])) }
{
    text.extend_from_slice(&after_space(good, faulty))
}
