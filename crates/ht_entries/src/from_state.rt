//! The form of an entry that refutes a fault from one named state.
ghost use Rattle.std.specs.Prelude.{◌≡◌, ◌≢◌, ◌++◌, ◌∷◌, ◌&&◌, [], ℕ, is_some, ltb, length, IsTrue, List, Some, IfOk, IfSome, IfNone, OnOk, MatchOption, flat_map};
ghost use Rattle.ht_texts.specs.Lines.{with_lf};
ghost use Rattle.ht_texts.specs.Tests.{vector_text};
ghost use Rattle.ht_tree.specs.Clause.Invariants.{max_clauses};
ghost use Rattle.ht_tree.specs.declared.clause.Literal.{Literal};
ghost use Rattle.ht_entries.specs.declared.from_state.FromStateLine.TheVariants as form;
ghost use Rattle.ht_entries.specs.declared.proof_line.ProofLine.TheVariants as one;
ghost use Rattle.ht_entries.specs.LineTexts.{lines_text};
ghost use Rattle.ht_entries.specs.LineWords.{IsIndex, IsNumber};
ghost use Rattle.ht_entries.specs.ParsedLines.{IsParsed};
ghost use Rattle.ht_entries.specs.PartWords.{where_true, is_above};
ghost use Rattle.ht_entries.specs.FromState as from_state;

use crate::found::Found;
use crate::parse_words::{after_word, number_then};
use crate::proof_line::ProofLine;
use crate::push_item::with_item;
use crate::read_refutation::{is_above, with_token};
use crate::write_line::push_bits;
use crate::write_lists::push_tokens;
use ht_items::Items;
use ht_texts::{push_number, read_vector};
use ht_tree::{Clause, Entry, Literal, Token};
use std::alloc::{AllocError, Global};
use std::mem;

// The most bits of a state: as many as a circuit has flip-flops at most.
const MAX_BITS: usize = 16_384;

// The most clauses of an entry.
const MAX_CLAUSES: usize = 32;

/// A line that only an entry of this form has.
#[derive(Drop)]
pub enum FromStateLine {
    /// `entry 7 untestable from 0110`: the entry begins, with a bit for each flip-flop.
    Begins {
        number: u32,
        state: Items<bool>,
    },
    /// `clause 1 0` or `clause 1 0 2 1`: a clause begins, of one literal or of two. Flip-flops count from 0 here.
    Clause {
        first: Literal,
        second: Option<Literal>,
    },
}

/// As much of an entry of this form as was read.
#[derive(Drop)]
pub struct FromStatePart {
    pub state: Items<bool>,
    pub clauses: Items<Clause>,
    pub z: Items<u32>,
    pub walk: Option<Items<Token>>,
}

// ---- its lines read

// The line of this form whose text these bytes are, without the LF, or `None` where they are the text of none.
pub fn parse_from_state(alloc: Global, line: &[u8]) -> Found<FromStateLine>
    ensures { IfOk result (λ parsed.
        IsParsed from_state.from_state_text from_state.IsFromStateLine line.now parsed) }
{
    if let Some(clause) = parse_clause(line) {
        return Ok(Some(clause));
    }
    parse_first(alloc, line)
}

// The line of a clause.
fn parse_clause(line: &[u8]) -> Option<FromStateLine>
    ensures some { IfSome result (λ l. from_state.IsFromStateLineText line.now l) }
    ensures none { IfNone result (from_state.IsNoClauseLine line.now) }
{
    let literals = after_word(line, b"clause ")?;
    let (first, rest) = literal_then(literals)?;
    if rest.is_empty() {
        return Some(FromStateLine::Clause {
            first,
            second: None,
        });
    }
    let second = parse_second(first, rest)?;
    Some(FromStateLine::Clause {
        first,
        second: Some(second),
    })
}

// The literal that a text begins with, and what stands after it.
fn literal_then(text: &[u8]) -> Option<(Literal, &[u8])>
    ensures { MatchOption result
        ((l : Literal) (rest : List ℕ) → IsIndex l.dff
        → text.now ≢ from_state.literal_text l ++ rest)
        (λ found. IsIndex found.0.dff
        × (text.now ≡ from_state.literal_text found.0 ++ found.1.now)) }
{
    let (number, rest) = number_then(text)?;
    if let Some(rest) = after_word(rest, b"0") {
        let literal = Literal {
            dff: number - 1,
            value: false,
        };
        return Some((literal, rest));
    }
    let rest = after_word(rest, b"1")?;
    let literal = Literal {
        dff: number - 1,
        value: true,
    };
    Some((literal, rest))
}

// The second literal of a clause, after a space.
fn parse_second(first: Literal, text: &[u8]) -> Option<Literal>
    ensures { IsParsed (λ l. from_state.second_text (Some l))
        (λ l. from_state.IsSecondText first (Some l)) text.now result }
{
    let literal = after_word(text, b" ")?;
    let (second, rest) = literal_then(literal)?;
    if !rest.is_empty() || second.dff <= first.dff {
        return None;
    }
    Some(second)
}

// The line that begins the entry.
fn parse_first(alloc: Global, line: &[u8]) -> Found<FromStateLine>
    ensures some { IfOk result (λ parsed. IfSome parsed (λ l.
        from_state.IsFromStateLineText line.now l)) }
    ensures none { IfOk result (λ parsed. IfNone parsed (from_state.IsNoFirstLine line.now)) }
{
    let Some((number, bits)) = number_and_bits(line) else {
        return Ok(None);
    };
    let Some(state) = parse_state(alloc, bits)? else {
        return Ok(None);
    };
    Ok(Some(FromStateLine::Begins { number, state }))
}

// The number of the entry that the line begins, and the characters of its state.
fn number_and_bits(line: &[u8]) -> Option<(u32, &[u8])>
    ensures { MatchOption result
        ((number : ℕ) (bits : List ℕ) → IsNumber number
        → line.now ≢ from_state.first_text number bits)
        (λ found. IsNumber found.0 × (line.now ≡ from_state.first_text found.0 found.1.now)) }
{
    let rest = after_word(line, b"entry ")?;
    let (number, rest) = number_then(rest)?;
    let bits = after_word(rest, b"untestable from ")?;
    Some((number, bits))
}

// The state, one character for each bit.
fn parse_state(alloc: Global, text: &[u8]) -> Found<Items<bool>>
    ensures { IfOk result (λ parsed. IsParsed vector_text from_state.IsStateText text.now parsed) }
{
    if text.is_empty() || text.len() > MAX_BITS {
        return Ok(None);
    }
    let Some(state) = read_vector(alloc, text, text.len() as u32)? else {
        return Ok(None);
    };
    Ok(Some(Items::from_vec(state)))
}

// ---- a line more of it

impl FromStatePart {
    // What the line `entry 7 untestable from 0110` begins.
    pub fn new(alloc: Global, state: Items<bool>) -> FromStatePart
        ensures { result ≡ from_state.begun_by state }
    {
        FromStatePart {
            state,
            clauses: Items::new(alloc),
            z: Items::new(alloc),
            walk: None,
        }
    }

    // The entry, if nothing is missing.
    pub fn entry(self) -> Option<Entry>
        ensures { result ≡ from_state.from_state_entry self }
    {
        Some(Entry::UntestableFrom {
            state: self.state,
            clauses: self.clauses,
            z: self.z,
            tokens: self.walk?,
        })
    }
}

// The part with one line more, or none where the line doesn't belong to it there.
pub fn grow_from_state(alloc: Global, part: FromStatePart, line: &ProofLine) -> Found<FromStatePart>
    ensures { IfOk result (λ grown. grown ≡ from_state.grow_from_state part line.now) }
{
    let mut part = part;
    match add_line(alloc, &mut part, line)? {
        true => Ok(Some(part)),
        false => Ok(None),
    }
}

// Adds a line to the part, where it belongs to it there, and says whether it does.
fn add_line(alloc: Global, part: &mut FromStatePart, line: &ProofLine) -> Result<bool, AllocError>
    ensures { IfOk result (λ added.
        where_true added part.new ≡ from_state.grow_from_state part.old line.now) }
{
    if part.walk.is_some() {
        return add_to_walk(part, line);
    }
    add_before_walk(alloc, part, line)
}

// In the walk of the window: a token more.
fn add_to_walk(part: &mut FromStatePart, line: &ProofLine) -> Result<bool, AllocError>
    requires { IsTrue (is_some part.old.walk) }
    ensures { IfOk result (λ added.
        where_true added part.new ≡ from_state.grow_from_state part.old line.now) }
{
    let ProofLine::Token(token) = line else {
        return Ok(false);
    };
    let Some(walk) = mem::replace(&mut part.walk, None) else {
        return Ok(false);
    };
    part.walk = Some(with_token(walk, *token)?);
    Ok(true)
}

// Before that walk: a clause, a token of its walk, a flip-flop, or the walk begins.
fn add_before_walk(
    alloc: Global,
    part: &mut FromStatePart,
    line: &ProofLine,
) -> Result<bool, AllocError>
    ensures { IfOk result (λ added.
        where_true added part.new ≡ from_state.grow_before_walk part.old line.now) }
{
    match line {
        ProofLine::FromState(line) => add_clause(alloc, part, line),
        ProofLine::Token(token) => add_token(alloc, part, *token),
        ProofLine::Z(index) => add_z(part, *index),
        ProofLine::Walk => Ok(begin_walk(alloc, part)),
        _ => Ok(false),
    }
}

// A clause more, before any flip-flop.
fn add_clause(
    alloc: Global,
    part: &mut FromStatePart,
    line: &FromStateLine,
) -> Result<bool, AllocError>
    ensures { IfOk result (λ added. where_true added part.new
        ≡ from_state.grow_before_walk part.old (one.FromState line.now)) }
{
    let FromStateLine::Clause { first, second } = line else {
        return Ok(false);
    };
    if !may_add_clause(part) {
        return Ok(false);
    }
    let clauses = mem::replace(&mut part.clauses, Items::new(alloc));
    part.clauses = with_item(clauses, new_clause(alloc, *first, *second))?;
    Ok(true)
}

// Whether a clause more may come: before any flip-flop, while there are few.
fn may_add_clause(part: &FromStatePart) -> bool
    ensures { result ≡ (from_state.is_in_clauses part.now
        && ltb (length part.now.clauses) max_clauses) }
{
    part.z.as_slice().is_empty() && part.clauses.as_slice().len() < MAX_CLAUSES
}

// A clause of which no token was read.
fn new_clause(alloc: Global, first: Literal, second: Option<Literal>) -> Clause
    ensures { result ≡ from_state.new_clause first second }
{
    Clause {
        first,
        second,
        tokens: Items::new(alloc),
    }
}

// A token more in the walk of the last clause, before any flip-flop.
fn add_token(alloc: Global, part: &mut FromStatePart, token: Token) -> Result<bool, AllocError>
    ensures { IfOk result (λ added. where_true added part.new
        ≡ from_state.grow_before_walk part.old (one.Token token)) }
{
    if !part.z.as_slice().is_empty() {
        return Ok(false);
    }
    let clauses = mem::replace(&mut part.clauses, Items::new(alloc));
    let Some(clauses) = with_clause_token(clauses, token)? else {
        return Ok(false);
    };
    part.clauses = clauses;
    Ok(true)
}

// The clauses, with a token more in the walk of the last.
fn with_clause_token(clauses: Items<Clause>, token: Token) -> Found<Items<Clause>>
    ensures { IfOk result (λ more. more ≡ from_state.add_clause_token clauses token) }
{
    let mut clauses = clauses.into_vec();
    let Some(last) = clauses.pop() else {
        return Ok(None);
    };
    let last = clause_with_token(last, token)?;
    clauses.push(last)?;
    Ok(Some(Items::from_vec(clauses)))
}

// The clause, with a token more in its walk.
fn clause_with_token(clause: Clause, token: Token) -> Result<Clause, AllocError>
    ensures { IfOk result
        (λ more. more ≡ record clause { tokens = clause.tokens ++ token ∷ [] }) }
{
    let mut clause = clause;
    clause.tokens.push(token)?;
    Ok(clause)
}

// A flip-flop more, which is above the last.
fn add_z(part: &mut FromStatePart, index: u32) -> Result<bool, AllocError>
    ensures { IfOk result (λ added. where_true added part.new
        ≡ from_state.grow_before_walk part.old (one.Z index)) }
{
    if !may_add_z(part, index) {
        return Ok(false);
    }
    part.z.push(index)?;
    Ok(true)
}

// Whether a flip-flop may come: after some clause, above the last.
fn may_add_z(part: &FromStatePart, index: u32) -> bool
    ensures { result ≡ (from_state.has_clause part.now && is_above part.now.z index) }
{
    !part.clauses.as_slice().is_empty() && is_above(part.z.as_slice(), index)
}

// The walk of the window begins.
fn begin_walk(alloc: Global, part: &mut FromStatePart) -> bool
    ensures { where_true result part.new ≡ from_state.grow_before_walk part.old one.Walk }
{
    if part.clauses.as_slice().is_empty() {
        return false;
    }
    part.walk = Some(Items::new(alloc));
    true
}

// ---- its lines written

// Appends the line that begins the entry.
pub fn push_first(
    alloc: Global,
    text: &mut Vec<u8>,
    number: u32,
    state: &[bool],
) -> Result<(), AllocError>
    ensures { OnOk result (text.new.items ≡ text.old.items
        ++ with_lf (from_state.from_state_text (form.Begins number state.now))) }
{
    text.extend_from_slice(b"entry ")?;
    push_number(text, u64::from(number))?;
    text.extend_from_slice(b" untestable from ")?;
    push_bits(alloc, text, state)
}

// Appends the lines of the clauses and of their walks.
pub fn push_clauses(text: &mut Vec<u8>, clauses: &[Clause]) -> Result<(), AllocError>
    ensures { OnOk result (text.new.items ≡ text.old.items
        ++ lines_text (flat_map from_state.clause_lines clauses.now)) }
{
    for clause in clauses {
        push_clause(text, clause)?;
    }
    Ok(())
}

// Appends the lines of a clause and of its walk.
fn push_clause(text: &mut Vec<u8>, clause: &Clause) -> Result<(), AllocError>
    ensures { OnOk result
        (text.new.items ≡ text.old.items ++ lines_text (from_state.clause_lines clause.now)) }
{
    text.extend_from_slice(b"clause ")?;
    push_literal(text, clause.first)?;
    push_second(text, clause.second)?;
    text.extend_from_slice(b"\n")?;
    push_tokens(text, clause.tokens.as_slice())
}

// Appends the second literal of a clause, if there is one.
fn push_second(text: &mut Vec<u8>, second: Option<Literal>) -> Result<(), AllocError>
    ensures { OnOk result
        (text.new.items ≡ text.old.items ++ from_state.second_text second) }
{
    let Some(literal) = second else {
        return Ok(());
    };
    text.extend_from_slice(b" ")?;
    push_literal(text, literal)
}

// Appends a literal.
fn push_literal(text: &mut Vec<u8>, literal: Literal) -> Result<(), AllocError>
    ensures { OnOk result
        (text.new.items ≡ text.old.items ++ from_state.literal_text literal) }
{
    push_number(text, u64::from(literal.dff) + 1)?;
    match literal.value {
        false => text.extend_from_slice(b" 0"),
        true => text.extend_from_slice(b" 1"),
    }
}
