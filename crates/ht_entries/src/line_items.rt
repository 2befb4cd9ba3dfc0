//! Items of a line, each after a space: words, numbers, rails and signed variables.
ghost use Rattle.std.specs.Prelude.{◌≡◌, ◌≢◌, ◌∷◌, ◌++◌, ℕ, List, IfOk, MatchOption, OnOk, codes, flat_map};
ghost use Rattle.std.specs.Fmt.{decimal};
ghost use Rattle.ht_entries.specs.LineWords.{IsNumber};
ghost use Rattle.ht_entries.specs.ParsedLines.{IsParsed};
ghost use Rattle.ht_entries.specs.ItemTexts.{spaced, AreItems, AreSome, AreTaken, HasNoItem, HasPlainWords, IsNextItem, IsNextWord};
ghost use Rattle.ht_entries.specs.ByCubes.{bit_word, machine_word, rail_text, signed_word, IsAnyBit, IsRailText, IsSignedText};

use crate::found::Found;
use crate::parse_words::{after_word, find_space, is_word, parse_number};
use ht_cubes::{Rail, SignedVar};
use ht_items::Items;
use ht_texts::push_number;
use std::alloc::{AllocError, Global};

// ---- words

// What one word of a line stands for.
trait Word: Copy {
    // its word, and which have one
    ghost word_of: { Self → List ℕ };

    ghost HasText: { Self → Type 0 };

    // What a word stands for.
    fn parse(word: &[u8]) -> Option<Self>
        ensures { IsParsed word_of HasText word.now result };
}

// Numbers, from 1.
impl Word for u32 {
    ghost word_of = { decimal };

    ghost HasText = { IsNumber };

    fn parse(word: &[u8]) -> Option<u32> {
        parse_number(word)
    }
}

// Signed variables.
impl Word for SignedVar {
    ghost word_of = { signed_word };

    ghost HasText = { IsSignedText };

    fn parse(word: &[u8]) -> Option<SignedVar> {
        if let Some(digits) = after_word(word, b"-") {
            let variable = parse_number(digits)?;
            return Some(SignedVar {
                variable,
                value: false,
            });
        }
        let variable = parse_number(word)?;
        Some(SignedVar {
            variable,
            value: true,
        })
    }
}

// Bits.
impl Word for bool {
    ghost word_of = { bit_word };

    ghost HasText = { IsAnyBit };

    fn parse(word: &[u8]) -> Option<bool> {
        if is_word(word, b"0") {
            return Some(false);
        }
        if is_word(word, b"1") {
            return Some(true);
        }
        None
    }
}

// The machine of a rail: the faulty one, or the good one.
#[derive(Clone, Copy)]
struct Machine {
    faulty: bool,
}

impl Word for Machine {
    ghost word_of = { λ machine. machine_word machine.faulty };

    ghost HasText = { λ machine. IsAnyBit machine.faulty };

    fn parse(word: &[u8]) -> Option<Machine> {
        if is_word(word, b"good") {
            return Some(Machine { faulty: false });
        }
        if is_word(word, b"faulty") {
            return Some(Machine { faulty: true });
        }
        None
    }
}

// The word after the space that a text begins with, and what stands after the word.
fn next_word(text: &[u8]) -> Option<(&[u8], &[u8])>
    ensures { MatchOption result ((rest : List ℕ) → text.now ≢ 32 ∷ rest)
        (λ parts. IsNextWord text.now parts.0.now parts.1.now) }
{
    let rest = after_word(text, b" ")?;
    let end = find_space(rest).unwrap_or(rest.len());
    Some((&rest[..end], &rest[end..]))
}

// What the next word stands for, and what stands after the word.
fn next_parsed<W: Word>(text: &[u8]) -> Option<(W, &[u8])>
    requires { HasPlainWords W.word_of W.HasText }
    ensures { MatchOption result (HasNoItem (spaced W.word_of) W.HasText text.now)
        (λ found. IsNextItem (spaced W.word_of) W.HasText text.now found.0 found.1.now) }
{
    let (word, rest) = next_word(text)?;
    let parsed = W::parse(word)?;
    Some((parsed, rest))
}

// ---- items

// What stands in a line after a space, once or several times.
pub trait Item: Sized + Drop {
    // its text with the space, and which have one
    ghost text_of: { Self → List ℕ };

    ghost HasText: { Self → Type 0 };

    // The item that a text begins with, and what stands after it.
    fn next(text: &[u8]) -> Option<(Self, &[u8])>
        ensures { MatchOption result (HasNoItem text_of HasText text.now)
            (λ found. IsNextItem text_of HasText text.now found.0 found.1.now) };

    // Appends it.
    fn push(&self, text: &mut Vec<u8>) -> Result<(), AllocError>
        ensures { OnOk result (text.new.items ≡ text.old.items ++ text_of self.now) };
}

impl Item for u32 {
    ghost text_of = { spaced decimal };

    ghost HasText = { IsNumber };

    fn next(text: &[u8]) -> Option<(u32, &[u8])> {
        next_parsed::<u32>(text)
    }

    fn push(&self, text: &mut Vec<u8>) -> Result<(), AllocError> {
        text.extend_from_slice(b" ")?;
        push_number(text, u64::from(*self))
    }
}

impl Item for SignedVar {
    ghost text_of = { spaced signed_word };

    ghost HasText = { IsSignedText };

    fn next(text: &[u8]) -> Option<(SignedVar, &[u8])> {
        next_parsed::<SignedVar>(text)
    }

    fn push(&self, text: &mut Vec<u8>) -> Result<(), AllocError> {
        match self.value {
            false => text.extend_from_slice(b" -")?,
            true => text.extend_from_slice(b" ")?,
        }
        push_number(text, u64::from(self.variable))
    }
}

impl Item for Rail {
    ghost text_of = { rail_text };

    ghost HasText = { IsRailText };

    fn next(text: &[u8]) -> Option<(Rail, &[u8])> {
        let (machine, rest) = next_parsed::<Machine>(text)?;
        let (number, rest) = next_parsed::<u32>(rest)?;
        let (value, rest) = next_parsed::<bool>(rest)?;
        let rail = Rail {
            faulty: machine.faulty,
            dff: number - 1,
            value,
        };
        Some((rail, rest))
    }

    fn push(&self, text: &mut Vec<u8>) -> Result<(), AllocError> {
        text.extend_from_slice(machine_of(self.faulty))?;
        push_number(text, u64::from(self.dff) + 1)?;
        text.extend_from_slice(bit_of(self.value))
    }
}

// The machine of a rail, after a space and before one.
fn machine_of(faulty: bool) -> &'static [u8]
    ensures { result.now ≡ spaced machine_word faulty ++ codes " " }
{
    match faulty {
        false => b" good ",
        true => b" faulty ",
    }
}

// A bit, after a space.
fn bit_of(value: bool) -> &'static [u8]
    ensures { result.now ≡ spaced bit_word value }
{
    match value {
        false => b" 0",
        true => b" 1",
    }
}

// All items that a text begins with, and what stands after them.
pub fn take_items<T: Item>(alloc: Global, text: &[u8]) -> Result<(Items<T>, &[u8]), AllocError>
    requires { AreItems T.text_of T.HasText }
    ensures taken { IfOk result
        (λ taken. AreTaken T.text_of T.HasText text.now taken.0 taken.1.now) }
    ensures all { IfOk result (λ taken. HasNoItem T.text_of T.HasText taken.1.now) }
{
    let mut items = Vec::new(alloc);
    let mut rest = text;
    while let Some((item, after)) = T::next(rest) {
        items.push(item)?;
        rest = after;
    }
    Ok((Items::from_vec(items), rest))
}

// The items that stand after a word, to the end of the text: one or more.
pub fn items_after<T: Item>(alloc: Global, text: &[u8], word: &[u8]) -> Found<Items<T>>
    requires { AreItems T.text_of T.HasText }
    ensures { IfOk result (λ parsed. IsParsed (λ items. word.now ++ flat_map T.text_of items)
        (AreSome T.HasText) text.now parsed) }
{
    let Some(rest) = after_word(text, word) else {
        return Ok(None);
    };
    let (items, rest) = take_items::<T>(alloc, rest)?;
    if items.as_slice().is_empty() || !rest.is_empty() {
        return Ok(None);
    }
    Ok(Some(items))
}

// Appends items.
pub fn push_items<T: Item>(text: &mut Vec<u8>, items: &[T]) -> Result<(), AllocError>
    ensures { OnOk result
        (text.new.items ≡ text.old.items ++ flat_map T.text_of items.now) }
{
    for item in items {
        item.push(text)?;
    }
    Ok(())
}
