//! Lists as values, and sets of numbers.
//!
//! A field of a public type that is a list (tokens, names, numbers, words) is an `Items`: contracts see it as the list
//! of its items and as nothing else, so two values with equal items are equal values, whatever room each has reserved.
//! `FlatRows` is a list of lists in one flat row, for tables that are built once and read often. A
//! `BitSet` is a set of numbers below a bound.
#![tactic(auto)]

mod bit_set;
mod bits;
mod flat_rows;
mod items;

pub use bit_set::BitSet;
pub use bits::{has_bit, with_bit};
pub use flat_rows::FlatRows;
pub use items::Items;
