//! A list of lists in one flat row.
ghost use Rattle.std.specs.Prelude.{◌≡◌, ◌<◌, ◌≤◌, ◌-◌, ◌++◌, ◌∷◌, [], length, get_or, take, drop, OnOk, OnErr};

use std::alloc::{AllocError, Global};
use std::marker::Model;

/// Rows of items, which contracts see as a list of lists. All items stand in one `Vec`, so a row is a slice, and a row
/// more costs four bytes beside its items.
#[derive(Drop)]
pub struct FlatRows<T> {
    items: Vec<T>,
    // where each row ends
    ends: Vec<u32>,
}

impl<T> Model for FlatRows<T> {
    ghost use Rattle.std.specs.Prelude.{List};

    ghost Value = { List (List T) };

    ghost use Rattle.ht_items.specs.FlatRowsOf.{flat_rows, AreEnds};

    ghost view = { flat_rows };

    ghost invariant = { λ a. AreEnds 0 a.ends.items a.items.items };
}

// Where row i begins: at the end of the row before.
fn start_of(ends: &[u32], i: usize) -> u32
    requires { i < length ends.now }
    ensures { result ≡ get_or (0 ∷ ends.now) i 0 }
{
    if i == 0 {
        return 0;
    }
    ends[i - 1]
}

// The items from an index up to another.
fn part<T>(items: &[T], start: u32, end: u32) -> &[T]
    requires rises { start ≤ end }
    requires within { end ≤ length items.now }
    ensures { result.now ≡ take (end - start) (drop start items.now) }
{
    &items[start as usize..end as usize]
}

impl<T: Copy> FlatRows<T> {
    /// No rows.
    pub fn new(alloc: Global) -> FlatRows<T>
        ensures { result ≡ [] }
    {
        FlatRows {
            items: Vec::new(alloc),
            ends: Vec::new(alloc),
        }
    }

    /// How many rows there are.
    #[tactic(auto, using(crate::proofs::RowLaws::rows_count))]
    pub fn len(&self) -> usize
        ensures { result ≡ length self.now }
    {
        self.ends.len()
    }

    /// Row `i`, from 0.
    pub fn row(&self, i: usize) -> &[T]
        requires { i < length self.now }
        ensures { result.now ≡ get_or self.now i [] }
    {
        part(&self.items, start_of(&self.ends, i), self.ends[i])
    }

    /// Adds a row at the end.
    ///
    /// # Errors
    /// Out of memory, or 2^32 items or more in all; the rows are as before.
    pub fn push(&mut self, row: &[T]) -> Result<(), AllocError>
        ensures ok { OnOk result (self.new ≡ self.old ++ row.now ∷ []) }
        ensures err { OnErr result (self.new ≡ self.old) }
    {
        let Some(total) = self.items.len().checked_add(row.len()) else {
            return Err(AllocError);
        };
        let Ok(end) = u32::try_from(total) else {
            return Err(AllocError);
        };
        self.ends.reserve(1)?;
        self.items.extend_from_slice(row)?;
        self.ends.push(end)?;
        Ok(())
    }
}
