//! Rows of numbers that grow in any order.
use ht_items::FlatRows;
use std::alloc::{AllocError, Global};

/// Rows of numbers.
#[derive(Drop)]
pub struct Rows {
    rows: Vec<Vec<u32>>,
}

impl Rows {
    /// So many rows, with nothing in them.
    ///
    /// # Errors
    /// Out of memory.
    pub fn new(alloc: Global, count: usize) -> Result<Rows, AllocError> {
        let mut rows = Vec::with_capacity(alloc, count)?;
        for _ in 0..count {
            rows.push(Vec::new(alloc))?;
        }
        Ok(Rows { rows })
    }

    /// Adds a number to a row, if there is such a row.
    ///
    /// # Errors
    /// Out of memory.
    pub fn add(&mut self, row: u32, number: u32) -> Result<(), AllocError> {
        if let Some(numbers) = self.rows.get_mut(row as usize) {
            numbers.push(number)?;
        }
        Ok(())
    }

    /// The same in one flat row.
    ///
    /// # Errors
    /// Out of memory, or 2^32 numbers or more.
    pub fn flat(&self, alloc: Global) -> Result<FlatRows<u32>, AllocError> {
        let mut flat = FlatRows::new(alloc);
        for row in &self.rows {
            flat.push(row)?;
        }
        Ok(flat)
    }
}

/// The numbers of a row, none where there is no such row.
#[inline(always)]
pub fn row_at(rows: &FlatRows<u32>, row: u32) -> &[u32] {
    if (row as usize) < rows.len() {
        rows.row(row as usize)
    } else {
        &[]
    }
}

/// A number of a list, and the greatest where it isn't there.
#[inline(always)]
pub fn number_at(numbers: &[u32], i: usize) -> u32 {
    match numbers.get(i) {
        Some(number) => *number,
        None => u32::MAX,
    }
}
