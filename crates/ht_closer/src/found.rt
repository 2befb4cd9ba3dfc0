//! What is found, as the texts of tests and proofs.
use ht_close::Closed;
use ht_cubes::{ClauseStep, Cube};
use ht_entries::write_entry;
use ht_items::Items;
use ht_net::Vectors;
use ht_texts::write_vector;
use ht_tree::Entry;
use std::alloc::{AllocError, Global};

/// What is found, as the texts of tests and proofs. The entries come in the order in which they are added.
#[derive(Drop)]
pub struct Found {
    tests: Vec<u8>,
    proofs: Vec<u8>,
}

// The lines of an entry by cubes.
fn entry_text(
    alloc: Global,
    number: u32,
    cubes: Items<Cube>,
    steps: Items<ClauseStep>,
) -> Result<Vec<u8>, AllocError> {
    let entry = Entry::UndetectableByCubes { cubes, steps };
    let text = write_entry(alloc, number, &entry);
    drop(entry);
    text
}

impl Found {
    /// Nothing.
    ///
    /// # Errors
    /// Out of memory.
    pub fn new(alloc: Global) -> Result<Found, AllocError> {
        Ok(Found {
            tests: Vec::new(alloc),
            proofs: Vec::from_slice(alloc, b"proofs 3\n")?,
        })
    }

    // Adds the lines of a list.
    fn add_list(&mut self, alloc: Global, list: &Vectors) -> Result<(), AllocError> {
        for t in 0..list.len() {
            self.tests
                .extend_from_slice(&write_vector(alloc, list.get(t))?)?;
        }
        Ok(())
    }

    // Adds a text to the proofs.
    fn add_entry(&mut self, text: &[u8]) -> Result<(), AllocError> {
        self.proofs.extend_from_slice(text)
    }

    /// Adds what became of a fault; the word for it.
    ///
    /// # Errors
    /// Out of memory.
    pub fn add(
        &mut self,
        alloc: Global,
        number: u32,
        closed: Closed,
    ) -> Result<&'static str, AllocError> {
        match closed {
            Closed::Open => Ok("open"),
            Closed::Detected(list) => {
                self.add_list(alloc, &list)?;
                Ok("detected")
            }
            Closed::Refuted { cubes, steps } => {
                let text = entry_text(alloc, number, cubes, steps)?;
                self.add_entry(&text)?;
                Ok("undetectable")
            }
        }
    }

    /// The lines of the lists.
    pub fn tests(&self) -> &[u8] {
        &self.tests
    }

    /// The proofs, with their last line.
    ///
    /// # Errors
    /// Out of memory.
    pub fn proofs(&mut self) -> Result<&[u8], AllocError> {
        self.proofs.extend_from_slice(b"end\n")?;
        Ok(&self.proofs)
    }
}
