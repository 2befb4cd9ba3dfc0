//! What was observed of a device.
ghost use Rattle.std.specs.Prelude.{◌≡◌, ◌<◌, ◌++◌, ◌∷◌, [], length, get_or, OnOk, OnErr};

use ht_tern::Tern;
use std::alloc::{AllocError, Global};
use std::marker::Model;

/// What was observed of a device's outputs: a row for each vector, in order, with a value for each output. A value is
/// unknown where nothing was seen.
#[derive(Drop)]
pub struct Observation {
    width: u32,
    rows: Vec<Vec<Tern>>,
}

impl Model for Observation {
    ghost use Rattle.ht_serial.specs.ObservationView.{ObservationView};

    ghost Value = { ObservationView };

    ghost use Rattle.ht_serial.specs.ObservationOf.{observation_of, AreOfWidth};

    ghost view = { observation_of };

    ghost invariant = { AreOfWidth };
}

impl Observation {
    /// No rows yet, of `width` outputs.
    pub fn new(alloc: Global, width: u32) -> Observation
        ensures { result ≡ record { width = width; rows = [] } }
    {
        Observation {
            width,
            rows: Vec::new(alloc),
        }
    }

    /// Adds the row of the next vector.
    ///
    /// # Errors
    /// Out of memory; nothing has changed.
    pub fn push(&mut self, row: Vec<Tern>) -> Result<(), AllocError>
        requires { length row.items ≡ self.old.width }
        ensures ok { OnOk result
            (self.new ≡ record self.old { rows = self.old.rows ++ row.items ∷ [] }) }
        ensures err { OnErr result (self.new ≡ self.old) }
    {
        self.rows.push(row)?;
        Ok(())
    }

    /// How many rows there are.
    pub fn len(&self) -> u64
        ensures { result ≡ length self.now.rows }
    {
        self.rows.len() as u64
    }

    /// The row of vector `t`, from 0.
    pub fn get(&self, t: u64) -> &[Tern]
        requires { t < length self.now.rows }
        ensures row { result.now ≡ get_or self.now.rows t [] }
        ensures width { length result.now ≡ self.now.width }
    {
        &self.rows[t as usize]
    }
}
