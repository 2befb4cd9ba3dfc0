//! The clauses of parities.
ghost use Rattle.std.specs.Prelude.{◌≡◌, ◌++◌, ◌∷◌, [], length, map, IfOk, OnOk};
ghost use Rattle.ht_tern.specs.Gate.{bool_xor};
ghost use Rattle.ht_cubes.specs.Formula.{choices, excluded, exclusions, needs, parity_clauses, parity_of};

use crate::gate_lines::GateLines;
use crate::{Rows, Signal, SignedVar};
use ht_items::FlatRows;
use std::alloc::{AllocError, Global};

/// The most pins of a parity for which each choice of their bits has a clause.
// There are 2^n of these for n pins. A wider gate has none: its formula is weaker, and a refutation of it no less true.
pub(crate) const MAX_PARITY_PINS: usize = 8;

// Adds each row with a bit before it.
fn push_after(
    alloc: Global,
    more: &mut FlatRows<bool>,
    bit: bool,
    rows: &FlatRows<bool>,
) -> Result<(), AllocError>
    ensures { OnOk result (more.new ≡ more.old ++ map (λ bits. bit ∷ bits) rows.now) }
{
    'rows: for i in 0..rows.len() {
        let mut row = Vec::new(alloc);
        row.push(bit)?;
        row.extend_from_slice(rows.row(i))?;
        more.push(&row)?;
    }
    Ok(())
}

// All lists of so many bits, by the binary numbers.
fn choices(alloc: Global, count: usize) -> Result<FlatRows<bool>, AllocError>
    ensures { IfOk result (λ rows. rows ≡ choices count) }
{
    let mut rows = FlatRows::new(alloc);
    rows.push(&[])?;
    for _n in 0..count {
        let mut more = FlatRows::new(alloc);
        push_after(alloc, &mut more, false, &rows)?;
        push_after(alloc, &mut more, true, &rows)?;
        rows = more;
    }
    Ok(rows)
}

// Whether bits have the other parity.
fn has_other_parity(bit: bool, bits: &[bool]) -> bool
    ensures { result ≡ bool_xor bit (parity_of bits.now) }
{
    let mut other = bit;
    for b in bits {
        if *b {
            other = !other;
        }
    }
    other
}

// The clause that excludes a choice of the pins' bits.
fn push_exclusion(
    alloc: Global,
    rows: &mut Rows,
    rail: SignedVar,
    pins: &[Signal],
    bits: &[bool],
) -> Result<(), AllocError>
    requires { length bits.now ≡ length pins.now }
    ensures { OnOk result (rows.new ≡ rows.old ++ needs rail (excluded pins.now bits.now) ∷ []) }
{
    let mut clause = Vec::new(alloc);
    clause.push(rail.complement())?;
    'pins: for (i, pin) in pins.iter().enumerate() {
        clause.push(pin.rail(bits[i]).complement())?;
    }
    rows.push(&clause)
}

impl<'a> GateLines<'a> {
    // What a parity at a bit excludes.
    fn push_exclusions(&self, alloc: Global, rows: &mut Rows, bit: bool) -> Result<(), AllocError>
        ensures { OnOk result (rows.new ≡ rows.old ++ exclusions bit self.now.out self.now.pins.now) }
    {
        let all = choices(alloc, self.pins.len())?;
        for i in 0..all.len() {
            let bits = all.row(i);
            let excludes = has_other_parity(bit, bits);
            if excludes {
                push_exclusion(alloc, rows, self.out.rail(bit), self.pins, bits)?;
            }
        }
        Ok(())
    }

    /// What a parity at a bit needs.
    pub fn push_parity(&self, alloc: Global, rows: &mut Rows, bit: bool) -> Result<(), AllocError>
        ensures { OnOk result (rows.new ≡ rows.old ++ parity_clauses bit self.now.out self.now.pins.now) }
    {
        'pins: for pin in self.pins {
            rows.push(&[self.out.rail(bit).complement(), pin.zero, pin.one])?;
        }
        if self.pins.len() <= MAX_PARITY_PINS {
            self.push_exclusions(alloc, rows, bit)?;
        }
        Ok(())
    }
}
