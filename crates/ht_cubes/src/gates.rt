//! The clauses of gates.
ghost use Rattle.std.specs.Prelude.{◌≡◌, ◌++◌, ◌∷◌, [], map, OnOk};
ghost use Rattle.ht_cubes.specs.declared.signal.Signal.{Signal};
ghost use Rattle.ht_cubes.specs.Formula.{controlled_clauses, either_clauses, gate_clauses, kind_clauses, needs, rail_of, single_clauses};

use crate::gate_lines::GateLines;
use crate::{Rows, Signal};
use ht_tern::Kind;
use std::alloc::{AllocError, Global};

/// A line isn't both 0 and 1.
pub(crate) fn push_either(rows: &mut Rows, line: Signal) -> Result<(), AllocError>
    ensures { OnOk result (rows.new ≡ rows.old ++ either_clauses line) }
{
    rows.push(&[line.zero.complement(), line.one.complement()])
}

// What a gate of one pin needs.
fn push_single(rows: &mut Rows, out: Signal, pin: Signal) -> Result<(), AllocError>
    ensures { OnOk result (rows.new ≡ rows.old ++ single_clauses out pin) }
{
    rows.push(&[out.zero.complement(), pin.zero])?;
    rows.push(&[out.one.complement(), pin.one])
}

impl<'a> GateLines<'a> {
    // A bit needs it of each pin.
    fn push_each(&self, rows: &mut Rows, bit: bool) -> Result<(), AllocError>
        ensures { OnOk result (rows.new ≡ rows.old
            ++ map (λ (p : Signal). needs (rail_of self.now.out bit) (rail_of p bit ∷ [])) self.now.pins.now) }
    {
        'pins: for pin in self.pins {
            rows.push(&[self.out.rail(bit).complement(), pin.rail(bit)])?;
        }
        Ok(())
    }

    // A bit needs it of some pin.
    fn push_some(&self, alloc: Global, rows: &mut Rows, bit: bool) -> Result<(), AllocError>
        ensures { OnOk result (rows.new ≡ rows.old
            ++ needs (rail_of self.now.out bit) (map (λ (p : Signal). rail_of p bit) self.now.pins.now) ∷ []) }
    {
        let mut some = Vec::new(alloc);
        some.push(self.out.rail(bit).complement())?;
        'pins: for pin in self.pins {
            some.push(pin.rail(bit))?;
        }
        rows.push(&some)
    }

    // What a gate needs whose pins have a controlling bit.
    fn push_controlled(&self, alloc: Global, rows: &mut Rows, bit: bool) -> Result<(), AllocError>
        ensures { OnOk result (rows.new ≡ rows.old ++ controlled_clauses bit self.now.out self.now.pins.now) }
    {
        self.push_each(rows, !bit)?;
        self.push_some(alloc, rows, bit)
    }

    // What a gate of two pins or more needs, before the inversion of its kind.
    fn push_kind(&self, alloc: Global, rows: &mut Rows, kind: Kind) -> Result<(), AllocError>
        ensures { OnOk result (rows.new ≡ rows.old ++ kind_clauses kind self.now.out self.now.pins.now) }
    {
        match kind {
            Kind::And | Kind::Nand => self.push_controlled(alloc, rows, false),
            Kind::Or | Kind::Nor => self.push_controlled(alloc, rows, true),
            Kind::Xor | Kind::Xnor => {
                self.push_parity(alloc, rows, false)?;
                self.push_parity(alloc, rows, true)
            }
            Kind::Not | Kind::Buf => Ok(()),
        }
    }
}

/// What the output of a gate needs of its pins.
// A rail says that a value is sure, and a sure output needs sure pins: so clauses lead from the output to the pins
// only. Where a value is unknown both rails are false, so there is no third.
pub(crate) fn push_gate(
    alloc: Global,
    rows: &mut Rows,
    kind: Kind,
    out: Signal,
    pins: &[Signal],
) -> Result<(), AllocError>
    ensures { OnOk result (rows.new ≡ rows.old ++ gate_clauses kind out pins.now) }
{
    let out = if kind.inverts() { out.turned() } else { out };
    match pins {
        [] => Ok(()),
        [pin] => push_single(rows, out, *pin),
        [_, _, ..] => {
            let lines = GateLines { out, pins };
            lines.push_kind(alloc, rows, kind)
        }
    }
}
