//! The windows of a search back, each one frame earlier than the one above it.
ghost use Rattle.std.specs.Prelude.{◌≡◌, ◌≤◌, ◌∷◌, ℕ, List, [], length, reverse, vec_len, IfOk};
ghost use Rattle.ht_tern.specs.declared.tern.Tern.{Tern};
ghost use Rattle.ht_net.specs.Circuit.Netlist.{Netlist};
ghost use Rattle.ht_tree.specs.Window.Windows.{back_window};
ghost use Rattle.ht_search.specs.Routes.{Stands, back_to, stops};
ghost use Rattle.ht_justify.specs.Stacks.{AreUnder, route_at};
ghost use Rattle.ht_justify.specs.BackStates.{found_list};

use ht_items::Items;
use ht_net::{Circuit, Vectors};
use ht_search::Point;
use ht_tern::Tern;
use ht_window::{Bases, Start, Window, vector};
use std::alloc::{AllocError, Global};
use std::marker::Model;
use std::mem;

/// The windows of a search back. Each of them is under the one before it.
#[derive(Drop)]
pub struct BackWindows<'c, 's> {
    pub(crate) alloc: Global,
    pub(crate) circuit: &'c Circuit,
    // what the windows are made from
    pub(crate) bases: Bases<'c>,
    // for the proof: what is wanted after the first window
    pub(crate) cube: &'s [Tern],
    // how many frames may lead to it
    pub(crate) limit: u32,
    pub(crate) above: Vec<Window<'c>>,
    // the deepest window
    pub(crate) window: Window<'c>,
}

impl<'c, 's> Model for BackWindows<'c, 's> {
    ghost use Rattle.ht_justify.specs.BackStates.{BackState};

    ghost Value = { BackState };

    ghost use Rattle.ht_justify.specs.BackStates.{back_state, IsStacked};

    ghost view = { back_state };

    ghost invariant = { IsStacked };
}

/// The back window of a cube.
///
/// # Errors
/// Out of memory.
pub fn back_window<'c>(
    alloc: Global,
    bases: &mut Bases<'c>,
    cube: Items<Tern>,
    limit: u32,
) -> Result<Window<'c>, AllocError>
    requires { length cube ≡ length bases.old.circuit.dffs }
    ensures circuit { bases.new.circuit ≡ bases.old.circuit }
    ensures window { IfOk result (λ w. w.window ≡ back_window bases.old.circuit cube limit) }
    ensures decisions { IfOk result (λ w. w.decisions ≡ []) }
{
    let start = Start::Back { cube, limit };
    bases.window(alloc, None, 1, &start)
}

// The back window of a cube, of which a copy is made.
fn first_window<'c>(
    alloc: Global,
    bases: &mut Bases<'c>,
    cube: &[Tern],
    limit: u32,
) -> Result<Window<'c>, AllocError>
    requires { length cube.now ≡ length bases.old.circuit.dffs }
    ensures circuit { bases.new.circuit ≡ bases.old.circuit }
    ensures window { IfOk result
        (λ w. w.window ≡ back_window bases.old.circuit cube.now limit) }
    ensures decisions { IfOk result (λ w. w.decisions ≡ []) }
{
    let copy = Items::from_slice(alloc, cube)?;
    back_window(alloc, bases, copy, limit)
}

impl<'c, 's> BackWindows<'c, 's> {
    /// The first window alone, before its first decision.
    ///
    /// # Errors
    /// Out of memory.
    pub fn new(
        alloc: Global,
        bases: Bases<'c>,
        cube: &'s [Tern],
        limit: u32,
    ) -> Result<BackWindows<'c, 's>, AllocError>
        requires { length cube.now ≡ length bases.circuit.dffs }
        ensures { IfOk result (λ windows. windows ≡ record {
          first = back_window bases.entry.circuit cube.now limit;
          above = [];
          decisions = [];
        }) }
    {
        let circuit = bases.circuit();
        let mut bases = bases;
        match first_window(alloc, &mut bases, cube, limit) {
            Ok(window) => Ok(BackWindows {
                alloc,
                circuit,
                bases,
                cube,
                limit,
                above: Vec::new(alloc),
                window,
            }),
            Err(error) => {
                // for the proof: dropped by name
                drop(bases);
                Err(error)
            },
        }
    }

    /// The bases, for other windows of the circuit.
    pub fn into_bases(self) -> Bases<'c>
        ensures { result.circuit ≡ self.entry.first.circuit }
    {
        let BackWindows {
            bases,
            above,
            window,
            ..
        } = self;
        // for the proof: dropped by name
        drop(above);
        drop(window);
        bases
    }

    /// The vectors of the windows, the deepest window's first.
    ///
    /// # Errors
    /// Out of memory.
    pub fn list(&self) -> Result<Vectors, AllocError>
        ensures { IfOk result (λ list. list ≡ found_list self.now) }
    {
        let mut list = Vectors::new(self.alloc, self.circuit.inputs());
        let own = vector(self.alloc, &self.window, 0)?;
        list.push(&own)?;
        for k in (0..self.above.len()).rev() {
            let row = vector(self.alloc, &self.above[k], 0)?;
            list.push(&row)?;
        }
        Ok(list)
    }
}

/// Goes back to a point: the windows under its own are left, and in that one the decisions after it are taken back.
pub fn go_back<'c>(above: &mut Vec<Window<'c>>, window: &mut Window<'c>, point: Point)
    requires { Stands (route_at above.old.items window.old) point }
    ensures route { stops (route_at above.new.items window.new)
        ≡ back_to (stops (route_at above.old.items window.old)) point }
    ensures under { (c : Netlist) (cube : List Tern) (limit : ℕ)
        → AreUnder c cube limit (window.old ∷ reverse above.old.items)
        → AreUnder c cube limit (window.new ∷ reverse above.new.items) }
    ensures few { vec_len above.new ≤ vec_len above.old }
{
    while above.len() > point.level as usize {
        match above.pop() {
            // for the proof: dropped by name
            Some(last) => drop(mem::replace(window, last)),
            None => return,
        }
    }
    window.undo_to(point.mark as usize);
}
