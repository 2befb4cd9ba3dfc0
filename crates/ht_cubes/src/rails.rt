//! The rails of a fault's machines: what a search takes from here, so that its clauses are those that are checked.
ghost use Rattle.std.specs.Prelude.{◌≡◌, ◌↔◌, ◌<◌, ◌+◌, [], length, IfOk, IsSome};
ghost use Rattle.std.specs.List.{All, flat_map};
ghost use Rattle.std.specs.Option.{ForSome};
ghost use Rattle.ht_net.specs.Circuit.Netlist.{IsCircuit, net_count};
ghost use Rattle.ht_cubes.specs.Rails.{IsKnownRail};
ghost use Rattle.ht_cubes.specs.Formula.{driver_signal, first_target, formula_of, frame_clauses, last_variable, latch_signal, next_signal, rail_of, targets_of, without_constants};
ghost use Rattle.ht_cubes.specs.Cones.{marked};
ghost use Rattle.ht_cubes.specs.RailsView.{AreConeMarks};

use crate::cone::cone_of;
use crate::formula::{Formula, without_constants};
use crate::machines::Machines;
use crate::refutation::are_known;
use crate::{Cube, Rail, Rows, Signal, SignedVar};
use ht_items::FlatRows;
use ht_net::{Circuit, Fault};
use std::alloc::{AllocError, Global};
use std::marker::Model;

/// The rails of the good machine of a circuit and of the one with a fault: which variable says what, and the clauses
/// over them. Nets outside the fault's cone have the same rails in both machines.
#[derive(Drop)]
pub struct Rails<'a> {
    circuit: &'a Circuit,
    fault: Fault,
    // a mark for each net of the cone
    marks: Vec<bool>,
}

impl<'a> Model for Rails<'a> {
    ghost use Rattle.ht_cubes.specs.RailsView.{RailsView, AreConeMarks};

    ghost Value = { RailsView };

    ghost view = { λ a.
        record { circuit = a.circuit.now; fault = a.fault; marks = a.marks.items } };

    ghost invariant = { λ a. AreConeMarks a.circuit.now a.fault a.marks.items };
}

impl<'a> Rails<'a> {
    /// The rails of a fault.
    ///
    /// # Errors
    /// Out of memory.
    pub fn new(alloc: Global, circuit: &'a Circuit, fault: Fault) -> Result<Rails<'a>, AllocError>
        ensures circuit { IfOk result (λ rails. rails.circuit ≡ circuit.now) }
        ensures fault { IfOk result (λ rails. rails.fault ≡ fault) }
        ensures cone { IfOk result (λ rails. AreConeMarks circuit.now fault rails.marks) }
    {
        let marks = cone_of(alloc, circuit, fault)?;
        Ok(Rails {
            circuit,
            fault,
            marks,
        })
    }

    /// The circuit.
    pub fn circuit(&self) -> &'a Circuit
        ensures { result.now ≡ self.now.circuit }
    {
        self.circuit
    }

    // The machines, from which the parts of the formula are made.
    fn machines(&self) -> Machines<'_>
        ensures circuit { result.circuit.now ≡ self.now.circuit }
        ensures fault { result.fault ≡ self.now.fault }
        ensures marks { result.cone.now ≡ self.now.marks }
        ensures long { length result.cone.now ≡ net_count result.circuit.now }
    {
        Machines {
            circuit: self.circuit,
            fault: self.fault,
            cone: self.marks.as_slice(),
        }
    }

    /// The highest variable of a rail. Targets have those from the next one on.
    pub fn last_variable(&self) -> u32
        ensures { result + 1 ≡ first_target self.now.circuit }
    {
        4 * self.circuit.nets()
    }

    /// What drives net `x` of a machine.
    pub fn driver(&self, faulty: bool, x: u32) -> Signal
        requires { x < net_count self.now.circuit }
        ensures { result ≡ driver_signal self.now.circuit (marked self.now.marks) faulty x }
    {
        self.machines().driver(faulty, x)
    }

    /// The variable by which a rail holds now.
    pub fn held(&self, rail: Rail) -> SignedVar
        requires { rail.dff < length self.now.circuit.dffs }
        ensures { result ≡ rail_of
            (latch_signal self.now.circuit (marked self.now.marks) rail.faulty rail.dff)
            rail.value }
    {
        let net = self.circuit.dff_net(rail.dff);
        self.driver(rail.faulty, net.0).rail(rail.value)
    }

    /// The variable, or the constant, by which a rail holds after the frame.
    pub fn next(&self, rail: Rail) -> SignedVar
        requires { rail.dff < length self.now.circuit.dffs }
        ensures { result ≡ rail_of (next_signal self.now.circuit self.now.fault
            (marked self.now.marks) rail.faulty rail.dff) rail.value }
    {
        self.machines().next(rail.faulty, rail.dff).rail(rail.value)
    }

    /// The clauses of one frame of both machines: the first clauses of each formula.
    ///
    /// # Errors
    /// Out of memory, or 2^32 or more that stands in clauses.
    pub fn frame(&self, alloc: Global) -> Result<FlatRows<SignedVar>, AllocError>
        ensures { IfOk result (λ rows. rows ≡ flat_map without_constants
            (frame_clauses self.now.circuit self.now.fault (marked self.now.marks))) }
    {
        let mut rows = Rows::new(alloc);
        self.machines().push_frame(alloc, &mut rows)?;
        without_constants(alloc, &rows)
    }

    /// How outputs may differ: each row has the rails, of which one may be the constant true, that hold together there.
    ///
    /// # Errors
    /// Out of memory, or 2^32 or more that stands in the rows.
    pub fn differences(&self, alloc: Global) -> Result<FlatRows<SignedVar>, AllocError>
        ensures { IfOk result (λ rows. rows
            ≡ targets_of self.now.circuit self.now.fault (marked self.now.marks) []) }
    {
        self.machines().all_targets(alloc, &[])
    }

    /// The formula of the fault and a list of cubes, as `refuted` builds it, if all rails of the cubes are known: their
    /// flip-flops are there, and those of the faulty machine in the cone.
    ///
    /// # Errors
    /// Out of memory, or 2^32 or more that stands in clauses.
    pub fn formula(&self, alloc: Global, cubes: &[Cube]) -> Result<Option<Formula>, AllocError>
        ensures known { IfOk result (λ found. IsSome found
            ↔ All (All (IsKnownRail self.now.circuit (marked self.now.marks))) cubes.now) }
        ensures clauses { IfOk result (λ found. ForSome found (λ f. f.clauses
            ≡ formula_of self.now.circuit self.now.fault (marked self.now.marks) cubes.now)) }
        ensures last { IfOk result (λ found. ForSome found (λ f. f.last
            ≡ last_variable self.now.circuit self.now.fault (marked self.now.marks) cubes.now)) }
    {
        let machines = self.machines();
        if !are_known(machines.circuit, machines.cone, cubes) {
            return Ok(None);
        }
        let formula = machines.build(alloc, cubes)?;
        Ok(Some(formula))
    }
}
