//! The laws of causes. Each theorem is the contract of a function that does nothing.
ghost use Rattle.std.specs.Prelude.{◌≡◌, ◌<◌, ◌≤◌, ◌++◌, ◌↔◌, ℕ, List, Bool, None, Some, true, length, is_some};
ghost use Rattle.ht_tern.specs.declared.tern.Tern.{Tern};
ghost use Rattle.ht_net.specs.declared.fault.Fault.{Fault};
ghost use Rattle.ht_net.specs.declared.place.Place.{Place};
ghost use Rattle.ht_net.specs.Circuit.Netlist.{Netlist, IsCircuit};
ghost use Rattle.ht_net.specs.Detect.Detection.{IsFirstFrom};
ghost use Rattle.ht_faults.specs.Classes.{SameClass};
ghost use Rattle.ht_causes.specs.declared.cause.LatchPlace.{LatchPlace};
ghost use Rattle.ht_causes.specs.Compared.{first_detected, first_excited, first_possible, first_stored};
ghost use Rattle.ht_causes.specs.Causes.{IsSameOrAbove, ShowsNothing, TellsAllGoodTells, cause_of, table_row};

/// A fault that isn't excited changes nothing: at each vector each net, flip-flop and output of its machine tells all
/// that the good one tells (gates are monotone). So there is no detection, no possible one and nothing stored, and a
/// fault has one of the four upper rows of the table exactly where it is excited.
pub fn unexcited_faults_change_nothing()
    ensures tells { (c : Netlist) (fault : Fault) (start : List Tern) (list : List (List Bool))
        → IsCircuit c → first_excited c fault start list (length list) ≡ None
        → TellsAllGoodTells c fault start list }
    ensures shows { (c : Netlist) (fault : Fault) (start : List Tern) (list : List (List Bool))
        → IsCircuit c → first_excited c fault start list (length list) ≡ None
        → ShowsNothing c fault start list }
    ensures rows { (c : Netlist) (fault : Fault) (start : List Tern) (list : List (List Bool))
        → IsCircuit c → (table_row (cause_of c fault start list) < 4)
        ↔ (is_some (first_excited c fault start list (length list)) ≡ true) }
{}

/// A fault is excited at the vector where it is detected or possibly detected, or after which a difference is stored, or
/// before.
pub fn detected_faults_are_excited()
    ensures detected { (c : Netlist) (fault : Fault) (start : List Tern) (list : List (List Bool))
        (p : Place) → IsCircuit c → first_detected c fault start list (length list) ≡ Some p
        → (t : ℕ) × (t ≤ p.vector) × (first_excited c fault start list (length list) ≡ Some t) }
    ensures possible { (c : Netlist) (fault : Fault) (start : List Tern) (list : List (List Bool))
        (p : Place) → IsCircuit c → first_possible c fault start list (length list) ≡ Some p
        → (t : ℕ) × (t ≤ p.vector) × (first_excited c fault start list (length list) ≡ Some t) }
    ensures stored { (c : Netlist) (fault : Fault) (start : List Tern) (list : List (List Bool))
        (p : LatchPlace) → IsCircuit c → first_stored c fault start list (length list) ≡ Some p
        → (t : ℕ) × (t ≤ p.vector) × (first_excited c fault start list (length list) ≡ Some t) }
{}

/// More vectors never move a fault down the table: its cause over the longer list is the same, or one above it.
pub fn causes_only_move_up()
    ensures { (c : Netlist) (fault : Fault) (start : List Tern) (list more : List (List Bool))
        → IsSameOrAbove (cause_of c fault start list) (cause_of c fault start (list ++ more)) }
{}

/// The members of a class have the same first detection, the same first possible one and the same first stored
/// difference. They may be excited at different vectors.
pub fn members_have_one_sighting()
    ensures detected { (c : Netlist) (f g : Fault) (start : List Tern) (list : List (List Bool))
        (n : ℕ) → IsCircuit c → SameClass c f g
        → first_detected c f start list n ≡ first_detected c g start list n }
    ensures possible { (c : Netlist) (f g : Fault) (start : List Tern) (list : List (List Bool))
        (n : ℕ) → IsCircuit c → SameClass c f g
        → first_possible c f start list n ≡ first_possible c g start list n }
    ensures stored { (c : Netlist) (f g : Fault) (start : List Tern) (list : List (List Bool))
        (n : ℕ) → IsCircuit c → SameClass c f g
        → first_stored c f start list n ≡ first_stored c g start list n }
{}

/// The first detection is that of a simulation.
pub fn first_detections_are_detections()
    ensures { (c : Netlist) (fault : Fault) (start : List Tern) (list : List (List Bool))
        → IsFirstFrom c fault start list (first_detected c fault start list (length list)) }
{}
