//! What a refutation by cubes means. Each law is the contract of a function that does nothing.
ghost use Rattle.std.specs.Prelude.{◌≡◌, List};
ghost use Rattle.ht_tern.specs.declared.tern.Tern.{Tern};
ghost use Rattle.ht_net.specs.declared.fault.Fault.{Fault};
ghost use Rattle.ht_net.specs.Circuit.Netlist.{Netlist, IsCircuit};
ghost use Rattle.ht_net.specs.Detect.Detection.{IsStart};
ghost use Rattle.ht_net.specs.Detect.Undetectable.{IsUndetectable};
ghost use Rattle.ht_cubes.specs.declared.rail.Rail.{Rail};
ghost use Rattle.ht_cubes.specs.declared.clause_step.ClauseStep.{ClauseStep};
ghost use Rattle.ht_cubes.specs.Formula.{formula_of};
ghost use Rattle.ht_cubes.specs.Examples.{both_nets, never_known, q_stuck_at_0, toggle, toggle_formula};
ghost use Rattle.ht_cubes.specs.Cubes.{CubesRefute};
ghost use Rattle.ht_cubes.specs.Passing.{RefutesByCubes};

/// Where cubes and steps pass, the list of cubes refutes the fault from the start.
pub fn passing_cubes_refute()
    ensures { (c : Netlist) (fault : Fault) (start : List Tern) (cubes : List (List Rail))
        (steps : List ClauseStep) → IsCircuit c → RefutesByCubes c fault start cubes steps
        → CubesRefute c fault start cubes }
{}

/// Where a list of cubes refutes a fault from a start, no list of vectors of any length detects the fault: from the
/// start, or from all-unknown.
pub fn refuting_cubes_exclude_detection()
    ensures { (c : Netlist) (fault : Fault) (start : List Tern) (cubes : List (List Rail))
        → IsCircuit c → IsStart c start → CubesRefute c fault start cubes
        → IsUndetectable c fault start }
{}

/// Where cubes and steps pass for a start, no list of vectors of any length detects the fault: from the start, or from
/// all-unknown.
pub fn passing_cubes_exclude_detection()
    ensures { (c : Netlist) (fault : Fault) (start : List Tern) (cubes : List (List Rail))
        (steps : List ClauseStep) → IsCircuit c → IsStart c start
        → RefutesByCubes c fault start cubes steps → IsUndetectable c fault start }
{}

/// An example: the formula of a toggle whose flip-flop's net is stuck at 0 has these 11 clauses.
pub fn toggle_has_its_formula()
    ensures { formula_of toggle q_stuck_at_0 both_nets never_known ≡ toggle_formula }
{}
