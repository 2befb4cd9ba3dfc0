//! What members of a class have in common. Each theorem is the contract of a function that does nothing.
ghost use Rattle.std.specs.Prelude.{◌≡◌, ◌<◌, ℕ, List, Bool, Option, Some, ◌↔◌, length, get_or};
ghost use Rattle.ht_tern.specs.declared.tern.Tern.{Tern};
ghost use Rattle.ht_net.specs.declared.fault.Fault.{Fault};
ghost use Rattle.ht_net.specs.declared.place.Place.{Place};
ghost use Rattle.ht_net.specs.Circuit.Netlist.{Netlist, IsCircuit};
ghost use Rattle.ht_net.specs.Frames.Faults.{tern_rules, bool_rules};
ghost use Rattle.ht_net.specs.Detect.Detection.{IsFirstFrom};
ghost use Rattle.ht_faults.specs.Sites.{faults_of};
ghost use Rattle.ht_faults.specs.Classes.{SameClass, AreClasses, fault_at};
ghost use Rattle.ht_faults.specs.Alike.{RunAlike};

/// Faults of one class give equal outputs and equal states in every run, from every common start, over three values
/// and over two. So a list of vectors detects them at the same first place, from every start.
#[tactic(auto, using(crate::proofs::RunLaws::members_rules))]
pub fn members_run_alike()
    ensures terns { (c : Netlist) (f g : Fault) → IsCircuit c → SameClass c f g
        → RunAlike c (tern_rules (Some f)) (tern_rules (Some g)) }
    ensures bits { (c : Netlist) (f g : Fault) → IsCircuit c → SameClass c f g
        → RunAlike c (bool_rules (Some f)) (bool_rules (Some g)) }
    ensures detection { (c : Netlist) (f g : Fault) (start : List Tern) (list : List (List Bool))
        (place : Option Place) → IsCircuit c → SameClass c f g
        → IsFirstFrom c f start list place ↔ IsFirstFrom c g start list place }
{}

/// A circuit has one list of representatives, and two faults have one representative exactly where they are in one
/// class. A representative is its own.
#[tactic(auto, using(crate::proofs::ClassLaws::class_rules))]
pub fn classes_are_determined()
    ensures one_list { (c : Netlist) (representatives others : List ℕ)
        → AreClasses c representatives → AreClasses c others → representatives ≡ others }
    ensures exact { (c : Netlist) (representatives : List ℕ) (i j : ℕ)
        → AreClasses c representatives → i < length (faults_of c) → j < length (faults_of c)
        → (get_or representatives i 0 ≡ get_or representatives j 0)
        ↔ SameClass c (fault_at c i) (fault_at c j) }
    ensures own { (c : Netlist) (representatives : List ℕ) (i : ℕ) → AreClasses c representatives
        → i < length (faults_of c)
        → get_or representatives (get_or representatives i 0) 0 ≡ get_or representatives i 0 }
{}

/// What a list of vectors detects first of a representative from a start it detects first of each member.
pub fn representatives_stand_for_members()
    ensures { (c : Netlist) (representatives : List ℕ) (i : ℕ) (start : List Tern)
        (list : List (List Bool)) (place : Option Place) → IsCircuit c
        → AreClasses c representatives
        → i < length (faults_of c) → IsFirstFrom c (fault_at c (get_or representatives i 0))
        start list place ↔ IsFirstFrom c (fault_at c i) start list place }
{}
