//! What holds of graders. Each theorem is the contract of a function that does nothing.
ghost use Rattle.std.specs.Prelude.{◌≡◌, ◌<◌, ◌++◌, ◌∷◌, ℕ, [], List, Bool, Some, length};
ghost use Rattle.std.specs.List.{slice_get};
ghost use Rattle.ht_tern.specs.declared.tern.Tern.{Tern};
ghost use Rattle.ht_net.specs.declared.fault.Fault.{Fault};
ghost use Rattle.ht_net.specs.declared.place.Place.{Place};
ghost use Rattle.ht_net.specs.Detect.Detection.{ApartFrom};
ghost use Rattle.ht_proofs.specs.PackedView.{GraderStandsFor, PackedView, verdict_at};
ghost use Rattle.ht_proofs.specs.Applied.{IsApplied};

/// A grader that stands for a list stands, once one more vector is applied, for the list with that vector.
pub fn applied_vector_is_added()
    ensures { (g h : PackedView) (start : List Tern) (list : List (List Bool)) (vector : List Bool)
        → GraderStandsFor g start list → IsApplied g vector h
        → GraderStandsFor h start (list ++ vector ∷ []) }
{}

/// The verdict of a grader that stands for a list is at a vector of the list and an output of the circuit. There the
/// good and the faulty machine show opposite bits in two-valued runs from any two states that the start allows.
pub fn verdicts_are_within()
    ensures { (g : PackedView) (start : List Tern) (list : List (List Bool)) (k : ℕ) (fault : Fault) (p : Place)
        → GraderStandsFor g start list → slice_get g.faults k ≡ Some fault → verdict_at g k ≡ Some p
        → (p.vector < length list) × (p.output < length g.circuit.outputs)
        × ApartFrom g.circuit fault start list p.vector p.output }
{}
