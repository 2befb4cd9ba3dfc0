//! What every gate keeps. Each law is the contract of a function that does nothing.
ghost use Rattle.std.specs.Prelude.{◌≡◌, ◌<◌, List, Bool, length, map};
ghost use Rattle.ht_tern.specs.declared.gate.Kind.{Kind};
ghost use Rattle.ht_tern.specs.declared.tern.Tern.{Tern};
ghost use Rattle.ht_tern.specs.Gate.{AllRelated, Refines, StandsFor, gate_value, bool_gate_value, tern_of};

/// A gate is monotone: where its arguments tell more, its value tells no less.
pub fn refined_arguments_refine_the_value()
    ensures { (kind : Kind) (xs ys : List Tern) → AllRelated Refines xs ys
        → Refines (gate_value kind xs) (gate_value kind ys) }
{}

/// On definite arguments a gate is the two-valued gate.
pub fn definite_arguments_give_the_two_valued_gate()
    ensures { (kind : Kind) (bits : List Bool) → 0 < length bits
        → gate_value kind (map tern_of bits) ≡ tern_of (bool_gate_value kind bits) }
{}

/// A two-valued gate refines the three-valued gate over values that its arguments refine.
pub fn two_valued_gates_stand_for_three_valued_ones()
    ensures { (kind : Kind) (xs : List Tern) (bits : List Bool) → AllRelated StandsFor xs bits
        → StandsFor (gate_value kind xs) (bool_gate_value kind bits) }
{}
