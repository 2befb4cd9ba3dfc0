//! What a contradiction means, and which texts are responses. Each theorem is the contract of a function that does
//! nothing.
ghost use Rattle.std.specs.Prelude.{◌<◌, ◌≤◌, ◌+◌, ℕ, List, Bool, Option, Some, None, ◌↔◌, length, get_or};
ghost use Rattle.ht_tern.specs.declared.tern.Tern.{Tern};
ghost use Rattle.ht_net.specs.declared.fault.Fault.{Fault};
ghost use Rattle.ht_net.specs.declared.place.Place.{Place};
ghost use Rattle.ht_net.specs.Circuit.Netlist.{Netlist, IsCircuit};
ghost use Rattle.ht_net.specs.Detect.Detection.{IsState};
ghost use Rattle.ht_faults.specs.Sites.{faults_of};
ghost use Rattle.ht_faults.specs.Classes.{AreClasses, fault_at};
ghost use Rattle.ht_texts.specs.Tests.{IsTooLong};
ghost use Rattle.ht_serial.specs.Contradictions.{IsFirstContradiction};
ghost use Rattle.ht_dictionary.specs.Diagnoses.{Explains};
ghost use Rattle.ht_dictionary.specs.ResponseTexts.{AreFirstRows, IsWrongResponse};
ghost use Rattle.ht_dictionary.specs.ResponseTexts.{IsMalformedResponse, IsResponseOrMalformed};

/// A machine that explains an observation is consistent with it: where its two-valued run from some state shows each
/// definite value that was observed, its run from all-unknown contradicts none.
#[tactic(auto, using(crate::proofs::ConsistencyLaws::explained_consistent))]
pub fn explanations_are_consistent()
    ensures { (c : Netlist) (fault : Option Fault) (state : List Bool) (list : List (List Bool))
        (rows : List (List Tern)) → IsState c state → Explains c fault state list rows
        → IsFirstContradiction c fault list rows None }
{}

/// What a representative first contradicts each member of its class first contradicts.
pub fn members_are_contradicted_alike()
    ensures { (c : Netlist) (representatives : List ℕ) (i : ℕ) (list : List (List Bool))
        (rows : List (List Tern)) (place : Option Place) → IsCircuit c
        → AreClasses c representatives → i < length (faults_of c)
        → IsFirstContradiction c (Some (fault_at c (get_or representatives i 0))) list rows place
        ↔ IsFirstContradiction c (Some (fault_at c i)) list rows place }
{}

/// A text is that of one row for each vector, or malformed at one line: never both, and never neither.
pub fn texts_are_responses_or_malformed()
    ensures { (width vectors : ℕ) (text : List ℕ) → IsResponseOrMalformed width vectors text }
{}

/// Where a text of responses is read line by line, the line after those that were read, if it is wrong, is the first
/// that is: it is no row's, there is no vector for it, or it is missing.
pub fn first_wrong_response()
    ensures { (width vectors : ℕ) (text : List ℕ) (rows : List (List Tern))
        → AreFirstRows width text rows → length rows ≤ vectors
        → ((m : ℕ) → m ≤ length rows → ¬ IsTooLong text m)
        → IsWrongResponse width vectors text (length rows + 1)
        → IsMalformedResponse width vectors text (length rows + 1) }
{}
