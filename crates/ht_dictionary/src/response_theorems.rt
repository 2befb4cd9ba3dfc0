//! What responses mean: their text is read back, and they contradict neither their machine nor its representative. Each
//! theorem is the contract of a function that does nothing.
ghost use Rattle.std.specs.Prelude.{◌≡◌, ◌<◌, ◌≤◌, ◌++◌, ℕ, List, Bool, Option, Some, None, length, get_or};
ghost use Rattle.std.specs.List.{All};
ghost use Rattle.ht_ports.specs.LineRule.{max_text_bytes};
ghost use Rattle.ht_tern.specs.declared.tern.Tern.{Tern};
ghost use Rattle.ht_net.specs.declared.fault.Fault.{Fault};
ghost use Rattle.ht_net.specs.Circuit.Netlist.{Netlist, IsCircuit};
ghost use Rattle.ht_net.specs.Detect.Detection.{IsStart, outputs_from};
ghost use Rattle.ht_faults.specs.Sites.{faults_of};
ghost use Rattle.ht_faults.specs.Classes.{AreClasses, fault_at};
ghost use Rattle.ht_serial.specs.Contradictions.{IsFirstContradiction};
ghost use Rattle.ht_dictionary.specs.Diagnoses.{Diagnoses, contradiction_at};
ghost use Rattle.ht_dictionary.specs.DiagnosisView.{DiagnosisView};
ghost use Rattle.ht_dictionary.specs.ResponseTexts.{IsResponseText, IsMalformedResponse};
ghost use Rattle.ht_dictionary.specs.Responses.{response_text, last_row, rows_but_last};

/// The text of rows of one width is that of these rows to its reader, and no line of it is malformed. A text is at most
/// 2^62 bytes long.
pub fn written_responses_are_read()
    ensures rows { (width : ℕ) (rows : List (List Tern))
        → All (λ (row : List Tern). length row ≡ width) rows
        → length (response_text rows) ≤ max_text_bytes
        → IsResponseText width (length rows) (response_text rows) rows }
    ensures no_line { (width n : ℕ) (rows : List (List Tern))
        → All (λ (row : List Tern). length row ≡ width) rows
        → length (response_text rows) ≤ max_text_bytes
        → ¬ IsMalformedResponse width (length rows) (response_text rows) n }
    ensures parts { (rows : List (List Tern))
        → response_text (rows_but_last rows) ++ response_text (last_row rows)
        ≡ response_text rows }
{}

/// The text of what a machine shows over a list of vectors is that of one row for each vector, with a value for each
/// output of the circuit: so `diagnose` reads it as what the machine shows.
pub fn responses_are_read()
    ensures { (c : Netlist) (fault : Option Fault) (start : List Tern) (list : List (List Bool))
        → length (response_text (outputs_from c fault start list)) ≤ max_text_bytes
        → IsResponseText (length c.outputs) (length list)
        (response_text (outputs_from c fault start list)) (outputs_from c fault start list) }
{}

/// What a machine shows from any start doesn't contradict it.
pub fn responses_are_consistent()
    ensures { (c : Netlist) (fault : Option Fault) (start : List Tern) (list : List (List Bool))
        → IsStart c start
        → IsFirstContradiction c fault list (outputs_from c fault start list) None }
{}

/// A fault and the representative of its class show the same, from every start.
pub fn members_respond_alike()
    ensures { (c : Netlist) (representatives : List ℕ) (i : ℕ) (start : List Tern)
        (list : List (List Bool)) → IsCircuit c → AreClasses c representatives
        → i < length (faults_of c)
        → outputs_from c (Some (fault_at c (get_or representatives i 0))) start list
        ≡ outputs_from c (Some (fault_at c i)) start list }
{}

/// A diagnosis of what the good machine shows says that it is consistent, and a diagnosis of what a faulty machine shows
/// says so of the representative of its class.
pub fn diagnoses_of_responses()
    ensures good { (c : Netlist) (representatives : List ℕ) (start : List Tern)
        (list : List (List Bool)) (diagnosis : DiagnosisView) → IsStart c start
        → Diagnoses c representatives list (outputs_from c None start list) diagnosis
        → diagnosis.good ≡ None }
    ensures fault { (c : Netlist) (representatives : List ℕ) (i : ℕ) (start : List Tern)
        (list : List (List Bool)) (diagnosis : DiagnosisView) → IsCircuit c
        → AreClasses c representatives → i < length (faults_of c) → IsStart c start
        → Diagnoses c representatives list (outputs_from c (Some (fault_at c i)) start list)
        diagnosis → contradiction_at diagnosis.places (get_or representatives i 0) ≡ None }
{}
