//! What follows from valid files. Each theorem is the contract of a function that does nothing.
ghost use Rattle.std.specs.Prelude.{◌≡◌, ◌<◌, ◌≤◌, ◌+◌, ℕ, List, length};
ghost use Rattle.ht_tern.specs.declared.tern.Tern.{Tern};
ghost use Rattle.ht_net.specs.declared.fault.Fault.{Fault};
ghost use Rattle.ht_net.specs.Circuit.Netlist.{Netlist, IsCircuit};
ghost use Rattle.ht_net.specs.Detect.Detection.{IsStart};
ghost use Rattle.ht_faults.specs.Sites.{faults_of};
ghost use Rattle.ht_faults.specs.Classes.{AreClasses};
ghost use Rattle.ht_tree.specs.declared.entry.Entry.{Entry};
ghost use Rattle.ht_tree.specs.declared.limits.TheConstants.{MAX_BUDGET};
ghost use Rattle.ht_tree.specs.Record.Entries.{Passes};
ghost use Rattle.ht_texts.specs.Tests.{IsTestText};
ghost use Rattle.ht_entries.specs.EntryTexts.{IsEntryText, IsProofText};
ghost use Rattle.ht_valid.specs.declared.trouble.Trouble.{Trouble};
ghost use Rattle.ht_valid.specs.WritableEntries.{IsWritable};
ghost use Rattle.ht_valid.specs.ValidFiles.{Content, AreValid, IsJustified};
ghost use Rattle.ht_valid.specs.FirstTrouble.{IsFirstTrouble, IsFirstUnjustified};
ghost use Rattle.ht_valid.specs.TrueVerdicts.{AreDecided, HaveTrueVerdicts, IsWorkedOn};

/// Each listed fault has one verdict in valid files, and it is true for the start.
pub fn valid_files_tell_the_truth()
    ensures { (c : Netlist) (representatives : List ℕ) (start : List Tern)
        (tests report proofs : List ℕ) (content : Content) → IsCircuit c → AreClasses c representatives
        → IsStart c start → AreValid c representatives start tests report proofs content
        → HaveTrueVerdicts c representatives content }
{}

/// Valid files decide what their budget is enough for, unless they say no more of it than that the vectors don't detect it.
pub fn valid_files_are_decided()
    ensures { (c : Netlist) (representatives : List ℕ) (start : List Tern)
        (tests report proofs : List ℕ) (content : Content) → IsCircuit c → AreClasses c representatives
        → IsStart c start → AreValid c representatives start tests report proofs content
        → AreDecided c representatives (IsWorkedOn content) content }
{}

/// An entry that passes for a budget of a search has a text, as the entry of a listed fault: its numbers fit, since the
/// circuit is within the limits, and the sweep has few walks. One by sets lists them in order, and one by cubes has short
/// lines.
pub fn passing_entries_have_a_text()
    ensures { (c : Netlist) (start : List Tern) (fault : Fault) (budget i : ℕ) (entry : Entry)
        → IsCircuit c → i < length (faults_of c) → budget ≤ MAX_BUDGET → IsWritable entry
        → Passes c start fault budget entry
        → IsEntryText (record { number = i + 1; entry = entry }) }
{}

/// Valid files have no first trouble.
pub fn valid_files_have_no_trouble()
    ensures { (c : Netlist) (representatives : List ℕ) (start : List Tern)
        (tests report proofs : List ℕ) (content : Content) (trouble : Trouble) → IsCircuit c
        → AreValid c representatives start tests report proofs content
        → ¬ IsFirstTrouble c representatives start tests report proofs trouble }
{}

/// Files have at most one first trouble.
pub fn files_have_one_trouble()
    ensures { (c : Netlist) (representatives : List ℕ) (start : List Tern)
        (tests report proofs : List ℕ) (a b : Trouble)
        → IsCircuit c → IsFirstTrouble c representatives start tests report proofs a
        → IsFirstTrouble c representatives start tests report proofs b → a ≡ b }
{}

/// Tests and proofs that justify what is said of each fault have no first trouble where no report is there.
pub fn justified_files_have_no_trouble()
    ensures { (c : Netlist) (representatives tests proofs : List ℕ) (content : Content)
        (trouble : Trouble) → IsTestText c tests content.list → IsProofText content.entries proofs
        → IsJustified c representatives content
        → ¬ IsFirstUnjustified c representatives content.start content.budget tests proofs trouble }
{}

/// Tests and proofs have at most one first trouble where no report is there.
pub fn unjustified_files_have_one_trouble()
    ensures { (c : Netlist) (representatives : List ℕ) (start : List Tern) (budget : ℕ)
        (tests proofs : List ℕ) (a b : Trouble)
        → IsFirstUnjustified c representatives start budget tests proofs a
        → IsFirstUnjustified c representatives start budget tests proofs b → a ≡ b }
{}
