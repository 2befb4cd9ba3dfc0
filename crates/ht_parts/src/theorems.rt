//! What parts show of files. Each theorem is the contract of a function that does nothing.
ghost use Rattle.std.specs.Prelude.{◌≡◌, ◌<◌, ◌≤◌, ◌↔◌, true, ℕ, List, length};
ghost use Rattle.ht_ports.specs.LineRule.{lines_of, max_text_bytes};
ghost use Rattle.ht_tern.specs.declared.tern.Tern.{Tern};
ghost use Rattle.ht_net.specs.Circuit.Netlist.{Netlist, IsCircuit};
ghost use Rattle.ht_faults.specs.Classes.{AreClasses, is_representative};
ghost use Rattle.ht_texts.specs.Tests.{IsTestText};
ghost use Rattle.ht_valid.specs.ValidFiles.{AreValid, AreValidFiles, Content, IsJustified};
ghost use Rattle.ht_judge.specs.declared.report_judge.Claims.{Claims};
ghost use Rattle.ht_judge.specs.ProofJudging.{AreCompleteProofs};
ghost use Rattle.ht_parts.specs.declared.part.Part.{Part};
ghost use Rattle.ht_parts.specs.Parts.{IsItsPart};
ghost use Rattle.ht_parts.specs.PutTogether.{IsPutTogether};
ghost use Rattle.ht_parts.specs.ValidInPart.{AreValidFilesInPart};
ghost use Rattle.ht_parts.specs.PartReportJudging.{AreClaimedInPart};
ghost use Rattle.ht_parts.specs.JudgedInPart.{claimed_content};

/// Of any number of parts each representative is of exactly one.
pub fn each_class_is_in_one_part()
    ensures { (representatives : List ℕ) (i count : ℕ)
        → is_representative representatives i ≡ true → 0 < count
        → (index : ℕ) × IsItsPart representatives i count index }
{}

/// Files are valid exactly where they are valid in each of so many parts.
pub fn parts_are_valid_where_files_are()
    ensures { (c : Netlist) (representatives : List ℕ) (start : List Tern)
        (tests report proofs : List ℕ) (count : ℕ) → IsCircuit c → AreClasses c representatives
        → 0 < count
        → AreValidFiles c representatives start tests report proofs ↔ ((index : ℕ) → index < count
        → AreValidFilesInPart c representatives (record { index = index; count = count }) start
        tests report proofs) }
{}

/// Tests and proofs have one valid report of a budget, line for line.
pub fn valid_files_have_one_report()
    ensures { (c : Netlist) (representatives : List ℕ) (start : List Tern)
        (tests proofs report other : List ℕ) (a b : Content) → IsCircuit c
        → AreClasses c representatives
        → AreValid c representatives start tests report proofs a
        → AreValid c representatives start tests other proofs b → a.budget ≡ b.budget
        → lines_of report ≡ lines_of other }
{}

/// Tests, a report and proofs that were taken to their ends for a part are valid in it, with the entries of these proofs.
/// A text is at most 2^62 bytes long.
pub fn files_judged_for_a_part_are_valid_in_it()
    ensures { (c : Netlist) (representatives : List ℕ) (part : Part) (tests report proofs : List ℕ)
        (content : Content) (claims : Claims) → IsTestText c tests content.list
        → AreClaimedInPart c representatives part content.start content.list (lines_of report)
        claims
        → length report ≤ max_text_bytes
        → AreCompleteProofs c representatives (claimed_content content claims) (lines_of proofs)
        → length proofs ≤ max_text_bytes
        → AreValidFilesInPart c representatives part content.start tests report proofs }
{}

/// What each of two parts of proofs justifies, whose entries are of other faults, both justify together: of each
/// representative what one of them says more than that it is undetected.
pub fn parts_of_proofs_justify_together()
    ensures { (c : Netlist) (representatives : List ℕ) (whole first second : Content)
        → IsPutTogether representatives whole first second → IsJustified c representatives first
        → IsJustified c representatives second → IsJustified c representatives whole }
{}
