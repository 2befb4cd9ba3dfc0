//! Which texts are tests, reports, starts and lists of faults. Each theorem is the contract of a function that does
//! nothing.
ghost use Rattle.std.specs.Prelude.{◌≡◌, ◌<◌, ◌≤◌, ◌+◌, ◌^◌, ◌⊎◌, ◌++◌, ◌∷◌, [], ℕ, List, Bool, Some, length, take};
ghost use Rattle.std.specs.List.{All};
ghost use Rattle.ht_ports.specs.LineRule.{lines_of, max_text_bytes};
ghost use Rattle.ht_net.specs.Circuit.Netlist.{Netlist, IsCircuit};
ghost use Rattle.ht_faults.specs.Sites.{faults_of};
ghost use Rattle.ht_faults.specs.Classes.{AreClasses};
ghost use Rattle.ht_texts.specs.declared.said.Said.{Said};
ghost use Rattle.ht_texts.specs.Tests.{test_text, line_at, IsTestText, IsTooLong, IsMalformedTest, IsTestOrMalformed};
ghost use Rattle.ht_texts.specs.StartTexts.{IsStartOrMalformed};
ghost use Rattle.ht_texts.specs.FaultListTexts.{AreFaultLines, IsFaultListOrMalformed, IsNoFaultLine};
ghost use Rattle.ht_texts.specs.Reports.{report_text};
ghost use Rattle.ht_texts.specs.LineLengths.{IsShortLine};
ghost use Rattle.ht_texts.specs.SearchReports.{HasPlainNames, HasShortNames, IsSearchOf, IsReportFront};
ghost use Rattle.ht_texts.specs.SearchReports.{IsReportText, IsNoReportLine, IsWrongReportLine, IsMalformedReport};
ghost use Rattle.ht_texts.specs.ReportReading.{ReportReading, ReportReadsTo, SameSearch, SaySame};

/// The lines of vectors, each with its LF, are the test text of these vectors, and none of them is malformed: so a
/// reader takes them. A text is at most 2^62 bytes long.
pub fn tests_are_read()
    ensures list { (c : Netlist) (list : List (List Bool))
        → All (λ (vector : List Bool). length vector ≡ c.inputs) list
        → length (test_text list) ≤ max_text_bytes → IsTestText c (test_text list) list }
    ensures no_line { (c : Netlist) (list : List (List Bool)) (n : ℕ)
        → All (λ (vector : List Bool). length vector ≡ c.inputs) list
        → length (test_text list) ≤ max_text_bytes → ¬ IsMalformedTest c (test_text list) n }
{}

/// A text is the test text of one list of vectors, or malformed at one line: never both, and never neither.
pub fn texts_are_tests_or_malformed()
    ensures { (c : Netlist) (text : List ℕ) → IsTestOrMalformed c text }
{}

/// A text is that of one start of so many flip-flops, or malformed at one line: never both, and never neither.
pub fn texts_are_starts_or_malformed()
    ensures { (width : ℕ) (text : List ℕ) → IsStartOrMalformed width text }
{}

/// A text is that of one list of faults, of which a circuit has so many, or malformed at one line: never both, and never
/// neither.
pub fn texts_are_fault_lists_or_malformed()
    ensures { (count : ℕ) (text : List ℕ) → count < 2 ^ 64 → IsFaultListOrMalformed count text }
{}

/// No line of a list of faults has more than `MAX_LINE_BYTES` bytes, and where the first n lines of a text are those of
/// such a list, none of them is wrong: so a reader goes line by line.
pub fn fault_lists_are_read()
    ensures short { (count : ℕ) (lines : List (List ℕ)) (numbers : List ℕ) → count < 2 ^ 64
        → AreFaultLines count lines numbers → All IsShortLine lines }
    ensures read { (count : ℕ) (text numbers : List ℕ) (n m : ℕ)
        → AreFaultLines count (take n (lines_of text)) numbers → n ≤ length (lines_of text) → m ≤ n
        → ¬ IsNoFaultLine count text m }
{}

/// Lines that begin a report of a search are read, lines that are read begin such a report, and they are read in one
/// way: line by line they say one thing of each fault.
pub fn report_fronts_are_read()
    ensures read { (c : Netlist) (representatives : List ℕ) (lines : List (List ℕ))
        → IsReportFront c representatives lines
        → (at : ReportReading) × ReportReadsTo c representatives lines at }
    ensures begins { (c : Netlist) (representatives : List ℕ) (lines : List (List ℕ))
        (at : ReportReading) → ReportReadsTo c representatives lines at
        → IsReportFront c representatives lines }
    ensures once { (c : Netlist) (representatives : List ℕ) (lines : List (List ℕ))
        (a b : ReportReading) → IsCircuit c → ReportReadsTo c representatives lines a
        → ReportReadsTo c representatives lines b → SaySame representatives a b }
{}

/// The lines of the report of a search, each with its LF, are the report text of what the search says: so a reader
/// takes them. No name has an LF or a CR, and a text is at most 2^62 bytes long.
pub fn reports_are_read()
    ensures { (c : Netlist) (representatives : List ℕ) (budget : ℕ) (saids : List Said)
        → IsCircuit c → AreClasses c representatives → HasPlainNames c
        → IsSearchOf c representatives (length (faults_of c)) budget saids
        → length (report_text c representatives (Some budget) saids) ≤ max_text_bytes
        → IsReportText c representatives (report_text c representatives (Some budget) saids)
        budget saids }
{}

/// A text is the report of a search, or malformed at a line.
pub fn texts_are_reports_or_malformed()
    ensures { (c : Netlist) (representatives : List ℕ) (text : List ℕ)
        → AreClasses c representatives → ((budget : ℕ) × (saids : List Said)
        × IsReportText c representatives text budget saids)
        ⊎ ((n : ℕ) × IsMalformedReport c representatives text n) }
{}

/// A text is the report of at most one search: it has one budget, and says one thing of each class. It isn't malformed
/// too, and a malformed text is so at one line.
pub fn reports_say_one_thing()
    ensures one { (c : Netlist) (representatives : List ℕ) (text : List ℕ) (budget other : ℕ)
        (a b : List Said) → IsCircuit c → IsReportText c representatives text budget a
        → IsReportText c representatives text other b
        → SameSearch representatives budget other a b }
    ensures not_malformed { (c : Netlist) (representatives : List ℕ) (text : List ℕ) (budget : ℕ)
        (saids : List Said) (n : ℕ) → IsReportText c representatives text budget saids
        → ¬ IsMalformedReport c representatives text n }
    ensures one_line { (c : Netlist) (representatives : List ℕ) (text : List ℕ) (m n : ℕ)
        → IsMalformedReport c representatives text m → IsMalformedReport c representatives text n
        → m ≡ n }
{}

/// No line of the report of a search has more than `MAX_LINE_BYTES` bytes, where no name has more than 255: so a reader
/// that takes no longer line takes every report.
pub fn report_lines_are_short()
    ensures { (c : Netlist) (representatives : List ℕ) (lines : List (List ℕ)) → IsCircuit c
        → AreClasses c representatives → HasShortNames c
        → IsReportFront c representatives lines → All IsShortLine lines }
{}

/// Where a report of a search begins with the first n lines of a text, none of them is wrong; the next is where no
/// report has it after them; and if it is wrong, and the text doesn't get too long in the first n, it is the first
/// wrong line.
pub fn first_wrong_report_line()
    ensures read { (c : Netlist) (representatives : List ℕ) (text : List ℕ) (n m : ℕ)
        → IsReportFront c representatives (take n (lines_of text)) → n ≤ length (lines_of text)
        → m ≤ n → ¬ IsNoReportLine c representatives text m }
    ensures none { (c : Netlist) (representatives : List ℕ) (text : List ℕ) (n : ℕ)
        → n < length (lines_of text)
        → ¬ IsReportFront c representatives (take n (lines_of text) ++ line_at text (n + 1) ∷ [])
        → IsNoReportLine c representatives text (n + 1) }
    ensures first { (c : Netlist) (representatives : List ℕ) (text : List ℕ) (n : ℕ)
        → IsReportFront c representatives (take n (lines_of text)) → n ≤ length (lines_of text)
        → ((m : ℕ) → m ≤ n → ¬ IsTooLong text m)
        → IsWrongReportLine c representatives text (n + 1)
        → IsMalformedReport c representatives text (n + 1) }
{}
