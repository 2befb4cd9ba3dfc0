//! Laws of the files. Each theorem is the contract of a function that does nothing.
ghost use Rattle.std.specs.Prelude.{◌≡◌, ◌++◌, ◌∷◌, [], ℕ, List};
ghost use Rattle.ht_net.specs.Circuit.Netlist.{Netlist, IsCircuit};
ghost use Rattle.ht_bench.specs.Text.{IsNetlistOf};
ghost use Rattle.ht_faults.specs.Classes.{AreClasses};
ghost use Rattle.ht_texts.specs.Lines.{with_lf};
ghost use Rattle.ht_texts.specs.SearchReports.{HasPlainNames, HasShortNames};
ghost use Rattle.ht_entries.specs.declared.proof_line.ProofLine.TheVariants as line;
ghost use Rattle.ht_entries.specs.ProofLines.{line_text};
ghost use Rattle.ht_valid.specs.declared.trouble.Trouble.{Trouble};
ghost use Rattle.ht_valid.specs.FirstTrouble.{IsFirstTrouble};
ghost use Rattle.ht_engine.specs.declared.settings.Settings.{Settings};
ghost use Rattle.ht_engine.specs.declared.step.Step as made;
ghost use Rattle.ht_files.specs.Generated.{IsGenerated};
ghost use Rattle.ht_files.specs.StepTexts.{format_of, proofs_of, proofs_so_far, proofs_step, tests_of, tests_step};

/// No name of a circuit that was read has an LF or a CR.
pub fn accepted_netlists_have_plain_names()
    ensures { (text : List ℕ) (c : Netlist) → IsNetlistOf text c → HasPlainNames c }
{}

/// No name of a circuit that was read has more bytes than a line of a report has room for.
pub fn accepted_netlists_have_short_names()
    ensures { (text : List ℕ) (c : Netlist) → IsNetlistOf text c → HasShortNames c }
{}

/// The tests and the proofs so far grow by the text of each step.
pub fn files_grow_by_steps()
    ensures tests { (steps : List made.Step) (step : made.Step)
        → tests_of (steps ++ step ∷ []) ≡ tests_of steps ++ tests_step step }
    ensures proofs { (settings : Settings) (steps : List made.Step) (step : made.Step)
        → proofs_so_far settings (steps ++ step ∷ [])
        ≡ proofs_so_far settings steps ++ proofs_step step }
{}

/// The proofs begin with the head line, and the end line makes them whole.
pub fn proofs_begin_and_end()
    ensures begin { (settings : Settings)
        → proofs_so_far settings [] ≡ with_lf (line_text (line.Head (format_of settings.search))) }
    ensures end { (settings : Settings) (steps : List made.Step)
        → proofs_of settings steps ≡ proofs_so_far settings steps ++ with_lf (line_text line.End) }
{}

/// What a finished generator writes has no trouble, so each checker that keeps the definition accepts it.
pub fn generated_files_have_no_trouble()
    ensures { (c : Netlist) (representatives : List ℕ) (settings : Settings)
        (tests report proofs total : List ℕ) (trouble : Trouble) → IsCircuit c
        → AreClasses c representatives → IsGenerated c settings tests report proofs total
        → ¬ IsFirstTrouble c representatives settings.start tests report proofs trouble }
{}
