//! The head line of a search's report, read.
ghost use Rattle.std.specs.Prelude.{◌≡◌, ◌≢◌, ℕ, Some, MatchOption};
ghost use Rattle.std.specs.Fmt.{decimal};
ghost use Rattle.ht_faults.specs.Classes.{AreClasses};
ghost use Rattle.ht_texts.specs.Reports.{head_line};
ghost use Rattle.ht_texts.specs.SearchReports.{IsBudget};

use crate::head::sizes_of;
use crate::number::read_number;
use crate::strip::{strip_pieces, strip_word};
use ht_faults::Classes;
use ht_net::Circuit;
use ht_tree::MAX_BUDGET;

// The budget of the head line that this is, or `None` where no report of a search has it.
pub fn read_head(circuit: &Circuit, classes: &Classes, line: &[u8]) -> Option<u64>
    requires { AreClasses circuit.now classes.now }
    ensures { MatchOption result
        ((budget : ℕ) → IsBudget budget
        → line.now ≢ head_line circuit.now classes.now (Some budget))
        (λ budget. IsBudget budget
        × (line.now ≡ head_line circuit.now classes.now (Some budget))) }
{
    let rest = strip_pieces(Some(line), &sizes_of(circuit, classes));
    let rest = strip_word(rest, b" budget ")?;
    read_budget(rest)
}

// The budget of a search, or `None` where the text is that of none.
fn read_budget(text: &[u8]) -> Option<u64>
    ensures { MatchOption result
        ((budget : ℕ) → IsBudget budget → text.now ≢ decimal budget)
        (λ budget. IsBudget budget × (text.now ≡ decimal budget)) }
{
    let budget = read_number(text, MAX_BUDGET)?;
    if budget == 0 { None } else { Some(budget) }
}
