//! Formats of a proofs text.
ghost use Rattle.std.specs.Prelude.{◌≡◌};
ghost use Rattle.ht_entries.specs.EntryTexts.{has_form};

use crate::entry_part::EntryPart;

/// A format of a proofs text, which its first line names.
#[derive(Clone, Copy, PartialEq, Eq, Debug)]
pub enum Format {
    /// `proofs 1`: no entry refutes a fault from one named state, and none says undetectable.
    One,
    /// `proofs 2`: an entry may refute a fault from one named state.
    Two,
    /// `proofs 3`: an entry may also say undetectable.
    Three,
}

impl Format {
    // Whether the format has the form of this part of an entry.
    pub fn has(self, part: &EntryPart) -> bool
        ensures { result ≡ has_form self part.now }
    {
        match part {
            EntryPart::Untestable { .. } | EntryPart::Aborted { .. } => true,
            EntryPart::FromState(_) => matches!(self, Format::Two | Format::Three),
            EntryPart::BySets { .. } | EntryPart::ByCubes(_) => matches!(self, Format::Three),
        }
    }
}
