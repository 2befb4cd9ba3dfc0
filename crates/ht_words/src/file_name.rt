//! A file's name as a value.
ghost use Rattle.std.specs.Prelude.{◌≡◌};
ghost use Rattle.std.specs.Prelude.{string_bytes};

use std::marker::Model;

/// The name of a file. Contracts see it as its bytes and as nothing else, so that two equal names are equal values.
#[derive(Debug, Drop)]
pub struct FileName {
    text: String,
}

impl Model for FileName {
    ghost use Rattle.std.specs.Prelude.{ℕ, List, string_bytes};

    ghost Value = { List ℕ };

    ghost view = { λ a. string_bytes a.text };
}

impl FileName {
    /// The name with this text.
    pub fn new(text: String) -> FileName
        ensures { result ≡ string_bytes text }
    {
        FileName { text }
    }

    /// The name's text.
    pub fn as_str(&self) -> &str
        ensures { result.now ≡ self.now }
    {
        self.text.as_str()
    }
}
