//! What a chunk spent and brought.
ghost use Rattle.std.specs.Prelude.{◌≡◌};

use ht_order::Rate;

/// What a chunk spent and brought, beside the classes that it decided.
#[derive(Clone, Copy)]
pub struct Ran {
    /// The work that it took.
    pub spent: u64,
    /// What it brought in the end, where that isn't what it brought in all.
    pub late: Option<Rate>,
    /// It found lists that detect something.
    pub lists: bool,
    /// There is nothing left that the block wasn't asked.
    pub done: bool,
}

impl Ran {
    /// Of a block that isn't there.
    pub fn absent() -> Ran
        ensures { result.spent ≡ 0 }
    {
        Ran {
            spent: 0,
            late: None,
            lists: false,
            done: true,
        }
    }
}
