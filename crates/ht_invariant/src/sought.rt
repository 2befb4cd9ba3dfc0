//! What is looked for in a window under clauses.
use ht_tree::Literal;

/// What is looked for in a one-frame window under clauses.
#[derive(Clone, Copy)]
pub enum Sought {
    /// A difference of the two machines.
    Difference,
    /// A next state of the good machine that doesn't meet the clause of these literals.
    Breach {
        first: Literal,
        second: Option<Literal>,
    },
}
