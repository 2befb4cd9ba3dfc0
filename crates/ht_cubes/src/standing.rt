//! How a clause stands where some variables have values.
ghost use Rattle.std.specs.Prelude.{length};
ghost use Rattle.ht_cubes.specs.Values.{IsBelow, IsStanding};

use crate::SignedVar;

/// How a clause stands.
#[derive(Clone, Copy)]
pub(crate) enum Standing {
    /// Something is true, or two signed variables have no value.
    Open,
    /// All but this one are false, and this one has no value.
    Left(SignedVar),
    /// All are false.
    Failed,
}

/// How a clause stands under these values.
pub(crate) fn stands(values: &[Option<bool>], clause: &[SignedVar]) -> Standing
    requires { IsBelow (length values.now) clause.now }
    ensures { IsStanding values.now clause.now result }
{
    let mut left = None;
    for literal in clause {
        match values[literal.variable as usize] {
            Some(value) => {
                if value == literal.value {
                    return Standing::Open;
                }
            }
            None => match left {
                None => left = Some(*literal),
                Some(other) => {
                    if other != *literal {
                        return Standing::Open;
                    }
                }
            },
        }
    }
    match left {
        Some(literal) => Standing::Left(literal),
        None => Standing::Failed,
    }
}
