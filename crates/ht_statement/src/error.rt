//! Why a line isn't read.
ghost use Rattle.std.specs.Prelude.{◌≡◌};

use std::alloc::AllocError;

/// Why a line is refused, in the order in which the causes are judged.
#[derive(Debug, Clone, Copy, PartialEq, Eq)]
pub enum LineRefusal {
    /// Its tokens have none of the forms.
    BadLine,
    /// A name has a byte outside 33 to 126, or more than 255 bytes.
    BadName,
    /// The kind is none of AND, NAND, OR, NOR, XOR, XNOR, NOT, BUFF, BUF and DFF.
    BadKind,
    /// DFF, NOT and BUFF have one argument, the others 1 to 255.
    BadCount,
}

/// Why a line isn't read: it is refused, or memory ran out.
#[derive(Debug, PartialEq, Eq, Drop)]
pub enum StatementError {
    Refused(LineRefusal),
    NoMemory,
}

impl From<AllocError> for StatementError {
    ghost use Rattle.ht_statement.specs.declared.error.StatementError.TheVariants.{NoMemory};

    ghost from_gives = { λ _ error. error ≡ NoMemory };

    fn from(_error: AllocError) -> StatementError {
        StatementError::NoMemory
    }
}
