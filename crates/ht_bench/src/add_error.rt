//! Why a line isn't added.
ghost use Rattle.std.specs.Prelude.{◌≡◌};
ghost use Rattle.ht_bench.specs.AddErrors.{error_at};

use crate::BenchError;
use ht_items::Items;
use ht_net::NetError;
use ht_statement::{LineRefusal, StatementError};
use std::alloc::AllocError;

/// Why a line isn't added to a netlist in the making.
#[derive(Drop)]
pub(crate) enum AddError {
    /// The line is refused, whatever stands before it.
    Refused(LineRefusal),
    /// It drives this net, which an earlier line drives.
    SecondDriver(Items<u8>),
    /// With it there are more than the limit allows.
    Limit(ht_net::Limit),
    /// Out of memory.
    NoMemory,
}

impl AddError {
    /// The refusal of a text at this line, which counts from 1.
    pub(crate) fn at(self, line: u32) -> BenchError
        ensures { result ≡ error_at self line }
    {
        match self {
            AddError::Refused(LineRefusal::BadLine) => BenchError::BadLine { line },
            AddError::Refused(LineRefusal::BadName) => BenchError::BadName { line },
            AddError::Refused(LineRefusal::BadKind) => BenchError::BadKind { line },
            AddError::Refused(LineRefusal::BadCount) => BenchError::BadCount { line },
            AddError::SecondDriver(name) => BenchError::Twice { line, name },
            AddError::Limit(what) => BenchError::TooMany { line, what },
            AddError::NoMemory => BenchError::NoMemory,
        }
    }
}

impl From<AllocError> for AddError {
    ghost use Rattle.ht_bench.specs.declared.add_error.AddError.TheVariants.{NoMemory};

    ghost from_gives = { λ _ error. error ≡ NoMemory };

    fn from(_error: AllocError) -> AddError {
        AddError::NoMemory
    }
}

impl From<StatementError> for AddError {
    ghost use Rattle.ht_bench.specs.AddErrors.{line_error_of};

    ghost from_gives = { λ error result. result ≡ line_error_of error };

    fn from(error: StatementError) -> AddError {
        match error {
            StatementError::Refused(refusal) => AddError::Refused(refusal),
            StatementError::NoMemory => AddError::NoMemory,
        }
    }
}

// `Twice` can't come here: `mention_driven` has refused a second driver before the builder is asked to drive the net.
impl From<NetError> for AddError {
    ghost use Rattle.ht_bench.specs.AddErrors.{add_error_of};

    ghost from_gives = { λ error result. result ≡ add_error_of error };

    fn from(error: NetError) -> AddError {
        match error {
            NetError::TooMany { what } => AddError::Limit(what),
            _ => AddError::NoMemory,
        }
    }
}
