//! Why a run ends without its work.
ghost use Rattle.std.specs.Prelude.{◌≡◌};
ghost use Rattle.ht_inputs.specs.Errors.{exit_status, judged_error_of, run_error_of};
ghost use Rattle.ht_inputs.specs.declared.run_error.RunError.TheVariants as error;

use ht_bench::BenchError;
use ht_judge::JudgeError;
use ht_valid::Trouble;
use std::alloc::{AllocError, AllocFailed};

/// Why a run ends without its work. Lines count from 1.
///
/// | Error | Status | Line on Err |
/// |---|---|---|
/// | `Denied` | 1 | `denied: report line 2` |
/// | `Usage` | 2 | `usage: FORMS`, the forms of all commands |
/// | `TooLong` | 3 | `netlist: too long` |
/// | `Refused` | 3 | `netlist: line 2: undriven b` |
/// | `ReadFault` | 4 | `read fault` |
/// | `WriteFault` | 5 | `write fault` |
/// | `NoMemory` | 6 | `no memory` |
/// | `BadTests` | 7 | `tests: line 2` |
/// | `BadStart` | 8 | `start: line 1` |
/// | `TooManyVectors` | 9 | `tests: too many vectors` |
/// | `BadResponses` | 10 | `responses: line 2` |
/// | `NoSuchFault` | 12 | `fault: above 6` |
/// | `BadFaults` | 13 | `faults: line 2` |
#[derive(Debug, Drop)]
pub enum RunError {
    /// The files of `check` aren't valid.
    Denied {
        /// The first trouble.
        trouble: Trouble,
    },
    /// The words have no command's form.
    Usage,
    /// The netlist has too many bytes.
    TooLong,
    /// The netlist is refused; never because memory ran out.
    Refused(BenchError),
    /// The desk counted a fault of reading.
    ReadFault,
    /// The desk counted a fault of writing.
    WriteFault,
    /// Out of memory.
    NoMemory,
    /// The text is no start of the circuit: not one line with a value for each flip-flop.
    BadStart {
        /// The first line that is wrong, too many or missing.
        line: u64,
    },
    /// A line of the tests is no vector of the circuit; never of `check`, which denies such tests.
    BadTests {
        /// The first such line.
        line: u64,
    },
    /// The tests of `compact` have too many vectors: their first 4,097 lines are vectors; later ones aren't judged.
    TooManyVectors,
    /// The responses aren't a row of the circuit's outputs for each vector.
    BadResponses {
        /// The first line that is wrong, too many or missing.
        line: u64,
    },
    /// The circuit has no fault of the number that the words name.
    NoSuchFault {
        /// How many faults it has.
        faults: u64,
    },
    /// A line of the list of faults isn't the number of a fault of the circuit above the line before.
    BadFaults {
        /// The first such line.
        line: u64,
    },
}

impl From<AllocError> for RunError {
    ghost from_gives = { λ _ e. e ≡ error.NoMemory };

    fn from(_: AllocError) -> Self {
        RunError::NoMemory
    }
}

impl<T: Drop> From<AllocFailed<T>> for RunError {
    ghost from_gives = { λ _ e. e ≡ error.NoMemory };

    fn from(_: AllocFailed<T>) -> Self {
        RunError::NoMemory
    }
}

impl From<BenchError> for RunError {
    ghost from_gives = { λ error e. e ≡ run_error_of error };

    fn from(error: BenchError) -> Self {
        match error {
            BenchError::NoMemory => RunError::NoMemory,
            error => RunError::Refused(error),
        }
    }
}

impl From<JudgeError> for RunError {
    ghost from_gives = { λ error e. e ≡ judged_error_of error };

    fn from(error: JudgeError) -> Self {
        match error {
            JudgeError::Denied { trouble } => RunError::Denied { trouble },
            JudgeError::NoMemory => RunError::NoMemory,
        }
    }
}

impl RunError {
    /// The status that the run ends with.
    pub fn status(&self) -> u8
        ensures { result ≡ exit_status self.now }
    {
        match self {
            RunError::Denied { .. } => 1,
            RunError::Usage => 2,
            RunError::TooLong | RunError::Refused(_) => 3,
            RunError::ReadFault => 4,
            RunError::WriteFault => 5,
            RunError::NoMemory => 6,
            RunError::BadTests { .. } => 7,
            RunError::BadStart { .. } => 8,
            RunError::TooManyVectors => 9,
            RunError::BadResponses { .. } => 10,
            RunError::NoSuchFault { .. } => 12,
            RunError::BadFaults { .. } => 13,
        }
    }
}
