//! Why a report isn't read further.
use thiserror::Error;

/// No report of the circuit has this line after the lines before it. Lines count from 1.
#[derive(Clone, Copy, Debug, PartialEq, Eq, Error)]
#[error("line {line} is malformed")]
pub struct MalformedLine {
    pub line: u64,
}
