//! The limit of a line.

/// The most bytes of a line of a proofs text, without its end: 2^20. Cubes and steps may be as long, and a line of any
/// other kind is shorter: the longest of them has a character for each of the 16,384 flip-flops that a circuit may have.
pub const MAX_PROOF_LINE_BYTES: u32 = 1_048_576;
