//! The limits of texts.

/// The most bytes of a line of the report of a search, without its end: more than any has, since a name has at most 255.
pub const MAX_LINE_BYTES: u32 = 4_104;
