//! Sets of lanes that have sensitized paths.

/// The lanes in which a sensitized path leads from a line to an output, in its frame or a later one, and to a flip-flop
/// after the last frame.
#[derive(Clone, Copy)]
pub struct Paths {
    pub output: u64,
    pub end: u64,
}

/// No path.
pub const NO_PATHS: Paths = Paths { output: 0, end: 0 };
