//! Causes: what a list of vectors shows of a fault.
ghost use Rattle.std.specs.Prelude.{◌≡◌};
ghost use Rattle.ht_causes.specs.Causes.{table_row};

use ht_net::Place;

/// A flip-flop after a vector of a list, both from 0.
#[derive(Clone, Copy, PartialEq, Eq, Debug)]
pub struct LatchPlace {
    pub vector: u64,
    pub dff: u32,
}

/// Where a list of vectors first detects a fault or, where it doesn't, why not. A fault has the first that holds.
/// Vectors count from 0. The fault's line *carries* in the good machine what its driver gives, if it is a stem, and
/// what its net has, if it is a pin.
#[derive(Clone, Copy, PartialEq, Eq, Debug)]
pub enum Cause {
    /// The first place where the good and the faulty machine show opposite definite values.
    Detected(Place),
    /// The first place where the good machine shows a definite value and the faulty one an unknown: a tester may see
    /// the fault, or may not.
    Possible(Place),
    /// The first flip-flop that holds a definite value in the good machine after a vector, and another one in the faulty
    /// machine. No output showed it.
    Stored(LatchPlace),
    /// The first vector at which the line carries the value opposite to the stuck one: the effect ends within each
    /// frame.
    Stopped(u64),
    /// The line carries a definite value at some vector, and never the opposite of the stuck one.
    Unexcited,
    /// The line never carries a definite value.
    Unknown,
}

impl Cause {
    /// The row of the table in which the cause stands: 0 for a detection to 5 for an unknown.
    pub fn row(self) -> u8
        ensures { result ≡ table_row self }
    {
        match self {
            Cause::Detected(_) => 0,
            Cause::Possible(_) => 1,
            Cause::Stored(_) => 2,
            Cause::Stopped(_) => 3,
            Cause::Unexcited => 4,
            Cause::Unknown => 5,
        }
    }
}
