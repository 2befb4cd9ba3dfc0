//! Why a text is no netlist.
ghost use Rattle.std.specs.Prelude.{◌≡◌};

use ht_items::Items;
use ht_net::Limit;
use std::alloc::AllocError;

/// Why a text is no netlist (ISCAS-89 format). Lines count from 1.
///
/// The first line that is refused decides, and on it the first error from `BadLine` to `TooMany`. Where no line is
/// refused it is `Undriven`, and where all nets are driven too it is `Loop`.
#[derive(Debug, Drop)]
pub enum BenchError {
    /// The line has none of the forms.
    BadLine { line: u32 },
    /// A name has a byte outside 33 to 126, or more than 255 bytes.
    BadName { line: u32 },
    /// The kind of a definition is none of the format's.
    BadKind { line: u32 },
    /// A definition has too few or too many arguments for its kind.
    BadCount { line: u32 },
    /// The line drives a net that an earlier line drives.
    Twice { line: u32, name: Items<u8> },
    /// With this line there are more than the limit allows. Nets, pins, inputs and flip-flops are tested in this order.
    TooMany { line: u32, what: Limit },
    /// No line drives this net: the leftmost such net on the first line that mentions one.
    Undriven { line: u32, name: Items<u8> },
    /// Gates form a cycle. The nets differ: each is an argument of the gate that drives the next, and the last one of
    /// the gate that drives the first. The net that the text mentions first is first, and the line drives it.
    Loop { line: u32, names: Items<Items<u8>> },
    /// Out of memory.
    NoMemory,
}

impl From<AllocError> for BenchError {
    ghost use Rattle.ht_bench.specs.declared.error.BenchError.TheVariants.{NoMemory};

    ghost from_gives = { λ _ error. error ≡ NoMemory };

    fn from(_error: AllocError) -> BenchError {
        BenchError::NoMemory
    }
}
