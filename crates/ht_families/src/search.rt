//! The least family that closes.
ghost use Rattle.std.specs.Prelude.{IfOk, MatchOption};
ghost use Rattle.ht_net.specs.Detect.Detection.{IsStart};
ghost use Rattle.ht_tree.specs.Record.ClosedFamilies.{Closes, Family};
ghost use Rattle.ht_families.specs.Families.{IsLeastClosing};

use crate::Family;
use crate::frame::FamilyFrame;
use crate::sets::{includes_each, join_each, start_family};
use ht_net::{Circuit, Fault};
use ht_tern::Tern;
use std::alloc::{AllocError, Global};

/// The least family that closes for a fault and a start, or `None` where none closes. It is found without a choice, in
/// one frame for each pair that it holds at most, and so without a budget. A start has a value for each flip-flop.
///
/// # Errors
/// Out of memory.
pub fn closing(
    alloc: Global,
    circuit: &Circuit,
    fault: Fault,
    start: &[Tern],
) -> Result<Option<Family>, AllocError>
    requires { IsStart circuit.now start.now }
    ensures { IfOk result (λ found. MatchOption found
        ((family : Family) → ¬ Closes circuit.now fault start.now family)
        (λ family. IsLeastClosing circuit.now fault start.now family.items)) }
{
    let mut frame = FamilyFrame::new(alloc, circuit, fault)?;
    let mut family = start_family(alloc, start)?;
    'rounds: loop {
        frame.run(&family);
        if frame.may_differ() {
            return Ok(None);
        }
        if includes_each(&family, frame.next_sets()) {
            return Ok(Some(family));
        }
        // some set gains a pair in each round, and none has more than nine
        join_each(&mut family, frame.next_sets());
    }
}
