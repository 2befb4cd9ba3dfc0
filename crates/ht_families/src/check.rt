//! Whether a family closes.
ghost use Rattle.std.specs.Prelude.{◌≡◌, ◌↔◌, IsTrue, length, IfOk};
ghost use Rattle.ht_net.specs.Detect.Detection.{IsStart};
ghost use Rattle.ht_tree.specs.Record.ClosedFamilies.{Closes};

use crate::frame::FamilyFrame;
use crate::sets::{holds_state, includes_each};
use ht_net::{Circuit, Fault};
use ht_pairs::PairSet;
use ht_tern::Tern;
use std::alloc::{AllocError, Global};

/// Whether a family closes for a fault and a start, by one frame. A start has a value for each flip-flop, and a family a
/// set.
///
/// # Errors
/// Out of memory.
pub fn closes(
    alloc: Global,
    circuit: &Circuit,
    fault: Fault,
    start: &[Tern],
    family: &[PairSet],
) -> Result<bool, AllocError>
    requires start { IsStart circuit.now start.now }
    requires family { length family.now ≡ length circuit.now.dffs }
    ensures { IfOk result
        (λ closed. IsTrue closed ↔ Closes circuit.now fault start.now family.now) }
{
    let mut frame = FamilyFrame::new(alloc, circuit, fault)?;
    frame.run(family);
    if !holds_state(family, start) {
        return Ok(false);
    }
    if !includes_each(family, frame.next_sets()) {
        return Ok(false);
    }
    Ok(!frame.may_differ())
}
