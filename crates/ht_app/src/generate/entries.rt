//! The entries of a full search, written in the order of their faults.
ghost use Rattle.std.specs.Prelude.{◌≡◌, ◌∷◌, [], length};
ghost use Rattle.ht_ports.specs.Desk.{IsWritable};
ghost use Rattle.ht_ports.specs.declared.ports.OutPort.TheVariants as out_port;
ghost use Rattle.ht_verdicts.specs.Standing.{entry_at};
ghost use Rattle.ht_files.specs.Searched.{entry_steps};
ghost use Rattle.ht_app.specs.Generating.{Adds, WritesEntries};
ghost use Rattle.ht_app.specs.Steps.{StaysWritable};

use crate::generate::sizes::Sizes;
use crate::generate::steps::put_counted;
use ht_inputs::RunError;
use ht_ports::{Desk, OutPort};
use ht_verdicts::Verdicts;
use std::alloc::Global;

// Writes the entry of a fault, if it has one, and counts its text.
fn put_entry<D: Desk>(
    alloc: Global,
    verdicts: &Verdicts,
    fault: u32,
    sizes: &mut Sizes,
    desk: &mut D,
) -> Result<(), RunError>
    requires proofs { IsWritable (D.view desk.old) out_port.Proofs }
    ensures stays { StaysWritable (D.view desk.old) (D.view desk.new) }
    ensures adds { Adds (entry_steps fault (entry_at verdicts.now fault ∷ [])) sizes.old sizes.new
        result (D.view desk.old) (D.view desk.new) }
{
    if !verdicts.has_entry(fault) {
        return Ok(());
    }
    let text = verdicts.entry_text(alloc, fault)?;
    let written = put_counted(OutPort::Proofs, &text, &mut sizes.proofs, desk);
    // for the proof: dropped by name
    drop(text);
    written
}

/// Writes the entries of so many faults, which are all.
///
/// # Errors
/// Out of memory, or `WriteFault`; then the proofs have a front of the entries.
pub fn write_entries<D: Desk>(
    alloc: Global,
    verdicts: &Verdicts,
    count: u32,
    sizes: &mut Sizes,
    desk: &mut D,
) -> Result<(), RunError>
    requires proofs { IsWritable (D.view desk.old) out_port.Proofs }
    requires all { length verdicts.now.entries ≡ count }
    ensures stays { StaysWritable (D.view desk.old) (D.view desk.new) }
    ensures writes { WritesEntries verdicts.now.entries sizes.old sizes.new result
        (D.view desk.old) (D.view desk.new) }
{
    for fault in 0..count {
        put_entry(alloc, verdicts, fault, sizes, desk)?;
    }
    Ok(())
}
