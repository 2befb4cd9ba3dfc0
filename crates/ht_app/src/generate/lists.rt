//! The vectors of a full search, written as they are found.
ghost use Rattle.std.specs.Prelude.{◌≡◌, ◌≤◌, List, Bool, ℕ, drop, length, OnOk};
ghost use Rattle.std.specs.List.{All};
ghost use Rattle.ht_ports.specs.Desk.{IsWritable};
ghost use Rattle.ht_ports.specs.declared.ports.OutPort.TheVariants as out_port;
ghost use Rattle.ht_tern.specs.declared.tern.Tern as tern;
ghost use Rattle.ht_net.specs.Circuit.Netlist.{Netlist};
ghost use Rattle.ht_engine.specs.declared.step.Step.TheVariants as made_step;
ghost use Rattle.ht_full.specs.Searches.{IsEnd, IsFullOf};
ghost use Rattle.ht_app.specs.Generating.{CountsStep, WritesLists};
ghost use Rattle.ht_app.specs.Outputs.{step_acts};
ghost use Rattle.ht_app.specs.Steps.{StaysWritable, Tries};

use crate::generate::sizes::Sizes;
use crate::generate::steps::put_counted;
use ht_files::write_rest;
use ht_full::FullSearch;
use ht_inputs::RunError;
use ht_net::Vectors;
use ht_ports::{Desk, OutPort};
use std::alloc::Global;

// Writes the vectors of a list from number `from` on, which counts from 0, and counts their text.
fn put_rest<D: Desk>(
    alloc: Global,
    list: &Vectors,
    from: u64,
    sizes: &mut Sizes,
    desk: &mut D,
) -> Result<(), RunError>
    requires tests { IsWritable (D.view desk.old) out_port.Tests }
    requires within { from ≤ length list.now.list }
    ensures stays { StaysWritable (D.view desk.old) (D.view desk.new) }
    ensures counted { OnOk result (CountsStep
        (made_step.Vectors (record list.now { list = drop from list.now.list })) sizes.old
        sizes.new) }
    ensures wide { OnOk result (All (λ (vector : List Bool). length vector ≡ list.now.width)
        (drop from list.now.list)) }
    ensures tries { Tries (step_acts
        (made_step.Vectors (record list.now { list = drop from list.now.list }))) result
        (D.view desk.old) (D.view desk.new) }
{
    let text = write_rest(alloc, list, from)?;
    let written = put_counted(OutPort::Tests, &text, &mut sizes.tests, desk);
    // for the proof: dropped by name
    drop(text);
    written
}

/// Runs a search to its end, and writes its vectors after each chunk.
///
/// # Errors
/// Out of memory, or `WriteFault`; then the tests have a front of the vectors.
pub fn write_lists<D: Desk>(
    alloc: Global,
    search: &mut FullSearch,
    sizes: &mut Sizes,
    desk: &mut D,
) -> Result<(), RunError>
    requires tests { IsWritable (D.view desk.old) out_port.Tests }
    ensures stays { StaysWritable (D.view desk.old) (D.view desk.new) }
    ensures writes { (c : Netlist) (representatives : List ℕ) (start : List tern.Tern)
        (given : List (List Bool)) (chosen : List Bool) (work : ℕ)
        → IsFullOf c representatives start given chosen work search.old
        → WritesLists c given search.new.known.vectors.list sizes.old sizes.new result
        (D.view desk.old) (D.view desk.new) }
    ensures ends { (c : Netlist) (representatives : List ℕ) (start : List tern.Tern)
        (given : List (List Bool)) (chosen : List Bool) (work : ℕ)
        → IsFullOf c representatives start given chosen work search.old
        → OnOk result (IsFullOf c representatives start given chosen work search.new
        × IsEnd search.new) }
{
    let mut written = 0;
    'chunks: loop {
        put_rest(alloc, search.vectors(), written, sizes, desk)?;
        written = search.vectors().len();
        if !search.next_chunk()? {
            return Ok(());
        }
    }
}
