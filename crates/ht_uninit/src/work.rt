//! Flip-flops that never get a definite value, outputs that never show one, and the faults that they hide.
ghost use Rattle.std.specs.Prelude.{◌≡◌, ◌<◌, ◌+◌, ◌++◌, ◌∷◌, [], length, map, IfOk, OnOk};
ghost use Rattle.std.specs.List.{All, range_with_len};
ghost use Rattle.ht_net.specs.Circuit.Netlist.{net_count};
ghost use Rattle.ht_faults.specs.Sites.{IsFaultSite, faults_of};
ghost use Rattle.ht_uninit.specs.Cones.{cone_root};
ghost use Rattle.ht_uninit.specs.Exposed.{begins_unmarked};
ghost use Rattle.ht_uninit.specs.Records.{IsUninit, UninitHolds, given_faults};
ghost use Rattle.ht_uninit.specs.RoundStates.{AreOutputs};

use crate::exposed::find_exposed;
use crate::held_window::HeldWindow;
use crate::net_search::{Searched, search_net};
use crate::record::Out3;
use crate::rounds::{Rounds, find_held};
use crate::uninit_record::UninitRecord;
use ht_faults::FaultList;
use ht_net::{Circuit, NetId, Site};
use std::alloc::{AllocError, Global};

// Adds what the search of an output came to.
fn add(outs: &mut Vec<Out3>, out: Out3) -> Result<(), AllocError>
    ensures { OnOk result (outs.new.items ≡ outs.old.items ++ out ∷ []) }
{
    outs.push(out)?;
    Ok(())
}

// Searches output o, adds what that came to after the outputs before it, and gives the window back.
fn search_output<'c>(
    alloc: Global,
    circuit: &Circuit,
    held: HeldWindow<'c>,
    o: u32,
    budget: u64,
    outs: &mut Vec<Out3>,
) -> Result<HeldWindow<'c>, AllocError>
    requires circuit { held.circuit ≡ circuit.now }
    requires path { held.path ≡ [] }
    requires inside { o < length circuit.now.outputs }
    requires long { length outs.old.items ≡ o }
    requires outs { AreOutputs circuit.now budget held.members o outs.old.items }
    ensures circuit { IfOk result (λ next. next.circuit ≡ circuit.now) }
    ensures members { IfOk result (λ next. next.members ≡ held.entry.members) }
    ensures path { IfOk result (λ next. next.path ≡ []) }
    ensures long { OnOk result (length outs.new.items ≡ o + 1) }
    ensures outs { OnOk result
        (AreOutputs circuit.now budget held.entry.members (o + 1) outs.new.items) }
{
    // for the proof: the circuit is well formed
    let _ = circuit.nets();
    let net = circuit.output(o);
    let searched = search_net(alloc, held, net, budget)?;
    let Searched { held: next, out } = searched;
    // for the proof: where no output can be added, `and` drops the window
    add(outs, out).and(Ok(next))
}

// Searches each output.
fn search_outputs<'c>(
    alloc: Global,
    circuit: &Circuit,
    held: HeldWindow<'c>,
    budget: u64,
) -> Result<Vec<Out3>, AllocError>
    requires circuit { held.circuit ≡ circuit.now }
    requires path { held.path ≡ [] }
    ensures every { IfOk result (λ outs. length outs.items ≡ length circuit.now.outputs) }
    ensures outs { IfOk result (λ outs. AreOutputs circuit.now budget held.entry.members
        (length circuit.now.outputs) outs.items) }
{
    let mut window = held;
    let mut outs = Vec::new(alloc);
    for o in 0..circuit.outputs() {
        let next = search_output(alloc, circuit, window, o, budget, &mut outs)?;
        window = next;
    }
    // for the proof: dropped by name
    drop(window);
    Ok(outs)
}

// The net at which the cone of a fault begins.
fn cone_root(circuit: &Circuit, site: Site) -> NetId
    requires { IsFaultSite circuit.now site }
    ensures root { result.0 ≡ cone_root circuit.now site }
    ensures known { result.0 < net_count circuit.now }
{
    // for the proof: the circuit is well formed
    let _ = circuit.nets();
    match site {
        Site::Stem(net) => net,
        Site::DffPin { dff } => circuit.dff_net(dff),
        Site::GatePin { gate, pin: _ } => circuit.gate_net(gate),
    }
}

// Whether the cone of fault k begins at a net without a mark.
fn is_hidden(circuit: &Circuit, faults: &FaultList, marks: &[bool], k: u32) -> bool
    requires faults { faults.now ≡ faults_of circuit.now }
    requires fault { k < length faults.now }
    requires long { length marks.now ≡ net_count circuit.now }
    ensures { result ≡ begins_unmarked circuit.now faults.now marks.now k }
{
    let root = cone_root(circuit, faults.get(k).site);
    !marks[root.index()]
}

// Which of the given faults are hidden.
fn hidden_faults(
    alloc: Global,
    circuit: &Circuit,
    faults: &FaultList,
    which: &[u32],
    marks: &[bool],
) -> Result<Vec<bool>, AllocError>
    requires faults { faults.now ≡ faults_of circuit.now }
    requires which { All (λ k. k < length faults.now) which.now }
    requires long { length marks.now ≡ net_count circuit.now }
    ensures { IfOk result (λ hidden. hidden.items
        ≡ map (begins_unmarked circuit.now faults.now marks.now) which.now) }
{
    let mut hidden = Vec::with_capacity(alloc, which.len())?;
    for k in which {
        hidden.push(is_hidden(circuit, faults, marks, *k))?;
    }
    Ok(hidden)
}

/// Finds flip-flops that never get a definite value, outputs that never show one for that reason, and which of the given
/// faults they hide. Each search has the whole budget, of which a token takes one.
///
/// # Errors
/// Out of memory.
pub fn uninit(
    alloc: Global,
    circuit: &Circuit,
    faults: &FaultList,
    which: &[u32],
    budget: u64,
) -> Result<UninitRecord, AllocError>
    requires faults { faults.now ≡ faults_of circuit.now }
    requires which { All (λ k. k < length faults.now) which.now }
    ensures answer { IfOk result
        (IsUninit circuit.now budget (given_faults faults.now which.now)) }
    ensures holds { IfOk result (UninitHolds circuit.now budget) }
{
    // for the proof: the circuit is well formed
    let _ = circuit.nets();
    let rounds = find_held(alloc, circuit, budget)?;
    let Rounds {
        held,
        removed,
        walks,
        before: _,
    } = rounds;
    let outs = search_outputs(alloc, circuit, held, budget)?;
    let marks = find_exposed(alloc, circuit, &outs)?;
    let hidden = hidden_faults(alloc, circuit, faults, which, &marks)?;
    Ok(UninitRecord {
        removed,
        walks,
        outs,
        hidden,
    })
}

// The numbers of so many faults, rising.
fn every_number(alloc: Global, count: u32) -> Result<Vec<u32>, AllocError>
    ensures { IfOk result (λ every. every.items ≡ range_with_len 0 count) }
{
    let mut every = Vec::with_capacity(alloc, count as usize)?;
    for k in 0..count {
        every.push(k)?;
    }
    Ok(every)
}

/// The same for the whole fault list: mark i of the record is that of fault i.
///
/// # Errors
/// Out of memory.
pub fn uninit_of_all(
    alloc: Global,
    circuit: &Circuit,
    faults: &FaultList,
    budget: u64,
) -> Result<UninitRecord, AllocError>
    requires { faults.now ≡ faults_of circuit.now }
    ensures answer { IfOk result (IsUninit circuit.now budget (faults_of circuit.now)) }
    ensures holds { IfOk result (UninitHolds circuit.now budget) }
{
    let every = every_number(alloc, faults.len())?;
    uninit(alloc, circuit, faults, &every, budget)
}
