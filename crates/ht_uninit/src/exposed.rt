//! The nets from which an output that isn't mute is reached, in this frame or in a later one.
ghost use Rattle.std.specs.Prelude.{◌≡◌, ◌<◌, ◌+◌, ℕ, Bool, [], length, get_or, set, true, false, IfOk, OnOk};
ghost use Rattle.ht_net.specs.Circuit.Netlist.{first_gate_net, gate_at, net_count, IsCircuit};
ghost use Rattle.ht_uninit.specs.Cones.{output_net};
ghost use Rattle.ht_uninit.specs.Exposed.{AreExposed, LeadsOut, TellsHidden, is_marked, waiting_after, work_left};
ghost use Rattle.ht_uninit.specs.Rounds.{is_mute, mutes_of};

use crate::record::Out3;
use ht_net::{Circuit, NetId};
use std::alloc::{AllocError, Global};

// Marks a net. It waits if it wasn't marked before.
fn mark(marks: &mut Vec<bool>, todo: &mut Vec<NetId>, net: NetId) -> Result<(), AllocError>
    requires { net.0 < length marks.old.items }
    ensures marks { OnOk result (marks.new.items ≡ set marks.old.items net.0 true) }
    ensures todo { OnOk result
        (todo.new.items ≡ waiting_after marks.old.items todo.old.items net) }
{
    if marks[net.index()] {
        return Ok(());
    }
    marks[net.index()] = true;
    todo.push(net)?;
    Ok(())
}

// Marks what a gate reads, where its net is busy.
fn mark_arguments(
    circuit: &Circuit,
    g: u32,
    marks: &mut Vec<bool>,
    todo: &mut Vec<NetId>,
) -> Result<(), AllocError>
    requires gate { g < length circuit.now.gates }
    requires long { length marks.old.items ≡ net_count circuit.now }
    ensures exposed { OnOk result ((mute : ℕ → Bool) (outputs : ℕ)
        → AreExposed circuit.now mute outputs marks.old.items todo.old.items
        (first_gate_net circuit.now + g) 0
        → AreExposed circuit.now mute outputs marks.new.items todo.new.items (net_count circuit.now) 0) }
    ensures work { OnOk result
        (work_left marks.new.items todo.new.items ≡ work_left marks.old.items todo.old.items) }
{
    for arg in circuit.gate_args(g) {
        mark(marks, todo, *arg)?;
    }
    Ok(())
}

// Marks what the driver of a busy net reads.
fn mark_read(
    circuit: &Circuit,
    net: NetId,
    marks: &mut Vec<bool>,
    todo: &mut Vec<NetId>,
) -> Result<(), AllocError>
    requires net { net.0 < net_count circuit.now }
    requires long { length marks.old.items ≡ net_count circuit.now }
    ensures exposed { OnOk result ((mute : ℕ → Bool) (outputs : ℕ)
        → AreExposed circuit.now mute outputs marks.old.items todo.old.items net.0 0
        → AreExposed circuit.now mute outputs marks.new.items todo.new.items (net_count circuit.now) 0) }
    ensures work { OnOk result
        (work_left marks.new.items todo.new.items ≡ work_left marks.old.items todo.old.items) }
{
    // for the proof: the circuit is well formed
    let _ = circuit.nets();
    let inputs = circuit.inputs();
    let first_gate_net = inputs + circuit.dffs();
    if net.0 >= first_gate_net {
        mark_arguments(circuit, net.0 - first_gate_net, marks, todo)?;
        return Ok(());
    }
    if net.0 >= inputs {
        let data = circuit.dff_data(net.0 - inputs);
        mark(marks, todo, data)?;
        return Ok(());
    }
    Ok(())
}

fn is_mute(out: &Out3) -> bool
    ensures { result ≡ is_mute out.now }
{
    match out {
        Out3::Mute { tokens: _ } => true,
        Out3::Seen { sets: _ } | Out3::Open { tokens: _ } => false,
    }
}

// Marks an output that isn't mute.
fn mark_output(
    circuit: &Circuit,
    outs: &[Out3],
    o: u32,
    marks: &mut Vec<bool>,
    todo: &mut Vec<NetId>,
) -> Result<(), AllocError>
    requires output { o < length circuit.now.outputs }
    requires outs { length outs.now ≡ length circuit.now.outputs }
    requires long { length marks.old.items ≡ net_count circuit.now }
    ensures exposed { OnOk result
        (AreExposed circuit.now (mutes_of outs.now) o marks.old.items todo.old.items (net_count circuit.now) 0
        → AreExposed circuit.now (mutes_of outs.now) (o + 1) marks.new.items todo.new.items
        (net_count circuit.now) 0) }
{
    // for the proof: the circuit is well formed
    let _ = circuit.nets();
    let mute = is_mute(&outs[o as usize]);
    if mute {
        return Ok(());
    }
    let net = circuit.output(o);
    mark(marks, todo, net)?;
    Ok(())
}

/// A mark for each net whose cone has an output that isn't mute. A fault is hidden exactly where the root of its cone
/// has none.
///
/// # Errors
/// Out of memory.
// One walk back from the outputs serves all faults. What has no mark is closed forward, and all that a fault changes
// lies in each closed set with its root, so no proof speaks of paths.
pub fn find_exposed(
    alloc: Global,
    circuit: &Circuit,
    outs: &[Out3],
) -> Result<Vec<bool>, AllocError>
    requires { length outs.now ≡ length circuit.now.outputs }
    ensures long { IfOk result (λ marks. length marks.items ≡ net_count circuit.now) }
    ensures hidden { IfOk result
        (λ marks. TellsHidden circuit.now (mutes_of outs.now) marks.items) }
{
    let mut marks = vec![in alloc; false; circuit.nets() as usize]?;
    let mut todo = Vec::new(alloc);
    'outputs: for o in 0..circuit.outputs() {
        mark_output(circuit, outs, o, &mut marks, &mut todo)?;
    }
    'back: while let Some(net) = todo.pop() {
        mark_read(circuit, net, &mut marks, &mut todo)?;
    }
    Ok(marks)
}
