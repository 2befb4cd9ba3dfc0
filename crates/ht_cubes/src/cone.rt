//! The cone of a fault: the nets that its effect may come to.
ghost use Rattle.std.specs.Prelude.{◌≡◌, ◌↔◌, ◌<◌, IsTrue, true, length, IfOk};
ghost use Rattle.ht_net.specs.declared.fault.Fault.{Fault};
ghost use Rattle.ht_net.specs.Circuit.Netlist.{net_count};
ghost use Rattle.ht_cubes.specs.declared.cone.Reader.TheVariants.{Gate};
ghost use Rattle.ht_cubes.specs.Rails.{IsCone, first_changed};
ghost use Rattle.ht_cubes.specs.Cones.{AreReached, CloseBoth, Closes, HaveGrown, IsReader, IsSwept, ReadsMarked, driven, marked};

use ht_net::{Circuit, Fault, Site};
use std::alloc::{AllocError, Global};

// What reads nets and drives one: a gate or a flip-flop, by its number.
#[derive(Clone, Copy)]
enum Reader {
    Gate(u32),
    Dff(u32),
}

// The net that a stuck line changes first, also where the line isn't there.
fn first_changed(circuit: &Circuit, site: Site) -> u64
    ensures { result ≡ first_changed circuit.now site }
{
    match site {
        Site::Stem(net) => u64::from(net.0),
        Site::DffPin { dff } => u64::from(circuit.inputs()) + u64::from(dff),
        Site::GatePin { gate, pin: _ } => {
            u64::from(circuit.inputs()) + u64::from(circuit.dffs()) + u64::from(gate)
        }
    }
}

// The net that a gate or flip-flop drives.
fn net_of(circuit: &Circuit, reader: Reader) -> usize
    requires { IsReader circuit.now reader }
    ensures net { result ≡ driven circuit.now reader }
    ensures known { result < net_count circuit.now }
{
    match reader {
        Reader::Gate(g) => circuit.gate_net(g).index(),
        Reader::Dff(j) => circuit.dff_net(j).index(),
    }
}

// Whether a gate reads a marked net.
fn gate_reads_marked(circuit: &Circuit, marks: &[bool], g: u32) -> bool
    requires gate { g < length circuit.now.gates }
    requires marks { length marks.now ≡ net_count circuit.now }
    ensures { IsTrue result ↔ ReadsMarked circuit.now marks.now (Gate g) }
{
    prove_eq!(marks.len(), circuit.nets() as usize);
    let args = circuit.gate_args(g);
    for arg in args {
        let mark = marks[arg.index()];
        if mark {
            return true;
        }
    }
    false
}

// Whether a gate or flip-flop reads a marked net.
fn reads_marked(circuit: &Circuit, marks: &[bool], reader: Reader) -> bool
    requires reader { IsReader circuit.now reader }
    requires marks { length marks.now ≡ net_count circuit.now }
    ensures { IsTrue result ↔ ReadsMarked circuit.now marks.now reader }
{
    prove_eq!(marks.len(), circuit.nets() as usize);
    match reader {
        Reader::Gate(g) => gate_reads_marked(circuit, marks, g),
        Reader::Dff(j) => marks[circuit.dff_data(j).index()],
    }
}

// Marks what a gate or flip-flop drives that reads a marked net. Says whether the mark is new.
fn mark(circuit: &Circuit, marks: &mut [bool], reader: Reader) -> bool
    requires reader { IsReader circuit.now reader }
    requires marks { length marks.old ≡ net_count circuit.now }
    ensures grown { HaveGrown circuit.now marks.old marks.new }
    ensures swept { IsSwept (Closes circuit.now reader marks.new) marks.old marks.new result }
{
    let net = net_of(circuit, reader);
    let old = marks[net];
    if old {
        return false;
    }
    let reads = reads_marked(circuit, marks, reader);
    if !reads {
        return false;
    }
    marks[net] = true;
    true
}

// Marks what the gates drive that read a marked net, in the order of the gates, and then what the flip-flops drive.
// Says whether a mark is new.
fn sweep(circuit: &Circuit, marks: &mut [bool]) -> bool
    requires { length marks.old ≡ net_count circuit.now }
    ensures grown { HaveGrown circuit.now marks.old marks.new }
    ensures swept { IsSwept (CloseBoth circuit.now marks.new) marks.old marks.new result }
{
    let order = circuit.order();
    let mut changed = false;
    'gates: for g in order {
        let by_gate = mark(circuit, marks, Reader::Gate(*g));
        if by_gate {
            changed = true;
        }
    }
    'dffs: for j in 0..circuit.dffs() {
        let by_dff = mark(circuit, marks, Reader::Dff(j));
        if by_dff {
            changed = true;
        }
    }
    changed
}

// Marks nets until no mark is new. A sweep of the gates takes them in their order, so there are as many sweeps as the
// effect goes through flip-flops, and one more.
fn close(circuit: &Circuit, marks: &mut [bool])
    requires { length marks.old ≡ net_count circuit.now }
    ensures grown { HaveGrown circuit.now marks.old marks.new }
    ensures closed { CloseBoth circuit.now marks.new }
{
    'rounds: loop {
        let changed = sweep(circuit, marks);
        if !changed {
            return;
        }
    }
}

// The mark of the net that a stuck line changes first.
fn first_mark(alloc: Global, circuit: &Circuit, fault: Fault) -> Result<Vec<bool>, AllocError>
    ensures long { IfOk result (λ marks. length marks.items ≡ net_count circuit.now) }
    ensures first { IfOk result (λ marks. first_changed circuit.now fault.site < net_count circuit.now
        → marked marks.items (first_changed circuit.now fault.site) ≡ true) }
    ensures reached { IfOk result (λ marks. AreReached circuit.now fault marks.items) }
{
    let nets = circuit.nets();
    let mut marks = vec![in alloc; false; nets as usize]?;
    let first = first_changed(circuit, fault.site);
    if first >= u64::from(nets) {
        return Ok(marks);
    }
    marks[first as usize] = true;
    Ok(marks)
}

/// A mark for each net in the cone.
///
/// # Errors
/// Out of memory.
pub(crate) fn cone_of(
    alloc: Global,
    circuit: &Circuit,
    fault: Fault,
) -> Result<Vec<bool>, AllocError>
    ensures long { IfOk result (λ marks. length marks.items ≡ net_count circuit.now) }
    ensures cone { IfOk result (λ marks. IsCone circuit.now fault (marked marks.items)) }
{
    let mut marks = first_mark(alloc, circuit, fault)?;
    close(circuit, &mut marks);
    Ok(marks)
}
