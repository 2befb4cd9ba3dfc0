//! The state in which a list leaves the good machine.
ghost use Rattle.std.specs.Prelude.{◌≡◌, None, IfOk, length, map};
ghost use Rattle.ht_net.specs.Detect.Detection.{terns_of, unknown_state};
ghost use Rattle.ht_net.specs.Frames.Faults.{tern_rules};
ghost use Rattle.ht_tree.specs.Window.WalkBack.{wants_one};
ghost use Rattle.ht_serial.specs.MachineState.{after_run, started};
ghost use Rattle.ht_sync.specs.Synchronizing.{Synchronizes, SynchronizesTo};

use ht_items::Items;
use ht_net::{Circuit, Vectors};
use ht_serial::Machine;
use ht_tern::Tern;
use std::alloc::{AllocError, Global};

// Whether a value is 1.
fn is_one(value: Tern) -> bool
    ensures { result ≡ wants_one value }
{
    matches!(value, Tern::One)
}

// The bits of what a machine's flip-flops hold: 1 where they hold 1.
fn bits_of(alloc: Global, machine: &Machine, count: u32) -> Result<Vec<bool>, AllocError>
    requires count { count ≡ length machine.now.circuit.dffs }
    requires latches { count ≡ length machine.now.latches }
    ensures { IfOk result (λ bits. bits.items ≡ map wants_one machine.now.latches) }
{
    let mut bits = Vec::new(alloc);
    for j in 0..count {
        bits.push(is_one(machine.state(j)))?;
    }
    Ok(bits)
}

// Runs a machine over a list.
fn run_over(machine: &mut Machine, circuit: &Circuit, list: &Vectors)
    requires width { list.now.width ≡ circuit.now.inputs }
    requires start { machine.old
        ≡ started tern_rules circuit.now None (unknown_state circuit.now) }
    ensures { machine.new ≡ after_run tern_rules circuit.now None (unknown_state circuit.now)
        (map terns_of list.now.list) }
{
    for t in 0..list.len() {
        machine.step(list.get(t));
    }
}

/// The state of bits to which a list synchronizes.
///
/// # Errors
/// Out of memory.
pub fn end_state(
    alloc: Global,
    circuit: &Circuit,
    list: &Vectors,
) -> Result<Items<bool>, AllocError>
    requires width { list.now.width ≡ circuit.now.inputs }
    requires synchronizes { Synchronizes circuit.now list.now.list }
    ensures { IfOk result (SynchronizesTo circuit.now list.now.list) }
{
    let mut machine = Machine::start(alloc, circuit, None)?;
    run_over(&mut machine, circuit, list);
    let bits = bits_of(alloc, &machine, circuit.dffs())?;
    Ok(Items::from_vec(bits))
}
