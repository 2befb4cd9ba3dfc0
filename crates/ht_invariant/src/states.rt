//! The states of some frames of the good machine, and whether a clause holds at each.
ghost use Rattle.std.specs.Prelude.{◌≡◌, ◌++◌, ◌∷◌, [], None, false, length, get_or, IfOk, OnOk};
ghost use Rattle.ht_net.specs.Frames.Frame.{next_state};
ghost use Rattle.ht_net.specs.Frames.Faults.{bool_rules};
ghost use Rattle.ht_random.specs.RandomVectors.{random_vector};
ghost use Rattle.ht_random.specs.Words.{after_words};
ghost use Rattle.ht_serial.specs.MachineState.{started, stepped};
ghost use Rattle.ht_tree.specs.Clause.Clauses.{literals_of, meets, meets_literal};
ghost use Rattle.ht_invariant.specs.FoundClauses.{is_met_by_each, tried_states};

use ht_items::FlatRows;
use ht_net::Circuit;
use ht_random::Words;
use ht_serial::BoolMachine;
use ht_tree::{Clause, Literal};
use std::alloc::{AllocError, Global};

/// So many frames are tried from the named state.
pub const TRIED_FRAMES: u32 = 64;

// The bit of a latch.
fn bit_at(state: &[bool], j: u32) -> bool
    ensures { result ≡ get_or state.now j false }
{
    match state.get(j as usize) {
        Some(bit) => *bit,
        None => false,
    }
}

// A latch is as a literal says.
fn meets_literal(state: &[bool], literal: Literal) -> bool
    ensures { result ≡ meets_literal state.now literal }
{
    if literal.value {
        bit_at(state, literal.dff)
    } else {
        !bit_at(state, literal.dff)
    }
}

// A state meets a clause: one of its literals' latches has its bit.
fn meets(state: &[bool], clause: &Clause) -> bool
    ensures { result ≡ meets state.now (literals_of clause.now) }
{
    let first = meets_literal(state, clause.first);
    match clause.second {
        None => first,
        Some(second) => first || meets_literal(state, second),
    }
}

/// Each state meets a clause.
pub fn all_meet(states: &FlatRows<bool>, clause: &Clause) -> bool
    ensures { result ≡ is_met_by_each states.now clause.now }
{
    for k in 0..states.len() {
        if !meets(states.row(k), clause) {
            return false;
        }
    }
    true
}

// The latches of a machine.
fn latches(alloc: Global, machine: &BoolMachine, count: u32) -> Result<Vec<bool>, AllocError>
    requires count { count ≡ length machine.now.circuit.dffs }
    requires latches { length machine.now.latches ≡ count }
    ensures { IfOk result (λ latches. latches.items ≡ machine.now.latches) }
{
    let mut latches = Vec::new(alloc);
    for j in 0..count {
        latches.push(machine.state(j))?;
    }
    Ok(latches)
}

// Adds what the latches of a machine hold, of which there are so many, to some states.
fn push_latches(
    alloc: Global,
    machine: &BoolMachine,
    count: u32,
    states: &mut FlatRows<bool>,
) -> Result<(), AllocError>
    requires count { count ≡ length machine.now.circuit.dffs }
    requires latches { length machine.now.latches ≡ count }
    ensures { OnOk result (states.new ≡ states.old ++ machine.now.latches ∷ []) }
{
    let row = latches(alloc, machine, count)?;
    states.push(&row)
}

// Runs one frame of a machine, which has so many inputs, under the random vector that comes next.
fn run_frame(
    alloc: Global,
    machine: &mut BoolMachine,
    inputs: u32,
    words: &mut Words,
) -> Result<(), AllocError>
    requires { inputs ≡ machine.old.circuit.inputs }
    ensures machine { OnOk result (machine.new
        ≡ stepped bool_rules machine.old (random_vector inputs words.old)) }
    ensures words { OnOk result (words.new ≡ after_words inputs words.old) }
{
    let vector = words.vector(alloc, inputs)?;
    machine.step(&vector);
    Ok(())
}

// The state from which a machine starts, and the ones after 1, 2, .. frames under the random vectors of seed 0.
fn run_states(
    alloc: Global,
    circuit: &Circuit,
    machine: &mut BoolMachine,
    state: &[bool],
) -> Result<FlatRows<bool>, AllocError>
    requires state { length state.now ≡ length circuit.now.dffs }
    requires start { machine.old ≡ started bool_rules circuit.now None state.now }
    ensures { IfOk result (λ states. states ≡ tried_states circuit.now state.now) }
{
    let mut states = FlatRows::new(alloc);
    let mut words = Words::from_seed(0);
    states.push(state)?;
    'frame: for _frame in 0..TRIED_FRAMES {
        run_frame(alloc, machine, circuit.inputs(), &mut words)?;
        push_latches(alloc, machine, circuit.dffs(), &mut states)?;
    }
    Ok(states)
}

/// The state, and the ones after 1, 2, .. frames under the random vectors of seed 0.
///
/// # Errors
/// Out of memory.
pub fn tried_states(
    alloc: Global,
    circuit: &Circuit,
    state: &[bool],
) -> Result<FlatRows<bool>, AllocError>
    requires { length state.now ≡ length circuit.now.dffs }
    ensures { IfOk result (λ states. states ≡ tried_states circuit.now state.now) }
{
    let mut machine = BoolMachine::start_from(alloc, circuit, None, state)?;
    let states = run_states(alloc, circuit, &mut machine, state);
    // for the proof: dropped by name
    drop(machine);
    states
}
