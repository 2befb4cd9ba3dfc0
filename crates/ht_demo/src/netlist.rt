//! The text of the netlist.
ghost use Rattle.std.specs.Prelude.{◌≡◌, ◌≤◌, ◌++◌, IfOk, OnOk};
ghost use Rattle.ht_bench.specs.Normal.{normal_text};
ghost use Rattle.ht_random.specs.Words.{generator_of};
ghost use Rattle.ht_demo.specs.Counts.{max_demo_size, dff_count};
ghost use Rattle.ht_demo.specs.Draws.{after_gates};
ghost use Rattle.ht_demo.specs.Demo.{demo_netlist};
ghost use Rattle.ht_demo.specs.DemoText.{demo_dff_lines, demo_gate_lines};

use crate::gates::gate_lines;
use crate::lines::{dff_lines, input_lines, output_lines};
use crate::outputs::draw_outputs;
use ht_net::NetId;
use ht_random::Words;
use std::alloc::{AllocError, Global};

/// The normal text of the demonstration netlist of a size, which is its number of gates, and a seed.
///
/// # Errors
/// Out of memory.
pub fn netlist_text(alloc: Global, size: u32, seed: u64) -> Result<Vec<u8>, AllocError>
    requires some { 1 ≤ size }
    requires few { size ≤ max_demo_size }
    ensures { IfOk result (λ text. text.items ≡ normal_text (demo_netlist size seed)) }
{
    let drawn = draw(alloc, size, seed)?;
    let mut text = input_lines(alloc, size)?;
    let outputs = output_lines(alloc, size, &drawn.outputs)?;
    push_parts(&mut text, &outputs, &drawn.dffs, &drawn.gates)?;
    Ok(text)
}

// What is drawn: the lines of the gates and of the flip-flops, and the nets of the outputs.
#[derive(Drop)]
struct Drawn {
    gates: Vec<u8>,
    dffs: Vec<u8>,
    outputs: Vec<NetId>,
}

// Draws by the words of a seed: first the gates, then the data pins, then the outputs.
fn draw(alloc: Global, size: u32, seed: u64) -> Result<Drawn, AllocError>
    requires some { 1 ≤ size }
    requires few { size ≤ max_demo_size }
    ensures gates { IfOk result
        (λ drawn. drawn.gates.items ≡ demo_gate_lines size (generator_of seed) size) }
    ensures dffs { let after_gates = after_gates size (generator_of seed) in IfOk result
        (λ drawn. drawn.dffs.items ≡ demo_dff_lines size after_gates (dff_count size)) }
    ensures outputs { IfOk result
        (λ drawn. drawn.outputs.items ≡ (demo_netlist size seed).outputs) }
{
    let mut words = Words::from_seed(seed);
    let gates = gate_lines(alloc, size, &mut words)?;
    let dffs = dff_lines(alloc, size, &mut words)?;
    let outputs = draw_outputs(alloc, size, &mut words)?;
    Ok(Drawn {
        gates,
        dffs,
        outputs,
    })
}

// Appends the lines of the outputs, the flip-flops and the gates.
fn push_parts(
    text: &mut Vec<u8>,
    outputs: &[u8],
    dffs: &[u8],
    gates: &[u8],
) -> Result<(), AllocError>
    ensures { OnOk result
        (text.new.items ≡ text.old.items ++ outputs.now ++ dffs.now ++ gates.now) }
{
    text.extend_from_slice(outputs)?;
    text.extend_from_slice(dffs)?;
    text.extend_from_slice(gates)
}
