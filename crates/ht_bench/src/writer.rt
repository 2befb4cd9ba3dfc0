//! The writer of normal text.
ghost use Rattle.std.specs.Prelude.{◌≡◌, ◌++◌, IfOk, OnOk};
ghost use Rattle.ht_net.specs.Build.Named.{named_of};
ghost use Rattle.ht_bench.specs.Normal.{input_lines, output_lines, dff_lines, gate_lines, normal_text};

use ht_net::{Circuit, NetId};
use ht_statement::{push_dff, push_gate, push_input, push_output};
use std::alloc::{AllocError, Global};

/// The normal text of a circuit (ISCAS-89 format): INPUT lines by input, OUTPUT lines by output, flip-flop lines by
/// flip-flop and gate lines by gate, each with its LF, and nothing else. Names are written as the circuit has them.
///
/// # Errors
/// Out of memory.
pub fn write(alloc: Global, circuit: &Circuit) -> Result<Vec<u8>, AllocError>
    ensures { IfOk result (λ text. text.items ≡ normal_text circuit.now) }
{
    let mut text = Vec::new(alloc);
    push_inputs(&mut text, circuit)?;
    push_outputs(&mut text, circuit)?;
    push_dffs(&mut text, circuit)?;
    push_gates(&mut text, circuit)?;
    Ok(text)
}

/// Appends the lines of the inputs.
fn push_inputs(text: &mut Vec<u8>, circuit: &Circuit) -> Result<(), AllocError>
    ensures { OnOk result (text.new.items ≡ text.old.items ++ input_lines (named_of circuit.now)) }
{
    let nets = circuit.nets();
    for input in 0..circuit.inputs() {
        prove!(input < nets);
        push_input(text, circuit.name(NetId(input)))?;
    }
    Ok(())
}

/// Appends the lines of the outputs.
fn push_outputs(text: &mut Vec<u8>, circuit: &Circuit) -> Result<(), AllocError>
    ensures { OnOk result (text.new.items ≡ text.old.items ++ output_lines (named_of circuit.now)) }
{
    let nets = circuit.nets();
    for output in 0..circuit.outputs() {
        let net = circuit.output(output);
        prove!(net.0 < nets);
        push_output(text, circuit.name(net))?;
    }
    Ok(())
}

/// Appends the lines of the flip-flops.
fn push_dffs(text: &mut Vec<u8>, circuit: &Circuit) -> Result<(), AllocError>
    ensures { OnOk result (text.new.items ≡ text.old.items ++ dff_lines (named_of circuit.now)) }
{
    let nets = circuit.nets();
    for dff in 0..circuit.dffs() {
        let out = circuit.dff_net(dff);
        let data_pin = circuit.dff_data(dff);
        prove!(data_pin.0 < nets);
        push_dff(text, circuit.name(out), circuit.name(data_pin))?;
    }
    Ok(())
}

/// Appends the lines of the gates.
fn push_gates(text: &mut Vec<u8>, circuit: &Circuit) -> Result<(), AllocError>
    ensures { OnOk result (text.new.items ≡ text.old.items ++ gate_lines (named_of circuit.now)) }
{
    for gate in 0..circuit.gates() {
        let out = circuit.gate_net(gate);
        let args = circuit.gate_args(gate);
        push_gate(
            text,
            circuit,
            circuit.name(out),
            circuit.gate_kind(gate),
            args,
        )?;
    }
    Ok(())
}
