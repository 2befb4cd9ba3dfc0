//! The text of a statement: the line that a writer gives for it.
ghost use Rattle.std.specs.Prelude.{◌≡◌, ◌<◌, ◌++◌, map, codes, All, OnOk};
ghost use Rattle.ht_net.specs.declared.net.NetId.{NetId};
ghost use Rattle.ht_net.specs.Circuit.Netlist.{net_count};
ghost use Rattle.ht_net.specs.Build.Named.{name_of};
ghost use Rattle.ht_statement.specs.Statement.{input_line, output_line, dff_line, gate_line};
ghost use Rattle.ht_statement.specs.StatementText.{kind_text, arguments_text, statement_line};

use ht_net::{Circuit, NetId};
use ht_tern::Kind;
use std::alloc::AllocError;

/// Appends the line of an input, as `INPUT(a)`, with its LF.
///
/// # Errors
/// Out of memory; the text may have a front of the line then.
pub fn push_input(text: &mut Vec<u8>, name: &[u8]) -> Result<(), AllocError>
    ensures { OnOk result
        (text.new.items ≡ text.old.items ++ statement_line (input_line name.now)) }
{
    push_port(text, b"INPUT(", name)
}

/// Appends the line of an output, as `OUTPUT(z)`, with its LF.
///
/// # Errors
/// Out of memory; the text may have a front of the line then.
pub fn push_output(text: &mut Vec<u8>, name: &[u8]) -> Result<(), AllocError>
    ensures { OnOk result
        (text.new.items ≡ text.old.items ++ statement_line (output_line name.now)) }
{
    push_port(text, b"OUTPUT(", name)
}

/// Appends the line of a flip-flop by its net and the net at its data pin, as `q = DFF(t)`, with its LF.
///
/// # Errors
/// Out of memory; the text may have a front of the line then.
pub fn push_dff(text: &mut Vec<u8>, out: &[u8], data_pin: &[u8]) -> Result<(), AllocError>
    ensures { OnOk result
        (text.new.items ≡ text.old.items ++ statement_line (dff_line out.now data_pin.now)) }
{
    push_definition(text, out, b"DFF")?;
    text.extend_from_slice(data_pin)?;
    push_end(text)
}

/// Appends the line of a gate by the name of its net, its kind and the nets of its arguments, as `t = NAND(en, q)`,
/// with its LF.
///
/// # Errors
/// Out of memory; the text may have a front of the line then.
pub fn push_gate(
    text: &mut Vec<u8>,
    circuit: &Circuit,
    out: &[u8],
    kind: Kind,
    args: &[NetId],
) -> Result<(), AllocError>
    requires { All (λ (net : NetId). net.0 < net_count circuit.now) args.now }
    ensures { OnOk result
        (text.new.items ≡ text.old.items
        ++ statement_line (gate_line out.now kind (map (name_of circuit.now) args.now))) }
{
    push_definition(text, out, kind_text(kind))?;
    push_arguments(text, circuit, args)?;
    push_end(text)
}

// Appends the line of an input or an output, by its keyword with `(`.
fn push_port(text: &mut Vec<u8>, opening: &[u8], name: &[u8]) -> Result<(), AllocError>
    ensures { OnOk result
        (text.new.items ≡ text.old.items ++ (opening.now ++ name.now ++ codes ")\n")) }
{
    text.extend_from_slice(opening)?;
    text.extend_from_slice(name)?;
    push_end(text)
}

// Appends a definition up to its arguments, by the name of its net and the word of its kind.
fn push_definition(text: &mut Vec<u8>, out: &[u8], word: &[u8]) -> Result<(), AllocError>
    ensures { OnOk result
        (text.new.items ≡ text.old.items ++ (out.now ++ codes " = " ++ word.now ++ codes "(")) }
{
    text.extend_from_slice(out)?;
    text.extend_from_slice(b" = ")?;
    text.extend_from_slice(word)?;
    text.extend_from_slice(b"(")
}

// Appends the end of a line.
fn push_end(text: &mut Vec<u8>) -> Result<(), AllocError>
    ensures { OnOk result (text.new.items ≡ text.old.items ++ codes ")\n") }
{
    text.extend_from_slice(b")\n")
}

// Appends what stands between two arguments.
fn push_separator(text: &mut Vec<u8>) -> Result<(), AllocError>
    ensures { OnOk result (text.new.items ≡ text.old.items ++ codes ", ") }
{
    text.extend_from_slice(b", ")
}

// Appends the names of nets, with a comma and a blank between two.
fn push_arguments(text: &mut Vec<u8>, circuit: &Circuit, args: &[NetId]) -> Result<(), AllocError>
    requires { All (λ (net : NetId). net.0 < net_count circuit.now) args.now }
    ensures { OnOk result
        (text.new.items ≡ text.old.items ++ arguments_text (map (name_of circuit.now) args.now)) }
{
    for (place, net) in args.iter().enumerate() {
        if place > 0 {
            push_separator(text)?;
        }
        text.extend_from_slice(circuit.name(*net))?;
    }
    Ok(())
}

/// The word of a kind of gate, in capitals: BUFF and not BUF.
pub fn kind_text(kind: Kind) -> &'static [u8]
    ensures { result.now ≡ kind_text kind }
{
    match kind {
        Kind::And => b"AND",
        Kind::Nand => b"NAND",
        Kind::Or => b"OR",
        Kind::Nor => b"NOR",
        Kind::Xor => b"XOR",
        Kind::Xnor => b"XNOR",
        Kind::Not => b"NOT",
        Kind::Buf => b"BUFF",
    }
}
