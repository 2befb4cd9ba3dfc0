//! How many nets there are, and their names.
ghost use Rattle.std.specs.Prelude.{◌≡◌, ◌++◌, OnOk};
ghost use Rattle.std.specs.Fmt.{decimal};
ghost use Rattle.ht_demo.specs.Counts.{max_demo_size, dff_count, first_gate, demo_name};

use itoa::Buffer;
use std::alloc::AllocError;

/// The most gates that may be asked for.
pub const MAX_DEMO_SIZE: u32 = 20_000;

pub const INPUTS: u32 = 16;

/// How many flip-flops there are.
pub fn dff_count(size: u32) -> u32
    ensures { result ≡ dff_count size }
{
    size / 16 + 1
}

/// The number of the first gate's net.
pub fn first_gate(size: u32) -> u32
    ensures { result ≡ first_gate size }
{
    INPUTS + dff_count(size)
}

/// Appends the name of a net.
pub fn push_name(text: &mut Vec<u8>, size: u32, net: u32) -> Result<(), AllocError>
    ensures { OnOk result (text.new.items ≡ text.old.items ++ demo_name size net) }
{
    let first_gate = first_gate(size);
    if net < INPUTS {
        push_numbered(text, b"i", net)
    } else if net < first_gate {
        push_numbered(text, b"f", net - INPUTS)
    } else {
        push_numbered(text, b"g", net - first_gate)
    }
}

// Appends a letter and a number.
fn push_numbered(text: &mut Vec<u8>, letter: &[u8], number: u32) -> Result<(), AllocError>
    ensures { OnOk result (text.new.items ≡ text.old.items ++ (letter.now ++ decimal number)) }
{
    let mut buffer = Buffer::new();
    text.extend_from_slice(letter)?;
    text.extend_from_slice(buffer.format(number).as_bytes())
}
