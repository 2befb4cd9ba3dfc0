//! What one line states.
use ht_tern::Kind;

/// What one line of a netlist states: nothing, an input, an output, a flip-flop by its net and the net at its data pin,
/// or a gate by its net, its kind and its arguments. The names are those of the line.
#[derive(Drop)]
pub enum Statement<'a> {
    Nothing,
    Input(&'a [u8]),
    Output(&'a [u8]),
    Dff {
        out: &'a [u8],
        data_pin: &'a [u8],
    },
    Gate {
        out: &'a [u8],
        kind: Kind,
        args: Vec<&'a [u8]>,
    },
}
