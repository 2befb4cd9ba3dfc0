//! The names of sites and outputs in a report.
ghost use Rattle.std.specs.Prelude.{◌≡◌, ◌<◌, length, OnOk};
ghost use Rattle.ht_net.specs.Circuit.Netlist.{net_count};
ghost use Rattle.ht_texts.specs.Pieces.{add_pieces};
ghost use Rattle.ht_texts.specs.PiecesOf.{pieces_of};
ghost use Rattle.ht_texts.specs.Sites.{IsSite, pin_pieces, site_pieces, output_text};

use crate::piece::{Piece, push_pieces};
use ht_net::{Circuit, NetId, Site};
use std::alloc::AllocError;

// Appends the text of a site.
pub fn push_site(text: &mut Vec<u8>, circuit: &Circuit, site: Site) -> Result<(), AllocError>
    requires { IsSite circuit.now site }
    ensures { OnOk result (text.new.items ≡ add_pieces text.old.items (site_pieces circuit.now site)) }
{
    match site {
        Site::Stem(net) => text.extend_from_slice(circuit.name(net)),
        Site::DffPin { dff } => push_pieces(text, &pin_of(circuit, circuit.dff_net(dff), 1)),
        Site::GatePin { gate, pin } => {
            push_pieces(
                text,
                &pin_of(circuit, circuit.gate_net(gate), u64::from(pin) + 1),
            )
        }
    }
}

// A pin, by the net that its flip-flop or gate drives and its number from 1.
pub fn pin_of(circuit: &Circuit, net: NetId, number: u64) -> [Piece<'_>; 4]
    requires { net.0 < net_count circuit.now }
    ensures { pieces_of result ≡ pin_pieces circuit.now net.0 number }
{
    [
        Piece::Name(circuit.name(net)),
        Piece::Word(b"("),
        Piece::Number(number),
        Piece::Word(b")"),
    ]
}

/// The name of the net of an output.
pub fn output_name(circuit: &Circuit, output: u32) -> &[u8]
    requires { output < length circuit.now.outputs }
    ensures { result.now ≡ output_text circuit.now output }
{
    let net = circuit.output(output);
    prove!(net.0 < circuit.nets());
    circuit.name(net)
}
