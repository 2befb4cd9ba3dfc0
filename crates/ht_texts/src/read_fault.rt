//! The line of one fault in a search's report, read.
ghost use Rattle.std.specs.Prelude.{◌≡◌, ◌<◌, ◌+◌, ◌++◌, codes, length, IsTrue, ◌↔◌};
ghost use Rattle.std.specs.Fmt.{decimal};
ghost use Rattle.ht_net.specs.Circuit.Netlist.{net_count};
ghost use Rattle.ht_faults.specs.Sites.{faults_of};
ghost use Rattle.ht_faults.specs.Classes.{AreClasses};
ghost use Rattle.ht_texts.specs.declared.total.Sums.{Sums};
ghost use Rattle.ht_texts.specs.Fronts.{Strips};
ghost use Rattle.ht_texts.specs.Pieces.{pieces_text};
ghost use Rattle.ht_texts.specs.Sites.{IsSite, pin_pieces, site_pieces};
ghost use Rattle.ht_texts.specs.Reports.{fault_pieces, line_front};
ghost use Rattle.ht_texts.specs.ReportLines.{FindsItem};

use crate::item::Item;
use crate::piece::Piece;
use crate::read_verdict::read_verdict;
use crate::site::pin_of;
use crate::strip::{strip_pieces, strip_word};
use crate::vector::character_of;
use ht_faults::{Classes, FaultList};
use ht_net::{Circuit, Fault, NetId, Site};

// What the line says of fault `i`, or `None` where no report of a search has it there.
pub fn read_fault(
    circuit: &Circuit,
    faults: &FaultList,
    classes: &Classes,
    i: u32,
    line: &[u8],
) -> Option<Item>
    requires faults { faults.now ≡ faults_of circuit.now }
    requires classes { AreClasses circuit.now classes.now }
    requires fault { i < length faults.now }
    ensures { (sums : Sums) → FindsItem circuit.now classes.now (i + 1) sums line.now result }
{
    let rest = strip_fault(Some(line), circuit, faults, i)?;
    let representative = classes.of(i);
    if representative == i {
        let said = read_verdict(circuit, rest)?;
        return Some(Item::Verdict { fault: i, said });
    }
    if is_member(rest, representative) {
        Some(Item::Member { fault: i })
    } else {
        None
    }
}

// Whether the text says that this fault represents another one.
fn is_member(text: &[u8], representative: u32) -> bool
    ensures { IsTrue result ↔ (text.now ≡ codes "as " ++ decimal (representative + 1)) }
{
    let member = [
        Piece::Word(b"as "),
        Piece::Number(u64::from(representative) + 1),
    ];
    let Some(rest) = strip_pieces(Some(text), &member) else {
        return false;
    };
    rest.is_empty()
}

// What follows the number, the site and the value of fault `i`.
fn strip_fault<'t>(
    text: Option<&'t [u8]>,
    circuit: &Circuit,
    faults: &FaultList,
    i: u32,
) -> Option<&'t [u8]>
    requires faults { faults.now ≡ faults_of circuit.now }
    requires fault { i < length faults.now }
    ensures { Strips (pieces_text (line_front circuit.now i)) text.entry result }
{
    let rest = strip_pieces(text, &[Piece::Number(u64::from(i) + 1), Piece::Word(b" ")]);
    let rest = strip_stuck_line(rest, circuit, faults.get(i));
    strip_word(rest, b" ")
}

// What follows the site of a fault and the value that it is stuck at.
fn strip_stuck_line<'t>(text: Option<&'t [u8]>, circuit: &Circuit, fault: Fault) -> Option<&'t [u8]>
    requires { IsSite circuit.now fault.site }
    ensures { Strips (pieces_text (fault_pieces circuit.now fault)) text.entry result }
{
    let rest = strip_site(text, circuit, fault.site);
    let value = [character_of(fault.value)];
    strip_pieces(rest, &[Piece::Word(b" s-a-"), Piece::Word(&value)])
}

// What follows a site.
fn strip_site<'t>(text: Option<&'t [u8]>, circuit: &Circuit, site: Site) -> Option<&'t [u8]>
    requires { IsSite circuit.now site }
    ensures { Strips (pieces_text (site_pieces circuit.now site)) text.entry result }
{
    match site {
        Site::Stem(net) => strip_word(text, circuit.name(net)),
        Site::DffPin { dff } => strip_pin(text, circuit, circuit.dff_net(dff), 1),
        Site::GatePin { gate, pin } => {
            strip_pin(text, circuit, circuit.gate_net(gate), u64::from(pin) + 1)
        }
    }
}

// What follows a pin, which is named by the net that its flip-flop or gate drives and its number from 1.
fn strip_pin<'t>(
    text: Option<&'t [u8]>,
    circuit: &Circuit,
    net: NetId,
    number: u64,
) -> Option<&'t [u8]>
    requires { net.0 < net_count circuit.now }
    ensures { Strips (pieces_text (pin_pieces circuit.now net.0 number)) text.entry result }
{
    strip_pieces(text, &pin_of(circuit, net, number))
}
