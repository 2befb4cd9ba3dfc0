//! What a definition's kind names.
ghost use Rattle.std.specs.Prelude.{◌≡◌, option_map};
ghost use Rattle.ht_statement.specs.Element.{element_named, has_count};
ghost use Rattle.ht_statement.specs.ElementOf.{element_of};

use ht_tern::Kind;

/// A flip-flop, or a gate of a kind.
#[derive(Clone, Copy)]
pub(crate) enum Element {
    FlipFlop,
    Gate(Kind),
}

/// What a word names, in any letter case (ISCAS-89 format): BUF and BUFF are the same.
pub(crate) fn element_named(word: &[u8]) -> Option<Element>
    ensures { option_map element_of result ≡ element_named word.now }
{
    match word {
        _ if word.eq_ignore_ascii_case(b"AND") => Some(Element::Gate(Kind::And)),
        _ if word.eq_ignore_ascii_case(b"NAND") => Some(Element::Gate(Kind::Nand)),
        _ if word.eq_ignore_ascii_case(b"OR") => Some(Element::Gate(Kind::Or)),
        _ if word.eq_ignore_ascii_case(b"NOR") => Some(Element::Gate(Kind::Nor)),
        _ if word.eq_ignore_ascii_case(b"XOR") => Some(Element::Gate(Kind::Xor)),
        _ if word.eq_ignore_ascii_case(b"XNOR") => Some(Element::Gate(Kind::Xnor)),
        _ if word.eq_ignore_ascii_case(b"NOT") => Some(Element::Gate(Kind::Not)),
        _ if word.eq_ignore_ascii_case(b"BUFF") => Some(Element::Gate(Kind::Buf)),
        _ if word.eq_ignore_ascii_case(b"BUF") => Some(Element::Gate(Kind::Buf)),
        _ if word.eq_ignore_ascii_case(b"DFF") => Some(Element::FlipFlop),
        _ => None,
    }
}

/// The most arguments that a gate may have.
const MAX_ARGUMENTS: usize = 255;

/// Whether an element may have this number of arguments: one for DFF, NOT and BUFF, else 1 to 255.
pub(crate) fn has_count(element: Element, count: usize) -> bool
    ensures { result ≡ has_count (element_of element) count }
{
    match element {
        Element::FlipFlop => count == 1,
        Element::Gate(kind) => kind.has_arity(count) && count <= MAX_ARGUMENTS,
    }
}
