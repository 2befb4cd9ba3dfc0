//! Where the effects of one net end.
ghost use Rattle.std.specs.Prelude.{◌≡◌, ◌<◌, length, get_or};
ghost use Rattle.ht_stems.specs.NetEnds.{end_at, no_ends};

use crate::Arrival;
use ht_net::NetId;
use ht_tern::Tern;

/// Where the effect of a net ends that is forced to a value, for each value.
#[derive(Clone, Copy)]
pub struct NetEnds {
    pub zero: Arrival,
    pub one: Arrival,
    pub unknown: Arrival,
}

impl NetEnds {
    /// Where it ends for a value.
    pub fn at(&self, value: Tern) -> Arrival
        ensures { result ≡ end_at self.now value }
    {
        match value {
            Tern::Zero => self.zero,
            Tern::One => self.one,
            Tern::Unk => self.unknown,
        }
    }
}

/// Where the effect of a net ends by a table.
pub fn end_in(table: &[NetEnds], net: NetId, value: Tern) -> Arrival
    requires { net.0 < length table.now }
    ensures { result ≡ end_at (get_or table.now net.0 no_ends) value }
{
    table[net.index()].at(value)
}
