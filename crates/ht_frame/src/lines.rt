//! What stems and pins make of the values that they carry.
ghost use Rattle.std.specs.Prelude.{◌≡◌, Option};
ghost use Rattle.ht_net.specs.Frames.Faults.{rules_of};
ghost use Rattle.ht_frame.specs.StuckPins.{is_at_gate};

use crate::domain::Domain;
use ht_net::{Fault, NetId, Site};

/// What the stem of a net makes of a value: the stuck value where the fault is there, else the value itself.
#[tactic(auto, unfolding(ht_net::specs::Frames::Faults::forced))]
pub fn stem<V: Domain>(fault: Option<Fault>, net: u32, value: V) -> V
    ensures { result ≡ (rules_of V.blank V.gate V.stick fault).stem net value }
{
    match fault {
        Some(fault) if fault.site == Site::Stem(NetId(net)) => value.stick(fault.value),
        _ => value,
    }
}

/// What a pin of a gate makes of a value. Gates and their pins count from 0.
#[tactic(auto, unfolding(ht_net::specs::Frames::Faults::forced))]
pub fn gate_pin<V: Domain>(fault: Option<Fault>, gate: u32, pin: u8, value: V) -> V
    ensures { result ≡ (rules_of V.blank V.gate V.stick fault).pin gate pin value }
{
    match fault {
        Some(fault) if fault.site == Site::GatePin { gate, pin } => value.stick(fault.value),
        _ => value,
    }
}

/// Whether there is a fault, and it is at a pin of a gate. Gates count from 0.
pub(crate) fn is_at_gate(fault: Option<Fault>, gate: u32) -> bool
    ensures { result ≡ is_at_gate fault gate }
{
    match fault {
        Some(fault) => matches!(fault.site, Site::GatePin { gate: g, pin: _ } if g == gate),
        None => false,
    }
}

/// What the data pin of a flip-flop makes of a value. Flip-flops count from 0.
#[tactic(auto, unfolding(ht_net::specs::Frames::Faults::forced))]
pub fn data_pin<V: Domain>(fault: Option<Fault>, dff: u32, value: V) -> V
    ensures { result ≡ (rules_of V.blank V.gate V.stick fault).data_pin dff value }
{
    match fault {
        Some(fault) if fault.site == (Site::DffPin { dff }) => value.stick(fault.value),
        _ => value,
    }
}
