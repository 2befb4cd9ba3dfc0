//! When a builder refuses a driver.
ghost use Rattle.std.specs.Prelude.{◌≡◌, ◌≤◌, ◌+◌, IfErr, IfOk, OnOk};
ghost use Rattle.ht_net.specs.Build.Draft.{IsName, draft_pins};
ghost use Rattle.ht_net.specs.Circuit.Netlist.{max_arguments};
ghost use Rattle.ht_net.specs.Build.Refusals.{RefusesInput, AcceptsInput, RefusesDff, AcceptsDff, RefusesGate, AcceptsGate};

use super::Builder;
use crate::{Limit, NameId, NetError};

const MAX_INPUTS: usize = 4_096;

const MAX_DFFS: usize = 16_384;

const MAX_PINS: usize = 262_144;

impl Builder {
    /// Whether an input may be added.
    pub(super) fn check_input(&self, name: NameId) -> Result<(), NetError>
        requires { IsName self.now name }
        ensures accepts { OnOk result (AcceptsInput self.now name) }
        ensures refusal { IfErr result (RefusesInput self.now name) }
    {
        if self.driven(name) {
            return Err(NetError::Twice { name });
        }
        if self.inputs.len() == MAX_INPUTS {
            return Err(NetError::TooMany {
                what: Limit::Inputs,
            });
        }
        Ok(())
    }

    /// Whether a flip-flop may be added.
    pub(super) fn check_dff(&self, out: NameId) -> Result<(), NetError>
        requires { IsName self.now out }
        ensures accepts { OnOk result (AcceptsDff self.now out) }
        ensures refusal { IfErr result (RefusesDff self.now out) }
    {
        if self.driven(out) {
            return Err(NetError::Twice { name: out });
        }
        if self.pins == MAX_PINS {
            return Err(NetError::TooMany { what: Limit::Pins });
        }
        if self.dffs.len() == MAX_DFFS {
            return Err(NetError::TooMany { what: Limit::Dffs });
        }
        Ok(())
    }

    /// Whether a gate with so many arguments may be added, and how many pins there are with its own.
    pub(super) fn check_gate(&self, out: NameId, arity: usize) -> Result<usize, NetError>
        requires out { IsName self.now out }
        requires few { arity ≤ max_arguments }
        ensures accepts { OnOk result (AcceptsGate self.now out arity) }
        ensures pins { IfOk result (λ pins. pins ≡ draft_pins self.now + arity) }
        ensures refusal { IfErr result (RefusesGate self.now out arity) }
    {
        if self.driven(out) {
            return Err(NetError::Twice { name: out });
        }
        let pins = self.pins + arity;
        if pins > MAX_PINS {
            return Err(NetError::TooMany { what: Limit::Pins });
        }
        Ok(pins)
    }
}
