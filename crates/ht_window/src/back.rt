//! The walk back from a net to an undecided variable.
ghost use Rattle.std.specs.Prelude.{◌≡◌, ◌<◌, ◌≤◌, ◌+◌, ℕ, true, length};
ghost use Rattle.ht_net.specs.Circuit.Netlist.{first_gate_net, gate_at, net_count};
ghost use Rattle.ht_tree.specs.Window.Windows.{cell_at, pair_set_rules};
ghost use Rattle.ht_tree.specs.Window.Variables.{IsLegalChoice};
ghost use Rattle.ht_tree.specs.Window.WalkBack.{choice_at, end_in_frame, latch_choice, undetermined_argument, bit_before, walk_back};
ghost use Rattle.ht_tree.specs.Walk.Walks.{decides};
ghost use Rattle.ht_window.specs.Matters.{is_relevant};
ghost use Rattle.ht_window.specs.WantedOf.{wanted_of};

use crate::start::Start;
use crate::window::Window;
use ht_frame::gate_pin;
use ht_net::NetId;
use ht_tern::Kind;
use ht_tree::Choice;

/// A net, and the bit that is wanted there.
#[derive(Clone, Copy)]
pub struct Wanted {
    net: u32,
    bit: bool,
}

/// The bit that is wanted at the arguments of a gate: the other one where its kind gives the complement.
fn bit_before(kind: Kind, bit: bool) -> bool
    ensures { result ≡ bit_before kind bit }
{
    if kind.inverts() { !bit } else { bit }
}

impl<'c> Window<'c> {
    /// The first argument of a gate whose set at the pin has two or more members.
    fn undetermined_argument(&self, frame: u32, g: u32) -> u32
        requires frame { frame < self.now.window.frames }
        requires gate { g < length self.now.window.circuit.gates }
        requires matters { is_relevant self.now.relevant frame
            (first_gate_net self.now.window.circuit + g) ≡ true }
        ensures { result ≡ undetermined_argument (pair_set_rules self.now.window.fault) g
            (cell_at self.now.window self.now.decisions frame) 0
            (gate_at self.now.window.circuit g).args }
    {
        // for the proof: what the gate reads matters too
        self.relevance();
        let fault = self.fault();
        let args = self.circuit().gate_args(g);
        for (i, arg) in args.iter().enumerate() {
            let set = gate_pin(fault, g, i as u8, self.cell(frame, *arg));
            if !set.is_single() {
                return arg.0;
            }
        }
        0
    }

    /// Where the walk back ends within a frame.
    fn end_in_frame(&self, frame: u32, at: Wanted) -> Wanted
        requires frame { frame < self.now.window.frames }
        requires net { at.net < net_count self.now.window.circuit }
        requires matters { is_relevant self.now.relevant frame at.net ≡ true }
        requires undetermined { 1 < length
            (cell_at self.now.window self.now.decisions frame at.net) }
        ensures matters { is_relevant self.now.relevant frame result.net ≡ true }
        ensures end { wanted_of result ≡ end_in_frame self.now.window self.now.decisions frame
            (wanted_of at) }
    {
        // for the proof: what the gates read matters too
        self.relevance();
        let circuit = self.circuit();
        let first_gate_net = circuit.inputs() + circuit.dffs();
        let mut net = at.net;
        let mut bit = at.bit;
        let mut left = circuit.gates();
        while left > 0 && net >= first_gate_net {
            let g = net - first_gate_net;
            bit = bit_before(circuit.gate_kind(g), bit);
            net = self.undetermined_argument(frame, g);
            left -= 1;
        }
        Wanted { net, bit }
    }

    /// The choice at a latch of the first frame: its good half before its faulty one.
    fn latch_choice(&self, at: Wanted) -> Choice
        requires { at.net < first_gate_net self.now.window.circuit }
        ensures { result ≡ latch_choice self.now.window self.now.decisions self.now.window.start
            (wanted_of at) }
    {
        // for the proof: the window is well formed
        let _ = self.circuit();
        match self.start() {
            Start::OneFrame { z: _ } => {
                let var = if self.is_decided(at.net) {
                    at.net + self.dffs()
                } else {
                    at.net
                };
                Choice::Two { var, first: at.bit }
            },
            Start::Unknown | Start::Pair { state: _ } => Choice::Two {
                var: at.net,
                first: at.bit,
            },
            Start::Back { cube: _, limit: _ } => Choice::Three { var: at.net },
        }
    }

    /// The walk back from a net that is undetermined in a frame, with a wanted bit, to a variable that is legal and
    /// undecided.
    // The backtrace of Goel's PODEM, which goes on through the flip-flops into the frames before. A gate whose set has
    // two members or more has an argument whose set has, so each step finds one and no step is taken back.
    pub fn walk_back(&self, frame: u32, net: NetId, wanted: bool) -> Choice
        requires frame { frame < self.now.window.frames }
        requires net { net.0 < net_count self.now.window.circuit }
        requires matters { is_relevant self.now.relevant frame net.0 ≡ true }
        requires undetermined { 1 < length
            (cell_at self.now.window self.now.decisions frame net.0) }
        ensures choice { result ≡ walk_back self.now.window self.now.decisions frame net.0 wanted }
        ensures legal { IsLegalChoice self.now.window self.now.decisions result }
    {
        // for the proof: what the flip-flops read matters too
        self.relevance();
        let circuit = self.circuit();
        let inputs = circuit.inputs();
        let mut frame = frame;
        let mut at = self.end_in_frame(
            frame,
            Wanted {
                net: net.0,
                bit: wanted,
            },
        );
        while frame > 0 && at.net >= inputs {
            frame -= 1;
            at = self.end_in_frame(
                frame,
                Wanted {
                    net: circuit.dff_data(at.net - inputs).0,
                    bit: at.bit,
                },
            );
        }
        if at.net < inputs {
            Choice::Two {
                var: self.input_var(frame, at.net),
                first: at.bit,
            }
        } else {
            self.latch_choice(at)
        }
    }
}
