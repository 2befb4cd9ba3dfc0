//! The first place of a window that shows a difference.
ghost use Rattle.std.specs.Prelude.{◌≡◌, ◌<◌, true, length, IfSome};
ghost use Rattle.std.specs.List.{find};
ghost use Rattle.ht_tree.specs.Window.Windows.{one_frame};
ghost use Rattle.ht_tree.specs.declared.window.Spot.TheVariants.{Output, State};
ghost use Rattle.ht_tree.specs.Window.Places.{output_places, places_of, set_at, spot_net, state_places};
ghost use Rattle.ht_relevant.specs.Relevant.{counts_state};
ghost use Rattle.ht_window.specs.Starts.{marked};
ghost use Rattle.ht_window.specs.Matters.{is_relevant};
ghost use Rattle.ht_window.specs.Seen.{shows, shows_at};

use crate::decisions::is_set;
use crate::start::Start;
use crate::window::Window;
use ht_pairs::PairSet;
use ht_tree::{Spot, WindowPlace};

/// What a place is looked at for.
#[derive(Clone, Copy)]
pub enum Look {
    /// That the machines must differ there.
    Must,
    /// That they may.
    May,
}

/// Whether a set shows what is looked for.
#[inline(always)]
fn shows(look: Look, set: PairSet) -> bool
    ensures { result ≡ shows look set }
{
    match look {
        Look::Must => set.must_differ(),
        Look::May => set.may_differ(),
    }
}

impl<'c> Window<'c> {
    // Whether an output of a frame shows what is looked for: one that doesn't matter never does.
    #[inline(always)]
    fn output_shows(&self, look: Look, frame: u32, o: u32) -> bool
        requires frame { frame < self.now.window.frames }
        requires output { o < length self.now.window.circuit.outputs }
        ensures matters { result ≡ true → is_relevant self.now.relevant frame
            (spot_net self.now.window.circuit (Output o)) ≡ true }
        ensures shows { result
            ≡ shows look (set_at self.now.window self.now.decisions frame (Output o)) }
    {
        // for the proof: what doesn't matter
        self.relevance();
        let net = self.circuit().output(o);
        if !self.matters(frame, net) {
            return false;
        }
        shows(look, self.cell(frame, net))
    }

    // The same of a next state that counts, in a window of one frame.
    #[inline(always)]
    fn state_shows(&self, look: Look, j: u32) -> bool
        requires single { self.now.window.frames ≡ 1 }
        requires dff { j < length self.now.window.circuit.dffs }
        requires counts { counts_state self.now.window.start j ≡ true }
        ensures matters { result ≡ true → is_relevant self.now.relevant 0
            (spot_net self.now.window.circuit (State j)) ≡ true }
        ensures shows { result
            ≡ shows look (set_at self.now.window self.now.decisions 0 (State j)) }
    {
        // for the proof: what doesn't matter
        self.relevance();
        let net = self.circuit().dff_data(j);
        if !self.matters(0, net) {
            return false;
        }
        shows(look, self.next_state(j))
    }

    // The first output of a frame that shows what is looked for.
    #[inline(always)]
    fn first_output(&self, look: Look, frame: u32) -> Option<WindowPlace>
        requires { frame < self.now.window.frames }
        ensures matters { IfSome result (λ p. is_relevant self.now.relevant p.frame
            (spot_net self.now.window.circuit p.spot) ≡ true) }
        ensures first { result ≡ find (shows_at self.now.window self.now.decisions look)
            (output_places self.now.window.circuit frame) }
    {
        for o in 0..self.circuit().outputs() {
            if self.output_shows(look, frame, o) {
                return Some(WindowPlace {
                    frame,
                    spot: Spot::Output(o),
                });
            }
        }
        None
    }

    // The first flip-flop outside a set whose next state shows what is looked for.
    fn first_state(&self, look: Look, z: &[bool]) -> Option<WindowPlace>
        requires single { self.now.window.frames ≡ 1 }
        requires start { one_frame (marked 0 z.now) ≡ self.now.window.start }
        ensures matters { IfSome result (λ p. is_relevant self.now.relevant p.frame
            (spot_net self.now.window.circuit p.spot) ≡ true) }
        ensures first { result ≡ find (shows_at self.now.window self.now.decisions look)
            (state_places self.now.window.circuit (one_frame (marked 0 z.now))) }
    {
        for j in 0..self.dffs() {
            if !is_set(z, j) && self.state_shows(look, j) {
                return Some(WindowPlace {
                    frame: 0,
                    spot: Spot::State(j),
                });
            }
        }
        None
    }

    // The first place after all outputs that shows what is looked for.
    fn first_after_outputs(&self, look: Look) -> Option<WindowPlace>
        ensures matters { IfSome result (λ p. is_relevant self.now.relevant p.frame
            (spot_net self.now.window.circuit p.spot) ≡ true) }
        ensures first { result ≡ find (shows_at self.now.window self.now.decisions look)
            (state_places self.now.window.circuit self.now.window.start) }
    {
        // for the proof: the window is well formed
        let _ = self.circuit();
        match self.start() {
            Start::OneFrame { z } => self.first_state(look, z.as_slice()),
            Start::Unknown | Start::Pair { state: _ } => None,
            Start::Back { cube: _, limit: _ } => None,
        }
    }

    /// The first place that shows what is looked for.
    #[inline(always)]
    pub fn first_place(&self, look: Look) -> Option<WindowPlace>
        ensures matters { IfSome result (λ p. is_relevant self.now.relevant p.frame
            (spot_net self.now.window.circuit p.spot) ≡ true) }
        ensures first { result ≡ find (shows_at self.now.window self.now.decisions look)
            (places_of self.now.window) }
    {
        for frame in 0..self.frames() {
            let place = self.first_output(look, frame);
            if place.is_some() {
                return place;
            }
        }
        self.first_after_outputs(look)
    }
}
