//! The status of a window, and the choice of the next variable.
ghost use Rattle.std.specs.Prelude.{◌≡◌, ◌<◌, ℕ, true, Some, None, IfSome, length};
ghost use Rattle.ht_net.specs.Circuit.Netlist.{net_count};
ghost use Rattle.ht_tree.specs.declared.window.WindowPlace.{WindowPlace};
ghost use Rattle.ht_tree.specs.declared.window.Spot.TheVariants.{Output, State};
ghost use Rattle.ht_tree.specs.declared.window.Status.TheVariants.{Open};
ghost use Rattle.ht_tree.specs.Window.Places.{IsSpot, spot_net};
ghost use Rattle.ht_tree.specs.Window.WindowStatus.{difference_status, status_at};
ghost use Rattle.ht_tree.specs.Window.Variables.{IsLegalChoice};
ghost use Rattle.ht_tree.specs.Window.WalkBack.{CanWalk, from_latch, from_place, pick_of};
ghost use Rattle.ht_window.specs.Matters.{is_relevant};

use crate::decisions::value_at;
use crate::places::Look;
use crate::start::Start;
use crate::window::Window;
use ht_net::NetId;
use ht_tern::Tern;
use ht_tree::{Choice, Spot, Status, WindowPlace};

impl<'c> Window<'c> {
    /// What the decisions so far make of the window.
    pub fn status(&self) -> Status
        ensures { result ≡ status_at self.now.window self.now.decisions }
    {
        // for the proof: the window is well formed, and in that of a cube all nets matter
        let _ = self.circuit();
        match self.start() {
            Start::Back { cube, limit } => self.see_cube(cube.as_slice()).status(*limit),
            Start::OneFrame { z: _ } | Start::Unknown | Start::Pair { state: _ } =>
                self.difference_status(),
        }
    }

    // The status where a difference is looked for.
    fn difference_status(&self) -> Status
        ensures { result ≡ difference_status self.now.window self.now.decisions }
    {
        match self.first_place(Look::Must) {
            Some(place) => Status::Sure {
                frame: place.frame,
                place: place.spot,
            },
            None => {
                if self.first_place(Look::May).is_some() {
                    Status::Open
                } else {
                    Status::Dead
                }
            },
        }
    }

    /// The choice of the next variable: the walk back from the first place that may show what is searched for.
    pub fn pick(&self) -> Choice
        requires { status_at self.now.window self.now.decisions ≡ Open }
        ensures choice { result ≡ pick_of self.now.window self.now.decisions }
        ensures legal { IsLegalChoice self.now.window self.now.decisions result }
    {
        // for the proof: the window is well formed
        let _ = self.circuit();
        self.choose()
    }

    // The choice of the next variable.
    fn choose(&self) -> Choice
        requires { status_at self.now.window self.now.decisions ≡ Open }
        ensures { result ≡ pick_of self.now.window self.now.decisions }
    {
        // for the proof: the window is well formed, and in that of a cube all nets matter
        let _ = self.circuit();
        match self.start() {
            Start::Back { cube, limit: _ } => self.from_latch(
                cube.as_slice(),
                self.see_cube(cube.as_slice()).undetermined_latch,
            ),
            Start::OneFrame { z: _ } | Start::Unknown | Start::Pair { state: _ } => self.from_place(
                self.first_place(Look::May),
            ),
        }
    }

    // The walk back from a place that may differ.
    fn from_place(&self, place: Option<WindowPlace>) -> Choice
        requires walks { (p : WindowPlace) → place ≡ Some p
            → CanWalk self.now.window self.now.decisions
            p.frame (spot_net self.now.window.circuit p.spot) × IsSpot self.now.window.circuit
            p.spot }
        requires matters { IfSome place (λ p. is_relevant self.now.relevant p.frame
            (spot_net self.now.window.circuit p.spot) ≡ true) }
        ensures { result ≡ from_place self.now.window self.now.decisions place }
    {
        match place {
            Some(place) => self.walk_back(place.frame, self.spot_net(place.spot), true),
            None => Choice::Two {
                var: 0,
                first: true,
            },
        }
    }

    // The walk back from the data pin of a latch of a cube.
    fn from_latch(&self, cube: &[Tern], latch: Option<u32>) -> Choice
        requires whole { self.now.relevant ≡ None }
        requires walks { (j : ℕ) → latch ≡ Some j → (j < length self.now.window.circuit.dffs)
            × CanWalk self.now.window self.now.decisions 0
            (spot_net self.now.window.circuit (State j)) }
        ensures { result ≡ from_latch self.now.window self.now.decisions cube.now latch }
    {
        match latch {
            Some(j) => self.walk_back(
                0,
                self.circuit().dff_data(j),
                value_at(cube, j) == Tern::One,
            ),
            None => Choice::Two {
                var: 0,
                first: true,
            },
        }
    }

    // The net at a spot.
    fn spot_net(&self, spot: Spot) -> NetId
        requires { IsSpot self.now.window.circuit spot }
        ensures { result.0 ≡ spot_net self.now.window.circuit spot }
    {
        match spot {
            Spot::Output(o) => self.circuit().output(o),
            Spot::State(j) => self.circuit().dff_data(j),
            Spot::Cube => NetId(0),
        }
    }
}
