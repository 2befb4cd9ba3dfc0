//! What the next states of the latches of a cube show.
ghost use Rattle.std.specs.Prelude.{◌≡◌, None};
ghost use Rattle.ht_pairs.specs.Pairs.{is_member, pair};
ghost use Rattle.ht_tree.specs.Window.Windows.{is_undetermined};
ghost use Rattle.ht_tree.specs.Window.WindowStatus.{cube_latches, is_definite};
ghost use Rattle.ht_window.specs.Seen.{cube_seen_of, cube_seen_with, cube_status_by};

use crate::decisions::value_at;
use crate::window::Window;
use ht_pairs::PairSet;
use ht_tern::Tern;
use ht_tree::{Spot, Status};

/// What the latches of a cube that were looked at show: whether there is any, whether all must have their values,
/// whether all may, and the first whose next state is undetermined.
#[derive(Clone, Copy)]
pub struct CubeSeen {
    pub some: bool,
    pub must: bool,
    pub may: bool,
    pub undetermined_latch: Option<u32>,
}

/// Whether a set holds a value in both machines.
fn holds(set: PairSet, value: Tern) -> bool
    ensures { result ≡ is_member (pair value value) set }
{
    set.has(value, value)
}

/// Whether a value is 0 or 1.
fn is_definite(value: Tern) -> bool
    ensures { result ≡ is_definite value }
{
    match value {
        Tern::Zero | Tern::One => true,
        Tern::Unk => false,
    }
}

/// Whether a set is undetermined: it has two or more members.
fn is_undetermined(set: PairSet) -> bool
    ensures { result ≡ is_undetermined set }
{
    !set.is_single()
}

impl CubeSeen {
    /// The same after one more latch.
    fn with(self, j: u32, value: Tern, set: PairSet) -> CubeSeen
        ensures { result ≡ cube_seen_with self j value set }
    {
        let may = holds(set, value);
        let undetermined = is_undetermined(set);
        CubeSeen {
            some: true,
            must: self.must && may && !undetermined,
            may: self.may && may,
            undetermined_latch: self.undetermined_latch.or(undetermined.then_some(j)),
        }
    }

    /// The status with so many frames left.
    pub fn status(self, limit: u32) -> Status
        ensures { result ≡ cube_status_by self limit }
    {
        let sure = Status::Sure {
            frame: 0,
            place: Spot::Cube,
        };
        if !self.some {
            return sure;
        }
        if limit == 0 {
            return Status::Dead;
        }
        if self.must {
            sure
        } else if self.may {
            Status::Open
        } else {
            Status::Dead
        }
    }
}

impl<'c> Window<'c> {
    /// What the latches of a cube show.
    pub fn see_cube(&self, cube: &[Tern]) -> CubeSeen
        requires single { self.now.window.frames ≡ 1 }
        requires whole { self.now.relevant ≡ None }
        ensures { result ≡ cube_seen_of self.now.window self.now.decisions cube.now
            (cube_latches self.now.window.circuit cube.now) }
    {
        let mut seen = CubeSeen {
            some: false,
            must: true,
            may: true,
            undetermined_latch: None,
        };
        for j in 0..self.dffs() {
            let value = value_at(cube, j);
            if is_definite(value) {
                seen = seen.with(j, value, self.next_state(j));
            }
        }
        seen
    }
}
