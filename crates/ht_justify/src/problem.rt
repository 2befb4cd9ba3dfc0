//! The windows of a search back as a problem of the search.
ghost use Rattle.ht_tree.specs.Walk.Searches.{guide_of};
ghost use Rattle.ht_search.specs.WindowSteps.{route_of, steps_under};
ghost use Rattle.ht_window.specs.Shallow.{window_shallow};

use crate::back_windows::{BackWindows, back_window, go_back};
use crate::cube::{decided_cube, is_wanting};
use ht_search::{Point, Problem};
use ht_tern::Tern;
use ht_tree::{Choice, Status3};
use ht_window::without_place;
use std::alloc::AllocError;
use std::mem;

impl<'c, 's> Problem for BackWindows<'c, 's> {
    ghost use Rattle.ht_tree.specs.Window.Windows.{SearchWindow};

    ghost Subject = { SearchWindow };

    ghost subject = { λ s. s.first };

    ghost guide = { guide_of };

    ghost route = { λ s. route_of (steps_under s.above s.decisions) };

    ghost shallow = { λ s. window_shallow s.first };

    fn status(&self) -> Status3 {
        without_place(self.window.status())
    }

    fn pick(&self) -> Choice {
        self.window.pick()
    }

    fn decide(&mut self, var: u32, value: Tern) -> Result<(), AllocError> {
        self.window.decide(var, value)?;
        Ok(())
    }

    fn deeper(&mut self) -> Result<bool, AllocError> {
        let left = self.limit - self.above.len() as u32;
        if left == 0 {
            return Ok(false);
        }
        let cube = decided_cube(self.alloc, &self.window)?;
        if !is_wanting(cube.as_slice()) {
            return Ok(false);
        }
        // so that nothing fails once the window is replaced
        self.above.reserve(1)?;
        let window = back_window(self.alloc, &mut self.bases, cube, left - 1)?;
        let last = mem::replace(&mut self.window, window);
        self.above.push(last)?;
        Ok(true)
    }

    fn mark(&self) -> Point {
        // for the proof: no more windows stand above than the limit, so their number fits
        let _limit = self.limit;
        Point {
            level: self.above.len() as u32,
            mark: self.window.decision_count() as u64,
        }
    }

    fn undo(&mut self, point: Point) {
        go_back(&mut self.above, &mut self.window, point);
    }
}
