//! Which nets matter in a window.
ghost use Rattle.std.specs.Prelude.{◌≡◌, ◌<◌};
ghost use Rattle.ht_relevant.specs.Near.{matters};

use ht_events::MAX_FRAMES;
use std::marker::Model;

/// The nets that matter in the frames of a window: each up to a frame of its own.
#[derive(Drop)]
pub struct Relevant {
    pub(crate) frames: u32,
    // how many frames before the last one each net is read at the latest; as many as there are frames where it isn't.
    // One number says it for all frames: marks for each frame were no finer on any netlist tried, and four times the
    // work
    pub(crate) near: Vec<u16>,
}

impl Model for Relevant {
    ghost use Rattle.ht_relevant.specs.Near.{RelevantState};

    ghost Value = { RelevantState };

    ghost view = { λ a. record { frames = a.frames; near = a.near.items } };
}

impl Relevant {
    /// Whether a net of a frame matters.
    #[inline(always)]
    pub fn has(&self, frame: u32, net: u32) -> bool
        requires { frame < MAX_FRAMES }
        ensures { result ≡ matters self.now frame net }
    {
        match self.near.get(net as usize) {
            Some(near) => frame + u32::from(*near) < self.frames,
            None => false,
        }
    }
}
