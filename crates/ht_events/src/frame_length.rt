//! How many items a frame has, and the frame of an item.
ghost use Rattle.std.specs.Prelude.{◌≡◌, ◌<◌, ◌*◌, ◌/◌, ◌%◌, ◌^◌};
ghost use Rattle.ht_events.specs.FrameLengths.{IsReciprocal};

use crate::plan::MAX_FRAMES;
use std::marker::Model;

// By so much the reciprocal is scaled: 2^41.
const SCALE: u64 = 2_199_023_255_552;

/// How many items a frame has. The frame of an item takes a product, which is faster than a division.
#[derive(Drop)]
pub struct FrameLength {
    items: u32,
    // of `items`, scaled, so that the products of all items with it are exact once scaled back
    reciprocal: u64,
}

impl Model for FrameLength {
    ghost use Rattle.std.specs.Prelude.{ℕ};
    ghost use Rattle.ht_events.specs.FrameLengths.{IsReciprocal};

    ghost Value = { ℕ };

    ghost view = { λ a. a.items };

    ghost invariant = { λ a. IsReciprocal a.items a.reciprocal };
}

// The reciprocal of a frame's length, scaled.
fn reciprocal_of(items: u32) -> u64
    requires { items < 2 ^ 16 }
    ensures { IsReciprocal items result }
{
    if items == 0 {
        return 0;
    }
    SCALE / items as u64 + 1
}

impl FrameLength {
    /// A frame of so many items.
    pub fn new(items: u32) -> FrameLength
        requires { items < 2 ^ 16 }
        ensures { result ≡ items }
    {
        FrameLength {
            items,
            reciprocal: reciprocal_of(items),
        }
    }

    /// How many items a frame has.
    pub fn items(&self) -> u32
        ensures { result ≡ self.now }
    {
        self.items
    }

    /// An item's frame, and its index there, from 0.
    pub fn split(&self, item: u32) -> (u32, u32)
        requires { item < MAX_FRAMES * self.now }
        ensures frame { result.0 ≡ item / self.now }
        ensures local { result.1 ≡ item % self.now }
    {
        // most windows have one frame
        if item < self.items {
            return (0, item);
        }
        let frame = (item as u64 * self.reciprocal / SCALE) as u32;
        (frame, item - frame * self.items)
    }
}
