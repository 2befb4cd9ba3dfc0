//! What reads what, and in which order items are fired.
ghost use Rattle.std.specs.Prelude.{◌≡◌, ℕ, ◌<◌, ◌≤◌, ◌+◌, ◌-◌, ◌*◌, ◌^◌, [], length, get_or};
ghost use Rattle.ht_net.specs.Circuit.Netlist.{IsCircuit, net_count};
ghost use Rattle.ht_events.specs.Items.{IsLoad, frame_items, item_at, item_count, frame_of, local_of, driven_net};
ghost use Rattle.ht_events.specs.FramePlans.{IsOffsetTable};
ghost use Rattle.ht_events.specs.Plans.{AreDistinctRanks, HasPosition, position_at};

use crate::frame_plan::FramePlan;
use ht_net::NetId;
use std::marker::Model;
use std::rc::Rc;

/// The most frames of a plan: the longest window of a search. The weights of 1 to 446 frames sum to 99,681, so a budget
/// of 100,000 reaches no longer one.
pub const MAX_FRAMES: u32 = 447;

/// A circuit over some frames, what reads each net, and the order in which items are fired.
#[derive(Drop)]
pub struct Plan<'c> {
    frame_plan: Rc<FramePlan<'c>>,
    frames: u32,
}

impl<'c> Model for Plan<'c> {
    ghost use Rattle.ht_events.specs.Plans.{PlanState};

    ghost Value = { PlanState };

    ghost use Rattle.ht_events.specs.Plans.{IsPlan};

    ghost view = { λ a. record {
      circuit = a.frame_plan.value.circuit;
      frames = a.frames;
      readers = a.frame_plan.value.readers;
      ranks = a.frame_plan.value.ranks;
    } };

    ghost invariant = { IsPlan };
}

impl<'c> Plan<'c> {
    /// A plan for a circuit over some frames.
    pub fn new(frame_plan: Rc<FramePlan<'c>>, frames: u32) -> Plan<'c>
        requires some { 0 < frames }
        requires few { frames ≤ MAX_FRAMES }
        ensures circuit { result.circuit ≡ frame_plan.entry.value.circuit }
        ensures frames { result.frames ≡ frames }
    {
        Plan { frame_plan, frames }
    }

    /// How many frames there are.
    pub fn frames(&self) -> u32
        ensures frames { result ≡ self.now.frames }
        ensures few { self.now.frames ≤ MAX_FRAMES }
    {
        self.frames
    }

    /// How many items all frames have.
    pub fn items(&self) -> u32
        ensures items { result ≡ item_count self.now.circuit self.now.frames }
        ensures few { result < 2 ^ 32 - 1 }
    {
        self.frames * self.frame_plan.items()
    }

    /// An item's frame, and its index there, from 0.
    pub fn split(&self, item: u32) -> (u32, u32)
        requires { item < item_count self.now.circuit self.now.frames }
        ensures frame { result.0 ≡ frame_of self.now.circuit item }
        ensures local { result.1 ≡ local_of self.now.circuit item }
        ensures frame_inside { result.0 < self.now.frames }
        ensures local_inside { result.1 < frame_items self.now.circuit }
        ensures few { item_count self.now.circuit self.now.frames < 2 ^ 32 - 1 }
    {
        // for the proof: the number of all items fits
        let _ = self.items();
        self.frame_plan.split(item)
    }

    /// The net that an item of a frame drives.
    pub fn net(&self, local: u32) -> NetId
        requires { local < frame_items self.now.circuit }
        ensures net { result.0 ≡ driven_net self.now.circuit local }
        ensures known { result.0 < net_count self.now.circuit }
    {
        self.frame_plan.net(local)
    }

    /// Where an item stands in the order of all, from 0.
    pub fn position(&self, item: u32) -> u32
        requires { item < item_count self.now.circuit self.now.frames }
        ensures position { result ≡ position_at self.now item }
        ensures inside { result < item_count self.now.circuit self.now.frames }
        ensures only { (y : ℕ) → y < item_count self.now.circuit self.now.frames
            → position_at self.now y ≡ position_at self.now item → y ≡ item }
        ensures later { (y : ℕ) → IsLoad self.now.circuit self.now.frames item y
            → position_at self.now item < position_at self.now y }
    {
        let (frame, local) = self.split(item);
        self.local_position(frame, local)
    }

    /// Where the item with this index in a frame stands in the order of all, from 0.
    pub fn local_position(&self, frame: u32, local: u32) -> u32
        requires frame { frame < self.now.frames }
        requires local { local < frame_items self.now.circuit }
        ensures position { result ≡ position_at self.now (item_at self.now.circuit frame local) }
        ensures inside { result < item_count self.now.circuit self.now.frames }
        ensures item { item_at self.now.circuit frame local
            < item_count self.now.circuit self.now.frames }
        ensures only { (y : ℕ) → y < item_count self.now.circuit self.now.frames
            → position_at self.now y ≡ position_at self.now (item_at self.now.circuit frame local)
            → y ≡ item_at self.now.circuit frame local }
        ensures later { (y : ℕ) → IsLoad self.now.circuit self.now.frames
            (item_at self.now.circuit frame local) y
            → position_at self.now (item_at self.now.circuit frame local)
            < position_at self.now y }
    {
        // for the proof: the number of all items fits
        let _ = self.items();
        let plan: &FramePlan = &self.frame_plan;
        frame * plan.items() + plan.rank(local)
    }

    /// The frame and the index there of the item that stands at a position in the order of all.
    pub fn local_item(&self, position: u32) -> (u32, u32)
        requires { position < item_count self.now.circuit self.now.frames }
        ensures frame { result.0 < self.now.frames }
        ensures local { result.1 < frame_items self.now.circuit }
        ensures few { item_count self.now.circuit self.now.frames < 2 ^ 32 - 1 }
        ensures stands { HasPosition self.now (item_at self.now.circuit result.0 result.1)
            position }
    {
        let (frame, rank) = self.split(position);
        let plan: &FramePlan = &self.frame_plan;
        (frame, plan.item(rank))
    }

    /// The first position of a frame.
    pub fn first_position(&self, frame: u32) -> u32
        requires { frame < self.now.frames }
        ensures first { result ≡ frame * frame_items self.now.circuit }
        ensures few { result + 2 * frame_items self.now.circuit < 2 ^ 32 }
    {
        // for the proof: the number of all items fits
        let _ = self.items();
        let plan: &FramePlan = &self.frame_plan;
        frame * plan.items()
    }

    /// How far from the first position of a frame the items stand that read a net of it.
    pub fn load_offsets(&self, net: NetId) -> &[u32]
        requires { net.0 < net_count self.now.circuit }
        ensures offsets { result.now ≡ get_or self.now.readers net.0 [] }
        ensures table { IsOffsetTable self.now.circuit self.now.ranks self.now.readers }
        ensures apart { AreDistinctRanks self.now }
    {
        self.frame_plan.load_offsets(net)
    }
}
