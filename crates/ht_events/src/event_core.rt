//! The items that are pending, and what fires them.
ghost use Rattle.std.specs.Prelude.{◌≡◌, ℕ, ◌<◌, ◌≤◌, ◌+◌, ◌*◌, true, false, length, get_or, set, IfOk, OnOk, OnErr, IfSome, IfNone, ◌⊎◌};
ghost use Rattle.ht_net.specs.Circuit.Netlist.{net_count};
ghost use Rattle.ht_events.specs.Items.{IsLoad, IsReader, frame_items, item_at, item_count};
ghost use Rattle.ht_events.specs.Plans.{HasPosition, position_at};
ghost use Rattle.ht_events.specs.Firings.{GoesOn, IsFired};
ghost use Rattle.ht_events.specs.Pending.{CoreState, IsPending, IsPendingAt, QuietAgree, core_items, pending_count, pends};

use crate::frame_plan::FramePlan;
use crate::pending_set::PendingSet;
use crate::plan::{MAX_FRAMES, Plan};
use crate::plant::Plant;
use ht_net::{Circuit, NetId};
use std::alloc::{AllocError, Global};
use std::marker::Model;
use std::rc::Rc;

/// Which items are pending.
#[derive(Drop)]
pub struct Core<'c> {
    plan: Plan<'c>,
    // by where the item stands in the order of all
    marks: PendingSet,
}

impl<'c> Model for Core<'c> {
    ghost use Rattle.ht_events.specs.Pending.{CoreState};

    ghost Value = { CoreState };

    ghost use Rattle.ht_events.specs.Pending.{core_of, IsCore};

    ghost view = { core_of };

    ghost invariant = { IsCore };
}

impl<'c> Core<'c> {
    /// A core for a circuit over some frames, in which no item is pending. It has room for all.
    ///
    /// # Errors
    /// Out of memory.
    pub fn new(alloc: Global, circuit: &'c Circuit, frames: u32) -> Result<Core<'c>, AllocError>
        requires some { 0 < frames }
        requires few { frames ≤ MAX_FRAMES }
        ensures circuit { IfOk result (λ core. core.plan.circuit ≡ circuit.now) }
        ensures frames { IfOk result (λ core. core.plan.frames ≡ frames) }
        ensures none { IfOk result (λ core. (x : ℕ) → ¬ IsPending core x) }
    {
        let frame_plan = Rc::new(alloc, FramePlan::new(alloc, circuit)?)?;
        Core::with_plan(alloc, frame_plan, frames)
    }

    /// The same with the plan of a frame of the circuit, which other cores may share.
    ///
    /// # Errors
    /// Out of memory.
    pub fn with_plan(
        alloc: Global,
        frame_plan: Rc<FramePlan<'c>>,
        frames: u32,
    ) -> Result<Core<'c>, AllocError>
        requires some { 0 < frames }
        requires few { frames ≤ MAX_FRAMES }
        ensures circuit { IfOk result (λ core. core.plan.circuit ≡ frame_plan.entry.value.circuit) }
        ensures frames { IfOk result (λ core. core.plan.frames ≡ frames) }
        ensures none { IfOk result (λ core. (x : ℕ) → ¬ IsPending core x) }
    {
        let plan = Plan::new(frame_plan, frames);
        let marks = PendingSet::new(alloc, plan.items())?;
        Ok(Core { plan, marks })
    }

    /// How many items there are.
    pub fn items(&self) -> u32
        ensures { result ≡ core_items self.now }
    {
        self.plan.items()
    }

    /// How many items are pending.
    pub fn pending(&self) -> u32
        ensures { result ≡ pending_count self.now }
    {
        let mut count = 0;
        for item in 0..self.items() {
            if self.is_pending(item) {
                count += 1;
            }
        }
        count
    }

    /// Makes all items pending.
    pub fn touch_all(&mut self)
        ensures plan { self.new.plan ≡ self.old.plan }
        ensures all { (y : ℕ) → y < core_items self.old → IsPending self.new y }
    {
        for item in 0..self.items() {
            self.touch(item);
        }
    }

    /// Whether an item is pending.
    pub fn is_pending(&self, item: u32) -> bool
        requires { item < core_items self.now }
        ensures { result ≡ pends self.now item }
    {
        let position = self.plan.position(item);
        self.marks.contains(position)
    }

    /// Makes an item pending.
    pub fn touch(&mut self, item: u32)
        requires { item < core_items self.old }
        ensures plan { self.new.plan ≡ self.old.plan }
        ensures more { (y : ℕ) → IsPending self.old y → IsPending self.new y }
        ensures has { IsPending self.new item }
        ensures only { (y : ℕ) → y < core_items self.old → IsPending self.new y
            → IsPending self.old y
            ⊎ (y ≡ item) }
    {
        let position = self.plan.position(item);
        self.marks.insert(position);
    }

    // Makes the item at a position no longer pending.
    fn remove(&mut self, position: u32)
        requires { position < core_items self.old }
        ensures plan { self.new.plan ≡ self.old.plan }
        ensures taken { ¬ IsPendingAt self.new position }
        ensures fewer { (y : ℕ) → IsPending self.new y → IsPending self.old y }
        ensures only { (y : ℕ) → IsPending self.old y
            → IsPending self.new y ⊎ (position_at self.old.plan y ≡ position) }
    {
        self.marks.remove(position);
    }

    /// Makes the items pending that read a net of a frame.
    pub fn touch_loads(&mut self, frame: u32, net: NetId)
        requires frame { frame < self.old.plan.frames }
        requires net { net.0 < net_count self.old.plan.circuit }
        ensures plan { self.new.plan ≡ self.old.plan }
        ensures more { (y : ℕ) → IsPending self.old y → IsPending self.new y }
        ensures loads { (y : ℕ) → IsReader self.old.plan.circuit self.old.plan.frames frame net.0 y
            → IsPending self.new y }
        ensures only { (y : ℕ) → y < core_items self.old → IsPending self.new y
            → IsPending self.old y
            ⊎ IsReader self.old.plan.circuit self.old.plan.frames frame net.0 y }
    {
        let plan = &self.plan;
        let marks = &mut self.marks;
        let first = plan.first_position(frame);
        let items = plan.items();
        for offset in plan.load_offsets(net) {
            // a flip-flop of the frame after the last stands past all items
            let position = first + *offset;
            if position < items {
                marks.insert(position);
            }
        }
    }

    // What a firing leaves: the item is pending no more, and its loads are pending if its value changed, and only then.
    fn finish(&mut self, position: u32, frame: u32, local: u32, changed: bool)
        requires frame { frame < self.old.plan.frames }
        requires local { local < frame_items self.old.plan.circuit }
        requires stands { HasPosition self.old.plan (item_at self.old.plan.circuit frame local)
            position }
        ensures plan { self.new.plan ≡ self.old.plan }
        ensures taken { ¬ IsPending self.new (item_at self.old.plan.circuit frame local) }
        ensures kept { (y : ℕ) → y < core_items self.old → IsPending self.old y
            → IsPending self.new y ⊎ (y ≡ item_at self.old.plan.circuit frame local) }
        ensures loads { changed ≡ true → (y : ℕ)
            → IsLoad self.old.plan.circuit self.old.plan.frames
            (item_at self.old.plan.circuit frame local) y
            → IsPending self.new y }
        ensures only { (y : ℕ) → y < core_items self.old → IsPending self.new y
            → IsPending self.old y
            ⊎ ((changed ≡ true)
            × IsLoad self.old.plan.circuit self.old.plan.frames
            (item_at self.old.plan.circuit frame local) y) }
    {
        self.remove(position);
        if changed {
            let net = self.plan.net(local);
            self.touch_loads(frame, net);
        }
    }

    /// Fires one pending item, any one: makes it agree, and its loads pending if its value changed. Where every item
    /// that isn't pending agreed, it does afterwards.
    ///
    /// # Errors
    /// Out of memory; the item is still pending.
    pub fn fire<P: Plant>(&mut self, plant: &mut P, item: u32) -> Result<(), AllocError>
        requires circuit { P.circuit plant.old ≡ self.old.plan.circuit }
        requires frames { P.frames plant.old ≡ self.old.plan.frames }
        requires item { item < core_items self.old }
        requires pending { IsPending self.old item }
        ensures plan { self.new.plan ≡ self.old.plan }
        ensures goes_on { GoesOn P.Plant plant.old plant.new }
        ensures agree { QuietAgree self.old (P.agrees plant.old)
            → QuietAgree self.new (P.agrees plant.new) }
        ensures fired { OnOk result (IsFired P.Plant self.old item self.new plant.new) }
        ensures err { OnErr result (self.new ≡ self.old) }
    {
        let (frame, local) = self.plan.split(item);
        let position = self.plan.local_position(frame, local);
        self.fire_at(plant, position, frame, local)
    }

    // The same, of the item with this index in a frame, which stands at a position: none of them is worked out again.
    fn fire_at<P: Plant>(
        &mut self,
        plant: &mut P,
        position: u32,
        frame: u32,
        local: u32,
    ) -> Result<(), AllocError>
        requires circuit { P.circuit plant.old ≡ self.old.plan.circuit }
        requires frames { P.frames plant.old ≡ self.old.plan.frames }
        requires frame { frame < self.old.plan.frames }
        requires local { local < frame_items self.old.plan.circuit }
        requires stands { HasPosition self.old.plan (item_at self.old.plan.circuit frame local)
            position }
        ensures plan { self.new.plan ≡ self.old.plan }
        ensures goes_on { GoesOn P.Plant plant.old plant.new }
        ensures agree { QuietAgree self.old (P.agrees plant.old)
            → QuietAgree self.new (P.agrees plant.new) }
        ensures fired { OnOk result (IsFired P.Plant self.old
            (item_at self.old.plan.circuit frame local) self.new plant.new) }
        ensures err { OnErr result (self.new ≡ self.old) }
    {
        let changed = plant.recompute(frame, local)?;
        self.finish(position, frame, local, changed);
        Ok(())
    }

    // The first position from `from` on that is marked; no item before it is pending.
    fn next_mark(&mut self, from: u32) -> Option<u32>
        requires { (y : ℕ) → y < core_items self.old → position_at self.old.plan y < from
            → ¬ IsPending self.old y }
        ensures same { self.new ≡ self.old }
        ensures inside { IfSome result (λ p. p < core_items self.old) }
        ensures marked { IfSome result (λ p. IsPendingAt self.old p) }
        ensures from { IfSome result (λ p. from ≤ p) }
        ensures first { IfSome result
            (λ p. (y : ℕ) → y < core_items self.old → position_at self.old.plan y < p
            → ¬ IsPending self.old y) }
        ensures none { IfNone result ((y : ℕ) → y < core_items self.old → ¬ IsPending self.old y) }
    {
        self.marks.next(from)
    }

    /// Fires items, the lowest frame and there the lowest level first, until none is pending. No item is fired twice,
    /// so it spends at most the price of each.
    ///
    /// # Errors
    /// Out of memory; some items may be pending. Here too, where every item that isn't pending agreed, it does
    /// afterwards.
    // A load of an item stands after it in the order of all positions, so one walk by rising positions meets each item
    // when all that it reads is final, and ends after as many items as there are at most: the proof's measure is a
    // position. A mark is a bit, so 64 items that aren't pending are passed by one test, and an event is a sum and a
    // comparison, since readers stand by their offsets. 76 percent of the time of `gen` goes here (docs/MEASURED.md).
    pub fn settle<P: Plant>(&mut self, plant: &mut P) -> Result<(), AllocError>
        requires circuit { P.circuit plant.old ≡ self.old.plan.circuit }
        requires frames { P.frames plant.old ≡ self.old.plan.frames }
        ensures plan { self.new.plan ≡ self.old.plan }
        ensures circuit { P.circuit plant.new ≡ P.circuit plant.old }
        ensures frames { P.frames plant.new ≡ P.frames plant.old }
        ensures keeps { P.keeps plant.old plant.new }
        ensures spent { P.spent plant.new
            ≤ P.spent plant.old + core_items self.old * P.price plant.old }
        ensures agree { QuietAgree self.old (P.agrees plant.old)
            → QuietAgree self.new (P.agrees plant.new) }
        ensures none { OnOk result ((x : ℕ) → x < core_items self.old → ¬ IsPending self.new x) }
    {
        let mut from = 0;
        while let Some(position) = self.next_mark(from) {
            let (frame, local) = self.plan.local_item(position);
            from = position + 1;
            self.fire_at(plant, position, frame, local)?;
        }
        Ok(())
    }
}
