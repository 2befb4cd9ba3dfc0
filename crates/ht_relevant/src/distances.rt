//! How many frames away nets are, while this is found.
ghost use Rattle.std.specs.Prelude.{◌≡◌, ◌<◌, ◌≤◌, ◌+◌, ◌++◌, ◌∷◌, [], true, ltb, length, replicate, IfOk, IfNone, IfSome, OnOk};
ghost use Rattle.std.specs.List.{Contains};
ghost use Rattle.ht_relevant.specs.Distances.{HasGrown, number_of};

use ht_events::MAX_FRAMES;
use std::alloc::{AllocError, Global};
use std::marker::Model;

/// A number of frames for each net, at the least, and the nets that are still to be followed. The nearest are followed
/// first: `distance` says how far away those are that are gone through.
#[derive(Drop)]
pub struct Distances {
    frames: u32,
    distance: u32,
    // as many as there are frames where a net has no number
    numbers: Vec<u16>,
    // nets of this distance that aren't followed, and nets one frame on
    here: Vec<u32>,
    next: Vec<u32>,
}

impl Model for Distances {
    ghost use Rattle.ht_relevant.specs.Distances.{DistanceState};

    ghost Value = { DistanceState };

    ghost use Rattle.ht_relevant.specs.Distances.{AreDistances, distances_of};

    ghost view = { distances_of };

    ghost invariant = { λ a. AreDistances (distances_of a) };
}

impl Distances {
    /// No number, for so many nets and frames.
    ///
    /// # Errors
    /// Out of memory.
    pub fn new(alloc: Global, nets: u32, frames: u32) -> Result<Distances, AllocError>
        requires some { 0 < frames }
        requires few { frames ≤ MAX_FRAMES }
        ensures { IfOk result (λ d. d ≡ record {
          frames = frames;
          distance = 0;
          numbers = replicate nets frames;
          here = [];
          next = [];
        }) }
    {
        let numbers = vec![in alloc; frames as u16; nets as usize]?;
        Ok(Distances {
            frames,
            distance: 0,
            numbers,
            here: Vec::new(alloc),
            next: Vec::new(alloc),
        })
    }

    /// How many frames there are.
    pub fn frames(&self) -> u32
        ensures frames { result ≡ self.now.frames }
        ensures some { 0 < self.now.frames }
    {
        self.frames
    }

    /// Whether a net has a number.
    #[inline(always)]
    pub fn has(&self, net: u32) -> bool
        requires { net < length self.now.numbers }
        ensures { result ≡ ltb (number_of self.now net) self.now.frames }
    {
        u32::from(self.numbers[net as usize]) < self.frames
    }

    /// Gives a net the number of the distance that is gone through, if it has none.
    ///
    /// # Errors
    /// Out of memory.
    #[inline(always)]
    pub fn put(&mut self, net: u32) -> Result<(), AllocError>
        requires { net < length self.old.numbers }
        ensures grown { OnOk result (HasGrown self.old self.new) }
        ensures next { OnOk result (self.new.next ≡ self.old.next) }
        ensures put { OnOk result (number_of self.new net ≤ self.new.distance) }
    {
        if self.has(net) {
            return Ok(());
        }
        self.here.push(net)?;
        self.numbers[net as usize] = self.distance as u16;
        Ok(())
    }

    /// The same where this holds.
    ///
    /// # Errors
    /// Out of memory.
    pub fn put_if(&mut self, net: u32, holds: bool) -> Result<(), AllocError>
        requires { net < length self.old.numbers }
        ensures grown { OnOk result (HasGrown self.old self.new) }
        ensures put { OnOk result
            (holds ≡ true → number_of self.new net ≤ self.new.distance) }
    {
        if !holds {
            return Ok(());
        }
        self.put(net)
    }

    /// A net is to get a number one frame on.
    ///
    /// # Errors
    /// Out of memory.
    pub fn put_next(&mut self, net: u32) -> Result<(), AllocError>
        requires { net < length self.old.numbers }
        ensures grown { OnOk result (HasGrown self.old self.new) }
        ensures put { OnOk result (Contains self.new.next net) }
    {
        self.next.push(net)?;
        Ok(())
    }

    /// Takes a net of this distance that isn't followed yet.
    pub fn pop(&mut self) -> Option<u32>
        ensures none { IfNone result (self.old.here ≡ []) }
        ensures same { IfNone result (self.new ≡ self.old) }
        ensures some { IfSome result
            (λ x. self.old ≡ record self.new { here = self.new.here ++ x ∷ [] }) }
        ensures here { IfSome result (λ x. number_of self.new x ≡ self.new.distance) }
        ensures inside { IfSome result (λ x. x < length self.new.numbers) }
    {
        let Some(net) = self.here.pop() else {
            return None;
        };
        Some(net)
    }

    /// Goes on by a frame, where no net of this distance is left to be followed.
    pub fn advance(&mut self)
        requires more { self.old.distance + 1 < self.old.frames }
        requires none { self.old.here ≡ [] }
        ensures { self.new ≡ record self.old { distance = self.old.distance + 1 } }
    {
        self.distance += 1;
    }

    /// Takes a net that is to get a number.
    pub fn pop_next(&mut self) -> Option<u32>
        ensures none { IfNone result (self.old.next ≡ []) }
        ensures same { IfNone result (self.new ≡ self.old) }
        ensures some { IfSome result
            (λ x. self.old ≡ record self.new { next = self.new.next ++ x ∷ [] }) }
        ensures inside { IfSome result (λ x. x < length self.new.numbers) }
    {
        let Some(net) = self.next.pop() else {
            return None;
        };
        Some(net)
    }

    /// The numbers.
    pub fn into_numbers(self) -> Vec<u16>
        ensures { result.items ≡ self.numbers }
    {
        let Distances {
            frames: _,
            distance: _,
            numbers,
            here: _,
            next: _,
        } = self;
        numbers
    }
}
