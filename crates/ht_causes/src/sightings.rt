//! What is kept of a fault while vectors run, and how each value that is compared changes it.
ghost use Rattle.std.specs.Prelude.{◌≡◌, IsTrue};
ghost use Rattle.ht_causes.specs.Compared.{are_unlike, are_unsure, is_told};
ghost use Rattle.ht_causes.specs.Causes.{cause_row};
ghost use Rattle.ht_causes.specs.Kept.{LineIsRead, no_sightings, or_here, with_carried, with_later, with_latch_pair, with_output_pair};

use crate::cause::{Cause, LatchPlace};
use ht_net::Place;
use ht_tern::{Tern, is_opposite};

/// What the vectors so far show of a fault.
#[derive(Clone, Copy)]
pub struct Sightings {
    /// The first detection.
    pub detected: Option<Place>,
    /// The first place where the good machine shows a definite value and the faulty one an unknown.
    pub possible: Option<Place>,
    /// The first flip-flop that keeps a difference from a definite value.
    pub stored: Option<LatchPlace>,
    /// The first vector at which the fault is excited.
    pub excited: Option<u64>,
    /// Whether the fault's line carried a definite value.
    pub told: bool,
}

// Whether a good value is definite and the faulty one unknown.
fn is_unsure(good: Tern, faulty: Tern) -> bool
    ensures { result ≡ are_unsure good faulty }
{
    good != Tern::Unk && faulty == Tern::Unk
}

// Whether a good value is definite and the faulty one another.
fn is_unlike(good: Tern, faulty: Tern) -> bool
    ensures { result ≡ are_unlike good faulty }
{
    good != Tern::Unk && faulty != good
}

// Whether a value is definite.
fn is_told(value: Tern) -> bool
    ensures { result ≡ is_told value }
{
    value != Tern::Unk
}

// The first that was found, or else this one if it is one.
fn or_here<X: Copy + Drop>(found: Option<X>, is_one: bool, here: X) -> Option<X>
    ensures { result ≡ or_here found is_one here }
{
    match found {
        Some(first) => Some(first),
        None => { if is_one { Some(here) } else { None } },
    }
}

impl Sightings {
    /// Before the first vector.
    pub fn none() -> Sightings
        ensures { result ≡ no_sightings }
    {
        Sightings {
            detected: None,
            possible: None,
            stored: None,
            excited: None,
            told: false,
        }
    }

    /// Compares what the machines show at an output.
    pub fn note_output(&mut self, place: Place, good: Tern, faulty: Tern)
        ensures { self.new ≡ with_output_pair place good faulty self.old }
    {
        self.detected = or_here(self.detected, is_opposite(good, faulty), place);
        self.possible = or_here(self.possible, is_unsure(good, faulty), place);
    }

    /// Compares what they hold in a flip-flop after a vector.
    pub fn note_latch(&mut self, place: LatchPlace, good: Tern, faulty: Tern)
        ensures { self.new ≡ with_latch_pair place good faulty self.old }
    {
        self.stored = or_here(self.stored, is_unlike(good, faulty), place);
    }

    /// Notes what the line of a fault that is stuck at a bit carries at a vector in the good machine.
    pub fn note_carried(&mut self, vector: u64, value: Tern, stuck: bool)
        ensures { self.new ≡ with_carried vector value stuck self.old }
    {
        self.excited = or_here(self.excited, is_opposite(value, Tern::from(stuck)), vector);
        self.told = self.told || is_told(value);
    }

    /// Whether what the line carries changes nothing more.
    pub fn is_read(&self) -> bool
        ensures { IsTrue result → LineIsRead self.now }
    {
        self.excited.is_some() && self.told
    }

    /// Adds what a later frame shows.
    pub fn note_frame(&mut self, frame: &Sightings)
        ensures { self.new ≡ with_later frame.now self.old }
    {
        self.detected = self.detected.or(frame.detected);
        self.possible = self.possible.or(frame.possible);
        self.stored = self.stored.or(frame.stored);
    }

    /// The cause that they say.
    pub fn cause(&self) -> Cause
        ensures { result ≡ cause_row self.now.detected self.now.possible self.now.stored
            self.now.excited self.now.told }
    {
        if let Some(place) = self.detected {
            return Cause::Detected(place);
        }
        if let Some(place) = self.possible {
            return Cause::Possible(place);
        }
        if let Some(place) = self.stored {
            return Cause::Stored(place);
        }
        match self.excited {
            Some(vector) => Cause::Stopped(vector),
            None if self.told => Cause::Unexcited,
            None => Cause::Unknown,
        }
    }
}
