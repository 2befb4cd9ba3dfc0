//! What is kept of a machine that runs beside the good one.
ghost use Rattle.std.specs.Prelude.{◌≡◌, IfOk, OnOk};
ghost use Rattle.ht_causes.specs.Tracks.{no_track, with_frame, latch_kept, output_kept};

use crate::cause::LatchPlace;
use crate::sightings::Sightings;
use ht_group::{Diff, Diffs};
use ht_net::Place;
use ht_tern::Tern;
use std::alloc::{AllocError, Global};

/// What vectors show of a fault, and the latches where its machine differs from the good one after them.
#[derive(Drop)]
pub struct Track {
    pub kept: Sightings,
    pub diffs: Diffs,
}

// Overwrites differences with others, in the room that is there.
fn copy_diffs(from: &Diffs, to: &mut Diffs) -> Result<(), AllocError>
    ensures { OnOk result (to.new ≡ from.now) }
{
    to.clear();
    for diff in from.entries() {
        to.push(*diff)?;
    }
    Ok(())
}

impl Track {
    /// Before the first vector, where the machine holds the good latches.
    pub fn none(alloc: Global) -> Track
        ensures { result ≡ no_track }
    {
        Track {
            kept: Sightings::none(),
            diffs: Diffs::new(alloc),
        }
    }

    /// Compares what the machines show at an output.
    pub fn note_output(&mut self, place: Place, good: Tern, faulty: Tern)
        ensures { self.new ≡ output_kept place good faulty self.old }
    {
        self.kept.note_output(place, good, faulty);
    }

    /// Compares what they hold in a flip-flop after a vector, and keeps the faulty value where it differs.
    ///
    /// # Errors
    /// Out of memory.
    pub fn note_latch(
        &mut self,
        place: LatchPlace,
        good: Tern,
        faulty: Tern,
    ) -> Result<(), AllocError>
        ensures { OnOk result (self.new ≡ latch_kept place good faulty self.old) }
    {
        self.kept.note_latch(place, good, faulty);
        if faulty != good {
            self.diffs.push(Diff {
                latch: place.dff,
                value: faulty,
            })?;
        }
        Ok(())
    }

    /// Takes over what the machine, or one that acts alike, shows at vector `t`, and notes what the line of the fault,
    /// which is stuck at a bit, carries there in the good machine.
    ///
    /// # Errors
    /// Out of memory.
    pub fn note_frame(
        &mut self,
        t: u64,
        carried: Tern,
        stuck: bool,
        shown: &Track,
    ) -> Result<(), AllocError>
        ensures { OnOk result (self.new ≡ with_frame t carried stuck shown.now self.old) }
    {
        self.kept.note_carried(t, carried, stuck);
        self.kept.note_frame(&shown.kept);
        copy_diffs(&shown.diffs, &mut self.diffs)
    }
}
