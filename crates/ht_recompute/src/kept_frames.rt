//! The frames of windows, kept from one window to the next.
ghost use Rattle.std.specs.Prelude.{◌≡◌, ◌<◌, ◌≤◌, length, IfOk, OnOk};
ghost use Rattle.std.specs.List.{All};
ghost use Rattle.ht_net.specs.Circuit.Netlist.{IsCircuit};
ghost use Rattle.ht_net.specs.Frames.Frame.{frame_outputs, next_state};
ghost use Rattle.ht_events.specs.declared.schedule.Schedule.{Schedule};
ghost use Rattle.ht_events.specs.Schedules.{IsSchedule};
ghost use Rattle.ht_tree.specs.Window.Windows.{pair_set_rules};
ghost use Rattle.ht_recompute.specs.NetSetsOf.{AreNetSets};

use crate::net_sets::{NetSets, Settling};
use ht_events::Schedule;
use ht_net::{Circuit, Fault};
use ht_pairs::PairSet;
use std::alloc::{AllocError, Global};
use std::marker::Model;
use std::mem;
use std::rc::Rc;

/// Room for the frames of windows, kept from one window to the next: a frame settles from where it was, under whatever
/// fault that was.
#[derive(Drop)]
pub struct KeptFrames<'c> {
    circuit: &'c Circuit,
    // shared with the window that has the frames, so that frames that an error loses are made again without it
    schedule: Rc<Schedule>,
    // the nets of each frame
    sets: Vec<NetSets>,
}

impl<'c> Model for KeptFrames<'c> {
    ghost use Rattle.ht_recompute.specs.KeptFramesOf.{KeptState};

    ghost Value = { KeptState };

    ghost use Rattle.ht_recompute.specs.KeptFramesOf.{kept_state, AreKeptFrames};

    ghost view = { kept_state };

    ghost invariant = { AreKeptFrames };
}

// Makes frames of a circuit until there are so many.
fn make_frames(
    alloc: Global,
    circuit: &Circuit,
    count: usize,
    sets: &mut Vec<NetSets>,
) -> Result<(), AllocError>
    ensures frames { (schedule : Schedule) → IsSchedule circuit.now schedule
        → All (AreNetSets circuit.now schedule) sets.old.items
        → All (AreNetSets circuit.now schedule) sets.new.items }
    ensures count { OnOk result (count ≤ length sets.new.items) }
{
    while sets.len() < count {
        sets.push(NetSets::new(alloc, circuit)?)?;
    }
    Ok(())
}

impl<'c> KeptFrames<'c> {
    /// No frame of a circuit yet.
    ///
    /// # Errors
    /// Out of memory.
    pub fn new(alloc: Global, circuit: &'c Circuit) -> Result<KeptFrames<'c>, AllocError>
        ensures { IfOk result (λ kept. kept.circuit ≡ circuit.now) }
    {
        let schedule = Rc::new(alloc, Schedule::new(alloc, circuit)?)?;
        Ok(KeptFrames {
            circuit,
            schedule,
            sets: Vec::new(alloc),
        })
    }

    /// The circuit.
    pub fn circuit(&self) -> &'c Circuit
        ensures circuit { result.now ≡ self.now.circuit }
        ensures valid { IsCircuit self.now.circuit }
    {
        self.circuit
    }

    /// Takes all frames out, for a window.
    ///
    /// # Errors
    /// Out of memory.
    pub fn take(&mut self, alloc: Global) -> Result<KeptFrames<'c>, AllocError>
        ensures taken { IfOk result (λ kept. kept ≡ self.old) }
        ensures circuit { self.new.circuit ≡ self.old.circuit }
    {
        let schedule = self.schedule.clone()?;
        Ok(KeptFrames {
            circuit: self.circuit,
            schedule,
            sets: mem::replace(&mut self.sets, Vec::new(alloc)),
        })
    }

    /// Makes frames until there are so many.
    ///
    /// # Errors
    /// Out of memory.
    pub fn make(&mut self, alloc: Global, count: u32) -> Result<(), AllocError>
        ensures circuit { self.new.circuit ≡ self.old.circuit }
        ensures count { OnOk result (count ≤ self.new.count) }
    {
        make_frames(alloc, self.circuit, count as usize, &mut self.sets)
    }

    /// Runs frame `f`, or the last one that is kept: `outputs` get what the outputs show, and `latches` take what
    /// stands at their data pins.
    pub fn run(
        &mut self,
        f: u32,
        fault: Option<Fault>,
        vector: &[PairSet],
        latches: &mut [PairSet],
        outputs: &mut [PairSet],
    )
        requires some { 0 < self.old.count }
        requires vector { length vector.now ≡ self.old.circuit.inputs }
        requires latches { length latches.old ≡ length self.old.circuit.dffs }
        requires outputs { length outputs.old ≡ length self.old.circuit.outputs }
        ensures same { self.new ≡ self.old }
        ensures latches { latches.new
            ≡ next_state self.old.circuit (pair_set_rules fault) vector.now latches.old }
        ensures outputs { outputs.new
            ≡ frame_outputs self.old.circuit (pair_set_rules fault) vector.now latches.old }
    {
        // windows ask for no later one, but don't say in their contracts how many are kept
        let last = self.sets.len() - 1;
        let under = Settling {
            circuit: self.circuit,
            schedule: &self.schedule,
            fault,
        };
        self.sets[last.min(f as usize)].run(&under, vector, latches, outputs);
    }
}
