//! What reads what in one frame, and in which order its items are fired.
ghost use Rattle.std.specs.Prelude.{◌≡◌, ◌<◌, ◌*◌, [], IfOk, length, get_or};
ghost use Rattle.ht_net.specs.Circuit.Netlist.{IsCircuit, net_count};
ghost use Rattle.ht_events.specs.Ranks.{AreRanked};
ghost use Rattle.ht_events.specs.Items.{frame_items, frame_of, local_of, driven_net};
ghost use Rattle.ht_events.specs.FramePlans.{IsOffsetTable};

use crate::frame_length::FrameLength;
use crate::plan::MAX_FRAMES;
use crate::ranks::ranking;
use crate::readers::Readers;
use ht_net::{Circuit, NetId};
use std::alloc::{AllocError, Global};
use std::marker::Model;

/// What reads each net in a frame of a circuit, and the order in which items are fired there: the same for every
/// window. Items of a frame count from 0, and so do their ranks.
#[derive(Drop)]
pub struct FramePlan<'c> {
    circuit: &'c Circuit,
    // for each net the items that read it, by how far they stand from the first position of its frame
    readers: Readers,
    // the items of a frame in the order in which they are fired, and the rank of each there
    order: Vec<u32>,
    ranks: Vec<u32>,
    frame_length: FrameLength,
}

impl<'c> Model for FramePlan<'c> {
    ghost use Rattle.ht_events.specs.FramePlans.{FramePlanState};

    ghost Value = { FramePlanState };

    ghost use Rattle.ht_events.specs.FramePlans.{IsFramePlan};

    ghost view = { λ a. record {
      circuit = a.circuit.now;
      readers = a.readers;
      order = a.order.items;
      ranks = a.ranks.items;
    } };

    ghost invariant = { IsFramePlan };
}

impl<'c> FramePlan<'c> {
    /// The plan of a circuit's frames.
    ///
    /// # Errors
    /// Out of memory.
    pub fn new(alloc: Global, circuit: &'c Circuit) -> Result<FramePlan<'c>, AllocError>
        ensures { IfOk result (λ plan. plan.circuit ≡ circuit.now) }
    {
        // for the proof: the circuit is well formed
        let _ = circuit.nets();
        let dffs = circuit.dffs();
        let (order, ranks) = ranking(alloc, circuit, dffs)?;
        let mut readers = Readers::new(alloc, circuit)?;
        readers.place(&ranks, dffs);
        Ok(FramePlan {
            circuit,
            readers,
            order,
            ranks,
            frame_length: FrameLength::new(dffs + circuit.gates()),
        })
    }

    /// The circuit.
    pub fn circuit(&self) -> &'c Circuit
        ensures { result.now ≡ self.now.circuit }
    {
        self.circuit
    }

    /// How many items a frame has.
    pub fn items(&self) -> u32
        ensures items { result ≡ frame_items self.now.circuit }
        ensures circuit { IsCircuit self.now.circuit }
    {
        // for the proof: the circuit is well formed
        let _ = self.circuit.nets();
        self.frame_length.items()
    }

    /// An item's frame, and its index there, from 0.
    pub fn split(&self, item: u32) -> (u32, u32)
        requires { item < MAX_FRAMES * frame_items self.now.circuit }
        ensures frame { result.0 ≡ frame_of self.now.circuit item }
        ensures local { result.1 ≡ local_of self.now.circuit item }
    {
        self.frame_length.split(item)
    }

    /// The net that an item of a frame drives.
    pub fn net(&self, local: u32) -> NetId
        requires { local < frame_items self.now.circuit }
        ensures net { result.0 ≡ driven_net self.now.circuit local }
        ensures known { result.0 < net_count self.now.circuit }
    {
        // for the proof: the circuit is well formed
        let _ = self.circuit.nets();
        NetId(self.circuit.inputs() + local)
    }

    /// The rank of an item of a frame.
    pub fn rank(&self, local: u32) -> u32
        requires { local < frame_items self.now.circuit }
        ensures rank { result ≡ get_or self.now.ranks local 0 }
        ensures inside { result < frame_items self.now.circuit }
        ensures ranking { AreRanked self.now.circuit (length self.now.circuit.dffs) self.now.order
            self.now.ranks }
    {
        self.ranks[local as usize]
    }

    /// The item of a frame with this rank.
    pub fn item(&self, rank: u32) -> u32
        requires { rank < frame_items self.now.circuit }
        ensures item { result ≡ get_or self.now.order rank 0 }
        ensures inside { result < frame_items self.now.circuit }
        ensures ranking { AreRanked self.now.circuit (length self.now.circuit.dffs) self.now.order
            self.now.ranks }
    {
        self.order[rank as usize]
    }

    /// How far from the first position of a frame the items stand that read a net of it.
    pub fn load_offsets(&self, net: NetId) -> &[u32]
        requires { net.0 < net_count self.now.circuit }
        ensures offsets { result.now ≡ get_or self.now.readers net.0 [] }
        ensures table { IsOffsetTable self.now.circuit self.now.ranks self.now.readers }
        ensures ranking { AreRanked self.now.circuit (length self.now.circuit.dffs) self.now.order
            self.now.ranks }
    {
        self.readers.row(net)
    }
}
