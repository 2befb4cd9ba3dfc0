//! Which machines of a frame need a lane, and which act alike.
ghost use Rattle.std.specs.Prelude.{◌≡◌, ◌<◌, ◌++◌, ◌∷◌, [], ℕ, List, true, false, length, get_or, replicate, IfOk, OnOk};
ghost use Rattle.ht_tern.specs.declared.tern.Tern as tern;
ghost use Rattle.ht_net.specs.Circuit.Netlist.{net_count};
ghost use Rattle.ht_faults.specs.Sites.{faults_of};
ghost use Rattle.ht_stems.specs.Arrivals.{HasLine};
ghost use Rattle.ht_stems.specs.ArrivedFrames.{AreGoodValues};
ghost use Rattle.ht_stems.specs.ArrivalsView.{good_of_net};
ghost use Rattle.ht_proofs.specs.Followers.{no_firsts};
ghost use Rattle.ht_causes.specs.Tracks.{AreHeld};
ghost use Rattle.ht_causes.specs.Seats.{AreAssigned, IsSeatAt, IsSeated, seat_lane, seat_leads};

use crate::track::Track;
use ht_faults::FaultList;
use ht_net::{Fault, NetId};
use ht_proofs::Firsts;
use ht_stems::{Arrival, Arrivals};
use ht_tern::Tern;
use std::alloc::{AllocError, Global};

/// The lanes of a frame.
#[derive(Drop)]
pub struct Lanes {
    /// The number of the fault in each lane.
    pub leads: Vec<u32>,
    /// The lane of the machine that acts as each fault's does, which is the good one where there is no lane.
    pub by_fault: Vec<Option<usize>>,
}

/// Where it is looked up what a machine shows in a frame.
#[derive(Clone, Copy)]
pub enum Seat {
    /// It acts as the good one.
    Good,
    /// It acts as the one in this lane.
    Shared(usize),
    /// It takes the next lane.
    Next,
}

// The lane of the first machine whose effect comes to a net with a value, or the next lane, which then is the first.
fn seat_at(firsts: &mut [Firsts], net: NetId, value: Tern, next: usize) -> Seat
    requires { net.0 < length firsts.old }
    ensures { IsSeatAt firsts.old net.0 value next result firsts.new }
{
    let here = firsts[net.index()];
    if let Some(lane) = here.at(value) {
        return Seat::Shared(lane);
    }
    firsts[net.index()] = here.with(value, next);
    Seat::Next
}

// Where it is looked up what the machine of a fault shows, if it is simulated. One that holds the good latches shares a
// lane with those whose effects come to the same net with the same value, and needs none where its effect dies.
fn find_seat(
    arrivals: &mut Arrivals,
    firsts: &mut [Firsts],
    fault: Fault,
    live: bool,
    holds: bool,
    track: &Track,
    next: usize,
) -> Seat
    requires holds { holds ≡ true → track.now.diffs ≡ [] }
    requires line { HasLine arrivals.old.circuit fault.site }
    requires table { length firsts.old ≡ net_count arrivals.old.circuit }
    ensures seated { (vector good : List tern.Tern) → AreGoodValues arrivals.old.circuit vector good
        (good_of_net arrivals.old) → IsSeated arrivals.old.circuit vector good fault live track.now
        firsts.old next result firsts.new }
    ensures table { length firsts.new ≡ length firsts.old }
    ensures same { arrivals.new ≡ arrivals.old }
{
    if !live {
        return Seat::Good;
    }
    // for the proof: the contract alone names it
    let _ = track;
    if !holds {
        return Seat::Next;
    }
    match arrivals.fault(fault) {
        Arrival::Dies => Seat::Good,
        Arrival::AtStem { net, value } => seat_at(firsts, net, value, next),
        _ => Seat::Next,
    }
}

// Gives fault `i` its seat.
fn take_seat(
    seat: Seat,
    i: u32,
    leads: &mut Vec<u32>,
    by_fault: &mut Vec<Option<usize>>,
) -> Result<(), AllocError>
    ensures leads { OnOk result (leads.new.items ≡ seat_leads seat i leads.old.items) }
    ensures lanes { OnOk result (by_fault.new.items
        ≡ by_fault.old.items ++ seat_lane seat (length leads.old.items) ∷ []) }
{
    match seat {
        Seat::Good => by_fault.push(None)?,
        Seat::Shared(lane) => by_fault.push(Some(lane))?,
        Seat::Next => {
            by_fault.push(Some(leads.len()))?;
            leads.push(i)?;
        }
    }
    Ok(())
}

// No effect has come to any net.
fn clear_firsts(firsts: &mut [Firsts])
    ensures { firsts.new ≡ replicate (length firsts.old) no_firsts }
{
    firsts.fill(Firsts::none());
}

/// Gives each fault that is simulated its lane, where it needs one.
///
/// # Errors
/// Out of memory.
pub fn assign_lanes(
    alloc: Global,
    arrivals: &mut Arrivals,
    firsts: &mut [Firsts],
    faults: &FaultList,
    live: &[bool],
    holds: &[bool],
    tracks: &[Track],
) -> Result<Lanes, AllocError>
    requires faults { faults.now ≡ faults_of arrivals.old.circuit }
    requires live { length live.now ≡ length faults.now }
    requires tracks { length tracks.now ≡ length faults.now }
    requires holds { length holds.now ≡ length faults.now }
    requires held { AreHeld holds.now tracks.now }
    requires table { length firsts.old ≡ net_count arrivals.old.circuit }
    ensures lanes { IfOk result (λ lanes. (vector good : List tern.Tern)
        → AreGoodValues arrivals.old.circuit vector good (good_of_net arrivals.old)
        → AreAssigned arrivals.old.circuit vector good live.now tracks.now (length faults.now)
        lanes.leads.items lanes.by_fault.items) }
    ensures table { length firsts.new ≡ length firsts.old }
    ensures same { arrivals.new ≡ arrivals.old }
{
    clear_firsts(firsts);
    let mut leads = Vec::new(alloc);
    let mut by_fault = Vec::with_capacity(alloc, live.len())?;
    for i in 0..faults.len() {
        let k = i as usize;
        let seat = find_seat(
            arrivals,
            firsts,
            faults.get(i),
            live[k],
            holds[k],
            &tracks[k],
            leads.len(),
        );
        take_seat(seat, i, &mut leads, &mut by_fault)?;
    }
    Ok(Lanes { leads, by_fault })
}
