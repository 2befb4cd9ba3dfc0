//! The representatives that aren't detected yet.
ghost use Rattle.std.specs.Prelude.{◌≡◌, is_some, length};
ghost use Rattle.ht_faults.specs.Classes.{AreClasses};
ghost use Rattle.ht_proofs.specs.Detections.{place_at};
ghost use Rattle.ht_bred.specs.Bred.{detected_of};

use ht_breed::Detected;
use ht_faults::{Classes, FaultList};
use ht_net::{Fault, Place};
use ht_proofs::ClassGrader;
use std::alloc::{AllocError, Global};

/// A representative that isn't detected: the fault's number, and its number among all representatives.
#[derive(Clone, Copy)]
pub struct Live {
    pub fault: u32,
    pub rank: u32,
}

/// All representatives, rising.
///
/// # Errors
/// Out of memory.
pub fn all_live(alloc: Global, classes: &Classes) -> Result<Vec<Live>, AllocError> {
    let mut live = Vec::new(alloc);
    let mut rank: u32 = 0;
    for fault in classes.representatives() {
        live.push(Live {
            fault: *fault,
            rank,
        })?;
        rank = rank.saturating_add(1);
    }
    Ok(live)
}

/// The faults that represent all classes, rising.
///
/// # Errors
/// Out of memory.
pub fn own_faults(
    alloc: Global,
    faults: &FaultList,
    classes: &Classes,
) -> Result<Vec<Fault>, AllocError> {
    let mut own = Vec::new(alloc);
    for fault in classes.representatives() {
        if *fault < faults.len() {
            own.push(faults.get(*fault))?;
        }
    }
    Ok(own)
}

// The vector at which a grader's vectors detect a representative first.
fn detected_at(grader: &ClassGrader, classes: &Classes, fault: u32) -> Option<u64>
    requires same { grader.now.representatives ≡ classes.now }
    requires classes { AreClasses grader.now.machines.circuit classes.now }
{
    if fault >= classes.len() {
        return None;
    }
    if classes.of(fault) != fault {
        return None;
    }
    match grader.verdict(fault) {
        Some(place) => Some(place.vector),
        None => None,
    }
}

/// Takes those away that a grader's vectors detect: their numbers among all representatives, and the vectors at which, of
/// those after the first `before`.
///
/// # Errors
/// Out of memory.
pub fn take_detected(
    alloc: Global,
    grader: &ClassGrader,
    classes: &Classes,
    before: u64,
    live: &mut Vec<Live>,
) -> Result<Vec<Detected>, AllocError>
    requires same { grader.now.representatives ≡ classes.now }
    requires classes { AreClasses grader.now.machines.circuit classes.now }
{
    let mut left = Vec::new(alloc);
    let mut detected = Vec::new(alloc);
    for one in live.iter() {
        if let Some(vector) = detected_at(grader, classes, one.fault) {
            detected.push(Detected {
                fault: one.rank,
                vector: vector.saturating_sub(before),
            })?;
        } else {
            left.push(*one)?;
        }
    }
    *live = left;
    Ok(detected)
}

// Whether a fault has a place.
fn has_place(places: &[Option<Place>], fault: u32) -> bool
    ensures { result ≡ is_some (place_at places.now fault) }
{
    match places.get(fault as usize) {
        Some(place) => place.is_some(),
        None => false,
    }
}

/// How many representatives have a first detection.
pub fn detected_count(classes: &Classes, places: &[Option<Place>]) -> usize
    ensures { result ≡ length (detected_of classes.now places.now) }
{
    let own = classes.representatives();
    own.iter()
        .filter(|fault| has_place(places, **fault))
        .count()
}
