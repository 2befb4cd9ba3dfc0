//! The faults of a part.
ghost use Rattle.std.specs.Prelude.{◌≡◌, ◌==◌, ◌&&◌, ◌<◌, ◌+◌, ◌-◌, ◌++◌, ◌∷◌, ◌%◌, ◌^◌, [], length, List, ℕ, OnOk, IfOk};
ghost use Rattle.ht_faults.specs.Classes.{is_representative};
ghost use Rattle.ht_texts.specs.Counts.{one_if};
ghost use Rattle.ht_parts.specs.declared.part.Part.{Part as SpecPart};
ghost use Rattle.ht_parts.specs.Parts.{IsPart, SetsAside, has_member, part_members, part_saids};

use crate::part::Part;
use ht_faults::Classes;
use ht_net::Place;
use ht_texts::Said;
use std::alloc::{AllocError, Global};

// Whether a fault is its own representative.
fn is_own(classes: &Classes, i: u32) -> bool
    requires { i < length classes.now }
    ensures { result ≡ is_representative classes.now i }
{
    classes.of(i) == i
}

// Deals out the next fault: whether it is of the part, and the turn after it.
fn deal(members: &mut Vec<bool>, turn: &mut u32, own: bool, part: Part) -> Result<(), AllocError>
    requires part { IsPart part }
    requires turn { turn.old < 2 ^ 32 - 1 }
    ensures member { OnOk result (members.new.items
        ≡ members.old.items ++ (own && (turn.old % part.count == part.index)) ∷ []) }
    ensures turn { OnOk result (turn.new ≡ turn.old + one_if own) }
{
    members.push(own && *turn % part.count == part.index)?;
    if own {
        *turn += 1;
    }
    Ok(())
}

/// Of each fault, by number from 0, whether it is of the part.
///
/// # Errors
/// Out of memory.
pub fn members_of(alloc: Global, classes: &Classes, part: Part) -> Result<Vec<bool>, AllocError>
    requires { IsPart part }
    ensures { IfOk result (λ members. members.items ≡ part_members classes.now part) }
{
    let mut members = Vec::with_capacity(alloc, classes.len() as usize)?;
    let mut turn = 0;
    for i in 0..classes.len() {
        deal(&mut members, &mut turn, is_own(classes, i), part)?;
    }
    Ok(members)
}

/// Whether a fault is a member; none after the last one is.
pub fn is_member(members: &[bool], fault: usize) -> bool
    ensures { result ≡ has_member members.now fault }
{
    fault < members.len() && members[fault]
}

// Sets the verdict of a fault aside, unless it is a member.
fn set_aside(members: &[bool], saids: &mut Vec<Said>, i: usize)
    requires { i < length saids.old.items }
    ensures { SetsAside members.now saids.old.items saids.new.items i }
{
    if !is_member(members, i) {
        saids[i] = Said::Detected(Place {
            vector: 0,
            output: 0,
        });
    }
}

/// Sets the verdicts of all faults aside that aren't of the part.
pub fn set_others_aside(members: &[bool], saids: &mut Vec<Said>)
    ensures { (representatives : List ℕ) (part : SpecPart)
        → members.now ≡ part_members representatives part
        → length saids.old.items ≡ length representatives
        → saids.new.items ≡ part_saids representatives part saids.old.items }
{
    for i in 0..saids.len() {
        set_aside(members, saids, i);
    }
}
