//! A search in breadth over nets, by frames of distance.
ghost use Rattle.std.specs.Prelude.{◌≡◌, ◌<◌, ◌+◌, [], length, OnOk};
ghost use Rattle.ht_net.specs.Circuit.Netlist.{Netlist, net_count};
ghost use Rattle.ht_relevant.specs.declared.way.Way.{Way};
ghost use Rattle.ht_relevant.specs.Distances.{AreFollowed, IsLower, number_of};
ghost use Rattle.ht_relevant.specs.Steps.{AreSpread};

use crate::distances::Distances;
use crate::follow::follow;
use crate::way::Way;
use ht_events::FramePlan;
use std::alloc::AllocError;

// Follows the nets of one distance, until none is left.
fn spread_here(
    frame_plan: &FramePlan,
    way: Way,
    distances: &mut Distances,
) -> Result<(), AllocError>
    requires count { length distances.old.numbers ≡ net_count frame_plan.now.circuit }
    requires followed { AreFollowed frame_plan.now.circuit way distances.old.distance
        distances.old }
    ensures lower { OnOk result (IsLower distances.old distances.new) }
    ensures distance { OnOk result (distances.new.distance ≡ distances.old.distance) }
    ensures followed { OnOk result (AreFollowed frame_plan.now.circuit way distances.new.distance
        distances.new) }
    ensures none { OnOk result (distances.new.here ≡ []) }
{
    'spread: while let Some(net) = distances.pop() {
        follow(frame_plan, way, net, distances)?;
    }
    Ok(())
}

// Goes on by a frame: the nets that are to get a number there get it.
fn go_on(distances: &mut Distances) -> Result<(), AllocError>
    requires more { distances.old.distance + 1 < distances.old.frames }
    requires none { distances.old.here ≡ [] }
    ensures lower { OnOk result (IsLower distances.old distances.new) }
    ensures distance { OnOk result (distances.new.distance ≡ distances.old.distance + 1) }
    ensures followed { OnOk result ((c : Netlist) → (way : Way)
        → AreFollowed c way distances.old.distance distances.old
        → AreFollowed c way distances.new.distance distances.new) }
{
    distances.advance();
    'next: while let Some(net) = distances.pop_next() {
        distances.put(net)?;
    }
    Ok(())
}

/// Gives each net a number to which a way leads from those that have one, in fewer frames than there are.
///
/// # Errors
/// Out of memory.
pub fn spread(frame_plan: &FramePlan, way: Way, distances: &mut Distances) -> Result<(), AllocError>
    requires count { length distances.old.numbers ≡ net_count frame_plan.now.circuit }
    requires first { distances.old.distance ≡ 0 }
    requires followed { AreFollowed frame_plan.now.circuit way 0 distances.old }
    ensures lower { OnOk result (IsLower distances.old distances.new) }
    ensures spread { OnOk result (AreSpread frame_plan.now.circuit way distances.old.frames
        (number_of distances.new)) }
{
    let frames = distances.frames();
    spread_here(frame_plan, way, distances)?;
    for distance in 1..frames {
        let _ = distance;
        go_on(distances)?;
        spread_here(frame_plan, way, distances)?;
    }
    Ok(())
}
