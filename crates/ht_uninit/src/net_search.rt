//! The search for a net that isn't unknown.
ghost use Rattle.std.specs.Prelude.{◌≡◌, ◌<◌, ℕ, [], IfOk, OnOk};
ghost use Rattle.ht_net.specs.Circuit.Netlist.{net_count};
ghost use Rattle.ht_search.specs.Outcomes.{IsOutcome};
ghost use Rattle.ht_search.specs.WindowSteps.{route_of, steps_under};
ghost use Rattle.ht_tree.specs.Walk.Searches.{node_at};
ghost use Rattle.ht_uninit.specs.HeldStates.{guide_for};
ghost use Rattle.ht_uninit.specs.HeldWindows.{held_guide, known_status};
ghost use Rattle.ht_uninit.specs.Rounds.{IsOutput};

use crate::held_window::HeldWindow;
use crate::record::Out3;
use ht_items::Items;
use ht_net::NetId;
use ht_pairs::PairSet;
use ht_search::{Outcome, Point, Problem, search};
use ht_tern::Tern;
use ht_tree::{Choice, Status3};
use std::alloc::{AllocError, Global};

// Sure where X is no member of a set, dead where it is the only one.
fn known_status(set: PairSet) -> Status3
    ensures { result ≡ known_status set }
{
    let known = !set.has(Tern::Unk, Tern::Unk);
    if known {
        return Status3::Sure;
    }
    let single = set.is_single();
    if single {
        return Status3::Dead;
    }
    Status3::Open
}

/// A window in which a set is held unknown, and a net that is to be known.
#[derive(Drop)]
pub struct NetSearch<'c> {
    pub held: HeldWindow<'c>,
    pub net: NetId,
    ghost known: { net.0 < net_count held.circuit },
}

impl<'c> Problem for NetSearch<'c> {
    ghost use Rattle.ht_uninit.specs.HeldStates.{HeldNet};
    ghost use Rattle.ht_uninit.specs.Shallow.{held_shallow};

    ghost Subject = { HeldNet };

    ghost subject = { λ s. record {
      circuit = s.held.circuit;
      members = s.held.members;
      net = s.net.0;
    } };

    ghost guide = { guide_for };

    ghost route = { λ s. route_of (steps_under [] s.held.path) };

    ghost shallow = { λ s. held_shallow s.held.circuit s.held.members s.net.0 };

    fn status(&self) -> Status3 {
        known_status(self.held.net_set(self.net))
    }

    fn pick(&self) -> Choice {
        self.held.walk_back(self.net)
    }

    fn decide(&mut self, var: u32, value: Tern) -> Result<(), AllocError> {
        self.held.decide(var, value)?;
        Ok(())
    }

    fn deeper(&mut self) -> Result<bool, AllocError> {
        Ok(false)
    }

    fn mark(&self) -> Point {
        Point {
            level: 0,
            mark: self.held.decision_count() as u64,
        }
    }

    fn undo(&mut self, point: Point) {
        self.held.undo_to(point.mark as usize);
    }
}

/// What the search for a net came to, and the window, in which nothing is decided again.
#[derive(Drop)]
pub struct Searched<'c> {
    pub held: HeldWindow<'c>,
    pub out: Out3,
}

// What an outcome says, where the window stands as the search left it.
fn said(alloc: Global, held: &HeldWindow, outcome: Outcome) -> Result<Out3, AllocError>
    ensures { IfOk result (λ out. (budget x : ℕ)
        → IsOutcome (held_guide held.now.circuit held.now.members x) budget 1
        (node_at held.now.path) outcome
        → IsOutput held.now.circuit budget held.now.members x out) }
{
    match outcome {
        Outcome::Closed { tokens } => Ok(Out3::Mute {
            tokens: Items::from_vec(tokens),
        }),
        Outcome::Found { tokens: _ } => {
            let sets = held.sets(alloc)?;
            Ok(Out3::Seen { sets })
        },
        Outcome::Spent { tokens } => Ok(Out3::Open {
            tokens: Items::from_vec(tokens),
        }),
    }
}

// Searches a problem in whose window nothing is decided, which stands then as the search left it.
fn search_from_start(
    alloc: Global,
    problem: &mut NetSearch,
    budget: u64,
) -> Result<Out3, AllocError>
    requires { problem.old.held.path ≡ [] }
    ensures circuit { OnOk result (problem.new.held.circuit ≡ problem.old.held.circuit) }
    ensures members { OnOk result (problem.new.held.members ≡ problem.old.held.members) }
    ensures out { IfOk result (IsOutput problem.old.held.circuit budget
        problem.old.held.members problem.old.net.0) }
{
    let outcome = search(alloc, problem, budget, 1)?;
    said(alloc, &problem.held, outcome)
}

/// Searches for decisions under which a net isn't unknown, within a budget of which each token takes one.
///
/// # Errors
/// Out of memory.
pub fn search_net<'c>(
    alloc: Global,
    held: HeldWindow<'c>,
    net: NetId,
    budget: u64,
) -> Result<Searched<'c>, AllocError>
    requires net { net.0 < net_count held.circuit }
    requires path { held.path ≡ [] }
    ensures circuit { IfOk result (λ s. s.held.circuit ≡ held.entry.circuit) }
    ensures members { IfOk result (λ s. s.held.members ≡ held.entry.members) }
    ensures path { IfOk result (λ s. s.held.path ≡ []) }
    ensures out { IfOk result
        (λ s. IsOutput held.entry.circuit budget held.entry.members net.0 s.out) }
{
    let mut problem = NetSearch { held, net };
    let out = search_from_start(alloc, &mut problem, budget);
    let NetSearch { mut held, net: _ } = problem;
    match out {
        Ok(out) => {
            held.undo_to(0);
            Ok(Searched { held, out })
        },
        Err(error) => {
            // for the proof: dropped by name
            drop(held);
            Err(error)
        },
    }
}
