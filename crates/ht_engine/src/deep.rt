//! The deep work on one fault: also a family that closes, and a sweep that goes on from the states reached.
ghost use Rattle.std.specs.Prelude.{◌≡◌, ◌≤◌, IfOk, MatchOption};
ghost use Rattle.ht_net.specs.Detect.Detection.{IsStart};
ghost use Rattle.ht_tree.specs.Window.Windows.{state_pair};
ghost use Rattle.ht_tree.specs.declared.limits.TheConstants.{MAX_BUDGET};
ghost use Rattle.ht_engine.specs.DeepWork.{AreLeastRows, DeepWorkHolds, IsDeepWork, IsOpenWork, IsWorkOnward, NoneCloses, ShowsOn};
ghost use Rattle.ht_engine.specs.Enough.{IsEnough};
ghost use Rattle.ht_engine.specs.FaultWork.{HoldsIfAny, IsOpenFault};

use crate::settings::Settings;
use crate::work::{FaultTask, Rounds, Work, refute, search_list};
use ht_families::{closing, rows_of};
use ht_forward::{Swept, sweep_on_from_bases};
use ht_invariant::Invariant;
use ht_items::Items;
use ht_net::{Circuit, Fault};
use ht_tern::Tern;
use ht_tree::{Entry, FamilyRow, Token, Told};
use ht_window::{Bases, PairState};
use std::alloc::{AllocError, Global};

/// The deep work on a fault, where the vectors so far lead the good and the faulty machine from the start to these
/// states: the rounds of refutation; where they leave it open, a family that closes; where none does, the attempt at
/// the first told frame and the sweep; and where these find nothing, a sweep from the states reached, with a budget of
/// its own.
///
/// # Errors
/// Out of memory.
// A refutation is asked for before a family, since *untestable* says more than *undetectable*.
pub fn work_deep(
    alloc: Global,
    bases: &mut Bases,
    fault: Fault,
    settings: &Settings,
    invariant: &Invariant,
    states: PairState,
) -> Result<Work, AllocError>
    requires budget { settings.now.budget ≤ MAX_BUDGET }
    requires latches { IsStart bases.old.circuit settings.now.start }
    requires invariant { HoldsIfAny bases.old.circuit invariant.now }
    requires good { IsStart bases.old.circuit states.good }
    requires bad { IsStart bases.old.circuit states.bad }
    ensures circuit { bases.new.circuit ≡ bases.old.circuit }
    ensures answer { IfOk result (IsDeepWork bases.old.circuit fault settings.now
        (state_pair states.good states.bad) invariant.now) }
    ensures holds { IfOk result
        (DeepWorkHolds bases.old.circuit fault settings.now states.good states.bad) }
    ensures enough { IfOk result
        (IsEnough bases.old.circuit fault settings.now.budget invariant.now.clauses) }
{
    // for the proof: the circuit is well formed
    let _ = bases.circuit().nets();
    let task = FaultTask {
        fault,
        budget: settings.budget,
        invariant,
    };
    match refute(alloc, bases, &task)? {
        Rounds::Refute(entry) => Ok(Work::Entry(entry)),
        Rounds::LeaveOpen { told, walk } => {
            work_open(alloc, bases, fault, settings, told, walk, states)
        },
    }
}

// The deep work on a fault that the rounds of refutation left open: by these told frames, and by the walk that spent
// the budget after them unless they come to an output.
fn work_open(
    alloc: Global,
    bases: &mut Bases,
    fault: Fault,
    settings: &Settings,
    told: Items<Told>,
    walk: Option<Items<Token>>,
    states: PairState,
) -> Result<Work, AllocError>
    requires budget { settings.now.budget ≤ MAX_BUDGET }
    requires latches { IsStart bases.old.circuit settings.now.start }
    requires open { IsOpenFault bases.old.circuit fault settings.now.budget told walk }
    requires good { IsStart bases.old.circuit states.good }
    requires bad { IsStart bases.old.circuit states.bad }
    ensures circuit { bases.new.circuit ≡ bases.old.circuit }
    ensures answer { IfOk result (IsOpenWork bases.old.circuit fault settings.now
        (state_pair states.good states.bad)) }
    ensures holds { IfOk result
        (DeepWorkHolds bases.old.circuit fault settings.now states.good states.bad) }
{
    match close(alloc, bases.circuit(), fault, settings.start.as_slice()) {
        Ok(None) => search_open(alloc, bases, fault, settings, told, walk, states),
        Ok(Some(rows)) => {
            // for the proof: dropped by name
            drop(told);
            drop(walk);
            drop(states);
            Ok(Work::Entry(Entry::UndetectableBySets { rows }))
        },
        Err(error) => {
            drop(told);
            drop(walk);
            drop(states);
            Err(error)
        },
    }
}

// The deep work on a fault for which no family closes: the search for a list, and the sweep from the states reached.
fn search_open(
    alloc: Global,
    bases: &mut Bases,
    fault: Fault,
    settings: &Settings,
    told: Items<Told>,
    walk: Option<Items<Token>>,
    states: PairState,
) -> Result<Work, AllocError>
    requires budget { settings.now.budget ≤ MAX_BUDGET }
    requires open { IsOpenFault bases.old.circuit fault settings.now.budget told walk }
    requires none { NoneCloses bases.old.circuit fault settings.now.start }
    requires good { IsStart bases.old.circuit states.good }
    requires bad { IsStart bases.old.circuit states.bad }
    ensures circuit { bases.new.circuit ≡ bases.old.circuit }
    ensures answer { IfOk result (IsOpenWork bases.old.circuit fault settings.now
        (state_pair states.good states.bad)) }
    ensures holds { IfOk result
        (DeepWorkHolds bases.old.circuit fault settings.now states.good states.bad) }
{
    match search_list(alloc, bases, fault, settings.budget, told, walk) {
        Ok(Work::Entry(entry)) => sweep_on(alloc, bases, fault, settings.budget, states, entry),
        Ok(Work::List(list)) => {
            // for the proof: dropped by name
            drop(states);
            Ok(Work::List(list))
        },
        Err(error) => {
            drop(states);
            Err(error)
        },
    }
}

// The rows of the least family that closes for a fault and a start, if one closes.
fn close(
    alloc: Global,
    circuit: &Circuit,
    fault: Fault,
    start: &[Tern],
) -> Result<Option<Items<FamilyRow>>, AllocError>
    requires { IsStart circuit.now start.now }
    ensures { IfOk result (λ rows. MatchOption rows (NoneCloses circuit.now fault start.now)
        (AreLeastRows circuit.now fault start.now)) }
{
    // for the proof: the flip-flops are fewer than 2^32
    let _ = circuit.dffs();
    match closing(alloc, circuit, fault, start)? {
        None => Ok(None),
        Some(family) => Ok(Some(Items::from_vec(rows_of(alloc, start, &family)?))),
    }
}

// The sweep from a pair of states: the list that it finds, or where it spends its budget the entry with which the work
// before it gave up.
fn sweep_on(
    alloc: Global,
    bases: &mut Bases,
    fault: Fault,
    budget: u64,
    states: PairState,
    entry: Entry,
) -> Result<Work, AllocError>
    requires budget { budget ≤ MAX_BUDGET }
    requires good { IsStart bases.old.circuit states.good }
    requires bad { IsStart bases.old.circuit states.bad }
    ensures circuit { bases.new.circuit ≡ bases.old.circuit }
    ensures answer { IfOk result (IsWorkOnward bases.old.circuit fault budget
        (state_pair states.good states.bad) entry) }
    ensures holds { IfOk result
        (ShowsOn bases.old.circuit fault states.good states.bad) }
{
    match sweep_on_from_bases(alloc, bases, fault, states, budget) {
        Ok(Swept::Spent { walks: _ }) => Ok(Work::Entry(entry)),
        Ok(Swept::Found { list }) => {
            // for the proof: dropped by name
            drop(entry);
            Ok(Work::List(list))
        },
        Err(error) => {
            drop(entry);
            Err(error)
        },
    }
}
