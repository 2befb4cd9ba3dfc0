//! What a window shows of what is looked for, whatever the clauses.
ghost use Rattle.std.specs.Prelude.{◌≡◌, ◌<◌, ◌&&◌, ◌∷◌, [], true, not, None, length};
ghost use Rattle.std.specs.List.{find};
ghost use Rattle.ht_tern.specs.Gate.{tern_of};
ghost use Rattle.ht_pairs.specs.Pairs.{is_member, pair};
ghost use Rattle.ht_tree.specs.declared.window.Spot.TheVariants.{State};
ghost use Rattle.ht_tree.specs.Window.Windows.{is_undetermined};
ghost use Rattle.ht_tree.specs.Window.Places.{set_at, spot_net};
ghost use Rattle.ht_tree.specs.Window.WindowStatus.{status_at, without_place};
ghost use Rattle.ht_tree.specs.Window.WalkBack.{CanWalk, pick_of};
ghost use Rattle.ht_tree.specs.declared.clause.Literal.{Literal};
ghost use Rattle.ht_tree.specs.Clause.Clauses.{second_of};
ghost use Rattle.ht_tree.specs.Clause.ClauseWindows.{breach_status, may_miss, must_miss, open_if_sure, sought_status};
ghost use Rattle.ht_tree.specs.Clause.ClauseSearches.{back_from, choice_if_open, sought_choice};
ghost use Rattle.ht_invariant.specs.Trials.{knows, knows_sought, sought_of, suits_sought};
ghost use Rattle.ht_invariant.specs.Looks.{miss_status};

use crate::sought::Sought;
use ht_pairs::PairSet;
use ht_tern::Tern;
use ht_tree::{Choice, Literal, Status, Status3};
use ht_window::{Window, without_place};

// What a next state shows of a literal: whether it can miss the literal's bit, and whether it must.
#[derive(Clone, Copy)]
struct Missing {
    may: bool,
    must: bool,
}

// The next state of a latch.
fn next_set(window: &Window, j: u32) -> PairSet
    requires good { window.now.window.fault ≡ None }
    requires one { window.now.window.frames ≡ 1 }
    requires known { j < length window.now.window.circuit.dffs }
    ensures { result ≡ set_at window.now.window window.now.decisions 0 (State j) }
{
    // for the proof: all nets matter
    let _ = window.circuit();
    window.next_state(j)
}

// Whether a set is undetermined: it has two or more members.
fn is_undetermined(set: PairSet) -> bool
    ensures { result ≡ is_undetermined set }
{
    !set.is_single()
}

// Whether a set holds a bit in both machines.
fn has_bit(set: PairSet, bit: bool) -> bool
    ensures { result ≡ is_member (pair (tern_of bit) (tern_of bit)) set }
{
    let value = Tern::from(bit);
    set.has(value, value)
}

// What the next state of a literal's latch shows of it.
fn miss(window: &Window, literal: Literal) -> Missing
    requires good { window.now.window.fault ≡ None }
    requires one { window.now.window.frames ≡ 1 }
    requires known { literal.dff < length window.now.window.circuit.dffs }
    ensures may { result.may ≡ may_miss window.now.window window.now.decisions literal }
    ensures must { result.must ≡ must_miss window.now.window window.now.decisions literal }
{
    let set = next_set(window, literal.dff);
    let may = has_bit(set, !literal.value);
    Missing {
        may,
        must: may && !is_undetermined(set),
    }
}

// The status by what must be missed and what may.
fn status_by(must: bool, may: bool) -> Status3
    ensures { result ≡ miss_status must may }
{
    if must {
        Status3::Sure
    } else if may {
        Status3::Open
    } else {
        Status3::Dead
    }
}

// What the decisions make of a next state that doesn't meet a clause.
fn breach_status(window: &Window, first: Literal, second: Option<Literal>) -> Status3
    requires good { window.now.window.fault ≡ None }
    requires one { window.now.window.frames ≡ 1 }
    requires known { knows window.now.window.circuit (first ∷ second_of second) ≡ true }
    ensures { result ≡ breach_status window.now.window window.now.decisions
        (first ∷ second_of second) }
{
    let a = miss(window, first);
    match second {
        None => status_by(a.must, a.may),
        Some(second) => {
            let b = miss(window, second);
            status_by(a.must && b.must, a.may && b.may)
        },
    }
}

// Whether the next state of a literal's latch is undetermined.
fn is_open_at(window: &Window, literal: Literal) -> bool
    requires good { window.now.window.fault ≡ None }
    requires one { window.now.window.frames ≡ 1 }
    requires known { literal.dff < length window.now.window.circuit.dffs }
    ensures { result ≡ is_undetermined
        (set_at window.now.window window.now.decisions 0 (State literal.dff)) }
{
    is_undetermined(next_set(window, literal.dff))
}

// The first literal whose latch's next state is undetermined.
fn undetermined_literal(window: &Window, first: Literal, second: Option<Literal>) -> Option<Literal>
    requires good { window.now.window.fault ≡ None }
    requires one { window.now.window.frames ≡ 1 }
    requires known { knows window.now.window.circuit (first ∷ second_of second) ≡ true }
    ensures { result ≡ find (λ (literal : Literal). is_undetermined
        (set_at window.now.window window.now.decisions 0 (State literal.dff)))
        (first ∷ second_of second) }
{
    if is_open_at(window, first) {
        return Some(first);
    }
    match second {
        Some(second) if is_open_at(window, second) => Some(second),
        _ => None,
    }
}

// The walk back from the next state of a literal's latch, where it wants the other bit.
fn back_from(window: &Window, literal: Option<Literal>) -> Option<Choice>
    requires good { window.now.window.fault ≡ None }
    requires walks { (l : Literal) → literal ≡ Some l → (l.dff < length window.now.window.circuit.dffs)
        × CanWalk window.now.window window.now.decisions 0
        (spot_net window.now.window.circuit (State l.dff)) }
    ensures { result ≡ back_from window.now.window window.now.decisions literal }
{
    match literal {
        None => None,
        Some(literal) => {
            let net = window.circuit().dff_data(literal.dff);
            Some(window.walk_back(0, net, !literal.value))
        },
    }
}

// The window's own choice where it is open.
fn choice_if_open(window: &Window) -> Option<Choice>
    ensures { result ≡ choice_if_open
        (without_place (status_at window.now.window window.now.decisions))
        (pick_of window.now.window window.now.decisions) }
{
    match window.status() {
        Status::Open => Some(window.pick()),
        Status::Dead | Status::Sure { frame: _, place: _ } => None,
    }
}

/// A status that isn't Sure yet.
pub fn open_if_sure(status: Status3) -> Status3
    ensures { result ≡ open_if_sure status }
{
    match status {
        Status3::Dead => Status3::Dead,
        Status3::Sure | Status3::Open => Status3::Open,
    }
}

/// What the decisions make of what is looked for.
pub fn sought_status(window: &Window, sought: Sought) -> Status3
    requires one { window.now.window.frames ≡ 1 }
    requires suited { suits_sought window.now.window.fault sought ≡ true }
    requires known { knows_sought window.now.window.circuit sought ≡ true }
    ensures { result ≡ sought_status window.now.window window.now.decisions (sought_of sought) }
{
    match sought {
        Sought::Difference => without_place(window.status()),
        Sought::Breach { first, second } => breach_status(window, first, second),
    }
}

/// The choice for what is looked for.
pub fn sought_choice(window: &Window, sought: Sought) -> Option<Choice>
    requires one { window.now.window.frames ≡ 1 }
    requires suited { suits_sought window.now.window.fault sought ≡ true }
    requires known { knows_sought window.now.window.circuit sought ≡ true }
    ensures { result ≡ sought_choice window.now.window window.now.decisions (sought_of sought) }
{
    // for the proof: the window is well formed
    let _ = window.circuit();
    match sought {
        Sought::Difference => choice_if_open(window),
        Sought::Breach { first, second } => {
            let literal = undetermined_literal(window, first, second);
            back_from(window, literal)
        },
    }
}
