//! What closed sets and hidden faults are good for. Each theorem is the contract of a function that does nothing.
ghost use Rattle.std.specs.Prelude.{◌≡◌, ◌<◌, ◌≤◌, ℕ, List, Bool, true, length};
ghost use Rattle.std.specs.List.{list_all};
ghost use Rattle.ht_net.specs.declared.fault.Fault.{Fault};
ghost use Rattle.ht_net.specs.Detect.Detection.{Detects};
ghost use Rattle.ht_net.specs.Circuit.Netlist.{Netlist};
ghost use Rattle.ht_tree.specs.declared.token.Token.{Token};
ghost use Rattle.ht_tree.specs.Walk.Budgets.{refutation_cost};
ghost use Rattle.ht_tree.specs.Window.Decisions.{is_in};
ghost use Rattle.ht_tree.specs.Walk.Searches.{SpendsAt};
ghost use Rattle.ht_tree.specs.Walk.Walks.{IsComplete, Node};
ghost use Rattle.ht_uninit.specs.declared.record.Removed.{Removed};
ghost use Rattle.ht_faults.specs.Sites.{data_net};
ghost use Rattle.ht_uninit.specs.ClosedSets.{Contains, IsClosedSet, StayUnknown};
ghost use Rattle.ht_uninit.specs.Cones.{IsHidden, output_net};
ghost use Rattle.ht_uninit.specs.HeldWindows.{held_guide, held_judge};
ghost use Rattle.ht_uninit.specs.Rounds.{ComesTo, held_after, is_free};
ghost use Rattle.ht_uninit.specs.Records.{IsUninit, UninitHolds, UninitState};

/// A set is closed where the walk for the next state of each member is complete.
#[tactic(none)]
pub fn complete_walks_close_a_set()
    ensures { (c : Netlist) (u : List ℕ) → ((j : ℕ) → j < length c.dffs → is_in u j ≡ true
        → (tokens : List Token) × IsComplete (held_judge c u (data_net c j)) tokens)
        → IsClosedSet c (is_in u) }
{}

/// From all-unknown the latches of a closed set are unknown after every list.
#[tactic(none)]
pub fn closed_sets_stay_unknown()
    ensures { (c : Netlist) (u : ℕ → Bool) → IsClosedSet c u → StayUnknown c u }
{}

/// Where each removal was free, the set that is left has each member of each closed set.
#[tactic(none)]
pub fn free_removals_leave_closed_sets()
    ensures { (c : Netlist) (budget : ℕ) (v : ℕ → Bool) → IsClosedSet c v → (removed : List Removed)
        (before j : ℕ) → ComesTo c budget removed before j → list_all is_free removed ≡ true
        → Contains c (is_in (held_after c removed)) v }
{}

/// No list detects a fault whose cone has none but mute outputs.
#[tactic(none)]
pub fn hidden_faults_are_undetected()
    ensures { (c : Netlist) (u : List ℕ) (mute : ℕ → Bool) → IsClosedSet c (is_in u)
        → ((o : ℕ) → o < length c.outputs → mute o ≡ true
        → (tokens : List Token) × IsComplete (held_judge c u (output_net c o)) tokens)
        → (fault : Fault) → IsHidden c mute fault → (list : List (List Bool)) (t o : ℕ)
        → ¬ Detects c fault list t o }
{}

/// A budget of 2^(n + 2m + 1), for n inputs and m flip-flops, is spent by no search for a net.
#[tactic(none)]
pub fn enough_budget_is_never_spent_on_a_net()
    ensures { (c : Netlist) (u : List ℕ) (x budget : ℕ) (tokens : List Token) (n : Node)
        → refutation_cost c ≤ budget → ¬ SpendsAt (held_guide c u x) budget 1 tokens n }
{}

/// What the record of a run means.
#[tactic(none)]
pub fn record_means_what_it_says()
    ensures { (c : Netlist) (budget : ℕ) (faults : List Fault) (r : UninitState)
        → IsUninit c budget faults r → UninitHolds c budget r }
{}
