//! What walks and records of goals say. Each theorem is the contract of a function that does nothing.
ghost use Rattle.std.specs.Prelude.{◌≡◌, ◌<◌, ◌≤◌, ℕ, List, false, length};
ghost use Rattle.ht_tern.specs.declared.tern.Tern.{Tern};
ghost use Rattle.ht_tree.specs.declared.token.Token.{Token};
ghost use Rattle.ht_tree.specs.Walk.Budgets.{sweep_cost};
ghost use Rattle.ht_tree.specs.Walk.Searches.{IsOnTop};
ghost use Rattle.ht_tree.specs.Walk.Walks.{AllFit, IsComplete, Judge, Node, path_of, root_stack, stack_after};
ghost use Rattle.ht_records.proofs.BitPathLaws.{AnyVariable, AreBitsAt};
ghost use Rattle.ht_forward.specs.Goals.{DeadAlong, Goal, HasBitsFor, guide_to};
ghost use Rattle.ht_forward.specs.Lengths.{AreShort, IsLengthRecord};

/// Along each assignment of bits, a complete walk comes to a dead path.
#[tactic(auto, using(crate::proofs::GoalLaws::dead_along))]
pub fn complete_walk_is_dead_along_each_assignment()
    ensures { (g : Goal) (tokens : List Token) → IsComplete (guide_to g).judge tokens
        → (a : ℕ → Tern) → HasBitsFor g a → DeadAlong g a }
{}

/// Where no variable is decided three ways, the decisions of the node on top of a walk are bits.
#[tactic(auto, using(crate::proofs::GoalLaws::top_decides_bits))]
pub fn found_node_has_bits()
    ensures { (g : Goal) → ((var : ℕ) → g.three var ≡ false) → (tokens : List Token) (n : Node)
        → AllFit (guide_to g).judge root_stack tokens
        → IsOnTop n (stack_after root_stack tokens) → AreBitsAt AnyVariable (path_of n) }
{}

/// With a budget for d lengths a spent record has more than d walks, where the walks of k frames of n inputs have fewer
/// than 2^(kn+1) tokens.
#[tactic(auto, using(crate::proofs::DeepLaws::record_deep))]
pub fn enough_budget_walks_deep()
    ensures { (judge : ℕ → Judge) (n : ℕ) → AreShort judge n → (budget : ℕ)
        (walks : List (List Token)) → IsLengthRecord judge budget walks
        → (d : ℕ) → sweep_cost n d ≤ budget → d < length walks }
{}
