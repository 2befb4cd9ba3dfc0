//! What is searched.
ghost use Rattle.std.specs.Prelude.{◌≡◌, ◌<◌, ℕ, true, false, length, OnOk, OnErr, IfOk, IsTrue};
ghost use Rattle.ht_tree.specs.Walk.Walks.{Fits, Node, decide, under};
ghost use Rattle.ht_tree.specs.Walk.Searches.{Guide, deciding_token};
ghost use Rattle.ht_search.specs.Legal.{MayDecide};
ghost use Rattle.ht_search.specs.Routes.{MovesOn, Route, Stands, back_to, stops};

use ht_tern::Tern;
use ht_tree::{Choice, Status3};
use std::alloc::AllocError;

/// A point to which a problem can go back.
#[derive(Clone, Copy, PartialEq, Eq, Debug)]
pub struct Point {
    /// How many windows stand above the last one.
    pub level: u32,
    /// What tells apart the points within the last window.
    pub mark: u64,
}

/// What a search judges, decides and takes back.
// `search` calls back here and knows no window, so all searches have one theorem, whose proof speaks of no cell.
pub trait Problem {
    /// What is searched. No call changes it.
    ghost Subject: { Type 0 };

    ghost subject: { Self → Subject };

    /// How its nodes are judged, and which variable is chosen at each.
    ghost guide: { Subject → Guide };

    /// The node now with its point, and the ones before each decision and each `Before` of its path.
    ghost route: { Self → Route };

    /// What the decisions make of the window now.
    fn status(&self) -> Status3
        ensures { result ≡ (guide (subject self.now)).judge.status (route self.now).here.node };

    /// The variable that is decided next.
    fn pick(&self) -> Choice
        requires { (guide (subject self.now)).judge.status (route self.now).here.node ≡ Status3.Open }
        ensures chosen { result ≡ (guide (subject self.now)).choice (route self.now).here.node }
        ensures fits { Fits (guide (subject self.now)).judge (route self.now).here.node
            (deciding_token result) };

    /// Decides a variable.
    ///
    /// # Errors
    /// Out of memory; the problem stands as before.
    fn decide(&mut self, var: u32, value: Tern) -> Result<(), AllocError>
        requires { MayDecide (guide (subject self.old)).judge (route self.old).here.node var value }
        ensures subject { subject self.new ≡ subject self.old }
        ensures ok { OnOk result (MovesOn (route self.old) (route self.new)
            (decide (route self.old).here.node var value)) }
        ensures err { OnErr result (route self.new ≡ route self.old) };

    /// Goes on to the window under a node that is sure, where `Before` fits. False means that there is none.
    ///
    /// # Errors
    /// Out of memory; the problem stands as before.
    fn deeper(&mut self) -> Result<bool, AllocError>
        requires { (guide (subject self.old)).judge.status (route self.old).here.node ≡ Status3.Sure }
        ensures subject { subject self.new ≡ subject self.old }
        ensures told { IfOk result
            (λ deeper. deeper ≡ (guide (subject self.old)).judge.before (route self.old).here.node) }
        ensures more { IfOk result (λ deeper. deeper ≡ true
            → MovesOn (route self.old) (route self.new) (under (route self.old).here.node)) }
        ensures last { IfOk result (λ deeper. deeper ≡ false → route self.new ≡ route self.old) }
        ensures err { OnErr result (route self.new ≡ route self.old) };

    /// The point now.
    fn mark(&self) -> Point
        ensures { result ≡ (route self.now).here.point };

    /// Goes back to a point that stands.
    fn undo(&mut self, point: Point)
        requires { Stands (route self.old) point }
        ensures subject { subject self.new ≡ subject self.old }
        ensures route { stops (route self.new) ≡ back_to (stops (route self.old)) point };

    /// So many windows at most stand one under the other.
    ghost shallow: { (s : Self) → (most : ℕ)
        × ((n : Node) → IsTrue ((guide (subject s)).judge.before n) → length n.windows < most) };
}
