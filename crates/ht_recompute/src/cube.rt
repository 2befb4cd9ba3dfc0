//! Cubes of latch values, and what next states make of them.
ghost use Rattle.std.specs.Prelude.{◌≡◌, ◌<◌, ◌≤◌, ◌+◌, ◌∷◌, ℕ, [], None, length, get_or};
ghost use Rattle.std.specs.List.{list_any};
ghost use Rattle.ht_tern.specs.declared.tern.Tern.TheVariants.{Unk};
ghost use Rattle.ht_tree.specs.Window.Nodes.{cube_at, cube_of, or_unknown};
ghost use Rattle.ht_tree.specs.Walk.Walks.{path_of};
ghost use Rattle.ht_tree.specs.Window.WindowStatus.{is_definite};
ghost use Rattle.ht_recompute.specs.Written.{IsWritten};
ghost use Rattle.ht_recompute.specs.WantedLatches.{status_by_matches, in_both, matches_in, wanted_in};

use crate::decisions::write_decisions;
use ht_net::Circuit;
use ht_pairs::PairSet;
use ht_tern::Tern;
use ht_tree::{Assign3, Status3, WalkNode};

/// What the next states make of the latches that a cube wants: whether it wants any, whether each must be as wanted,
/// and whether each may.
#[derive(Clone, Copy)]
pub struct Matches {
    some: bool,
    must: bool,
    may: bool,
}

impl Matches {
    // Of no latch.
    fn none() -> Matches
        ensures { result ≡ matches_in [] }
    {
        Matches {
            some: false,
            must: true,
            may: true,
        }
    }

    /// Of a latch that is wanted at a value, where the next state has this set.
    pub fn of_wanted(value: Tern, set: PairSet) -> Matches
        ensures { result ≡ matches_in (record { value = value; set = set } ∷ []) }
    {
        let may = set.has(value, value);
        let single = set.is_single();
        Matches {
            some: true,
            must: may && single,
            may,
        }
    }

    // Of a latch where a cube has this value, and the next state this set.
    fn of_latch(value: Tern, set: PairSet) -> Matches
        ensures { result ≡ matches_in (wanted_in (value ∷ []) (set ∷ [])) }
    {
        match value {
            Tern::Unk => Matches::none(),
            Tern::Zero | Tern::One => Matches::of_wanted(value, set),
        }
    }

    /// Of these latches and others.
    pub fn and(self, others: Matches) -> Matches
        ensures { result ≡ in_both self others }
    {
        Matches {
            some: self.some || others.some,
            must: self.must && others.must,
            may: self.may && others.may,
        }
    }

    /// The status of a window that looks for such a cube, with so many frames left.
    pub fn status(self, limit: u32) -> Status3
        ensures { result ≡ status_by_matches self limit }
    {
        if !self.some {
            Status3::Sure
        } else if limit == 0 {
            Status3::Dead
        } else if self.must {
            Status3::Sure
        } else if self.may {
            Status3::Open
        } else {
            Status3::Dead
        }
    }
}

/// The status of a window that looks for a cube, with so many frames left, where the next states have these sets.
pub fn cube_status(cube: &[Tern], sets: &[PairSet], limit: u32) -> Status3
    requires { length cube.now ≡ length sets.now }
    ensures { result ≡ status_by_matches (matches_in (wanted_in cube.now sets.now)) limit }
{
    let mut met = Matches::none();
    for (j, set) in sets.iter().enumerate() {
        met = met.and(Matches::of_latch(cube[j], *set));
    }
    met.status(limit)
}

// Writes the values that were decided for latches, unknown where none was. They have the variables from `first` on.
fn write_cube(decisions: &[Option<Tern>], first: usize, cube: &mut [Tern])
    requires { first + length cube.old ≤ length decisions.now }
    ensures { (j : ℕ) → j < length cube.old → get_or cube.new j Unk
        ≡ or_unknown (get_or decisions.now (first + j) None) }
{
    for j in 0..cube.len() {
        cube[j] = decisions[first + j].unwrap_or(Tern::Unk);
    }
}

/// Writes the latch values that a path decides, as a cube.
pub fn decided_cube(
    circuit: &Circuit,
    path: &[Assign3],
    decisions: &mut [Option<Tern>],
    cube: &mut [Tern],
)
    requires cube { length cube.old ≡ length circuit.now.dffs }
    requires room { circuit.now.inputs + length circuit.now.dffs ≤ length decisions.old }
    ensures cube { cube.new ≡ cube_of circuit.now path.now }
    ensures room { length decisions.new ≡ length decisions.old }
{
    write_decisions(decisions, path);
    write_cube(decisions, circuit.inputs() as usize, cube);
}

/// Writes what a node's path decides, and the cube of its window: the given one in the first window, else what the
/// window above decided.
pub fn enter_node(
    circuit: &Circuit,
    given: &[Tern],
    node: &WalkNode,
    decisions: &mut [Option<Tern>],
    cube: &mut [Tern],
)
    requires given { length given.now ≡ length circuit.now.dffs }
    requires cube { length cube.old ≡ length circuit.now.dffs }
    requires room { circuit.now.inputs + length circuit.now.dffs ≤ length decisions.old }
    ensures written { IsWritten decisions.new (path_of node.now) }
    ensures cube { cube.new ≡ cube_at circuit.now given.now node.now }
    ensures room { length decisions.new ≡ length decisions.old }
{
    if node.depth() == 0 {
        cube.copy_from_slice(given);
    } else {
        decided_cube(circuit, node.path_above(), decisions, cube);
    }
    write_decisions(decisions, node.path());
}

/// Whether a cube wants some latch at 0 or 1.
pub fn wants_any(cube: &[Tern]) -> bool
    ensures { result ≡ list_any is_definite cube.now }
{
    for value in cube {
        if *value != Tern::Unk {
            return true;
        }
    }
    false
}
