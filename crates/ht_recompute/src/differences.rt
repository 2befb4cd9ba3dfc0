//! What the places of a window show.
ghost use Rattle.std.specs.Prelude.{◌≡◌, [], ◌∷◌, length};
ghost use Rattle.ht_recompute.specs.Differences.{differences_in, in_either, outside_marks, status_by};

use ht_pairs::PairSet;
use ht_tree::Status3;

/// What some places show: whether one must differ, and whether one may.
#[derive(Clone, Copy)]
pub struct Differences {
    must: bool,
    may: bool,
}

impl Differences {
    /// What no place shows.
    pub fn none() -> Differences
        ensures { result ≡ differences_in [] }
    {
        Differences {
            must: false,
            may: false,
        }
    }

    // What these places and one more show.
    fn and_set(self, set: PairSet) -> Differences
        ensures { result ≡ in_either self (differences_in (set ∷ [])) }
    {
        Differences {
            must: self.must || set.must_differ(),
            may: self.may || set.may_differ(),
        }
    }

    /// What these places and others show.
    pub fn and(self, others: Differences) -> Differences
        ensures { result ≡ in_either self others }
    {
        Differences {
            must: self.must || others.must,
            may: self.may || others.may,
        }
    }

    /// The status of a window whose places show this.
    pub fn status(self) -> Status3
        ensures { result ≡ status_by self }
    {
        if self.must {
            Status3::Sure
        } else if self.may {
            Status3::Open
        } else {
            Status3::Dead
        }
    }
}

/// What outputs show that hold these sets.
pub fn output_differences(outputs: &[PairSet]) -> Differences
    ensures { result ≡ differences_in outputs.now }
{
    let mut shown = Differences::none();
    for output in outputs {
        shown = shown.and_set(*output);
    }
    shown
}

/// What the next states show, but for the flip-flops that are marked.
pub fn state_differences(marks: &[bool], next: &[PairSet]) -> Differences
    requires { length marks.now ≡ length next.now }
    ensures { result ≡ differences_in (outside_marks marks.now next.now) }
{
    let mut shown = Differences::none();
    for (j, set) in next.iter().enumerate() {
        if !marks[j] {
            shown = shown.and_set(*set);
        }
    }
    shown
}
