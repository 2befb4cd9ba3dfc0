//! How many classes there are, and of how many of them each verdict is said.
ghost use Rattle.std.specs.Prelude.{◌≡◌, [], length};
ghost use Rattle.ht_faults.specs.Classes.{class_count};
ghost use Rattle.ht_texts.specs.Counts.{CanCount, CountsOne, CountsItem, sums_among, sums_of};

use crate::item::Item;
use crate::said::Said;
use crate::total::Sums;
use ht_faults::Classes;

/// How many classes there are.
#[tactic(auto, using(ht_faults::proofs::OwnLaws::own_within))]
pub fn count_classes(classes: &Classes) -> u32
    ensures { result ≡ class_count classes.now }
{
    let count = classes.representatives().len();
    prove!(count <= classes.len() as usize);
    count as u32
}

impl Sums {
    /// The sums of a report where this is said of each fault. What is said of a fault that isn't its own
    /// representative has no effect.
    pub fn of(classes: &Classes, saids: &[Said], search: bool) -> Sums
        requires { length saids.now ≡ length classes.now }
        ensures { result ≡ sums_of classes.now saids.now search }
    {
        let mut sums = Sums::none(classes, search);
        for i in classes.representatives() {
            sums.count(saids[*i as usize]);
        }
        sums
    }

    // The sums before any class is counted.
    pub(crate) fn none(classes: &Classes, search: bool) -> Sums
        ensures { result ≡ sums_among classes.now [] search [] }
    {
        Sums {
            classes: count_classes(classes),
            detected: 0,
            untestable: 0,
            aborted: 0,
            undetectable: 0,
            undetected: 0,
            search,
        }
    }

    // Counts what a line of a report says: a class where it is the line of a representative.
    pub(crate) fn count_item(&mut self, item: Item)
        requires { CanCount self.old }
        ensures { CountsItem item self.old self.new }
    {
        if let Item::Verdict { said, .. } = item {
            self.count(said);
        }
    }

    // Counts one class, of which this is said.
    fn count(&mut self, said: Said)
        requires { CanCount self.old }
        ensures { CountsOne said self.old self.new }
    {
        match said {
            Said::Detected(_) => self.detected += 1,
            Said::Untestable => self.untestable += 1,
            Said::Undetectable => self.undetectable += 1,
            Said::Aborted => self.aborted += 1,
            Said::Undetected => self.undetected += 1,
        }
    }
}
