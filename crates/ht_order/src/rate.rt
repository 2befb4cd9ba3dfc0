//! Classes for work.
ghost use Rattle.std.specs.Prelude.{◌≡◌};
ghost use Rattle.ht_order.specs.Rates.{is_higher, per_unit};

/// Rates are said in classes for so much work, which is about a second of a processor.
pub const UNIT_OF_WORK: u64 = 20_000_000;

/// How many classes were decided with how much work.
#[derive(Clone, Copy, PartialEq, Eq, Debug)]
pub struct Rate {
    pub classes: u32,
    pub work: u64,
}

impl Rate {
    /// So many classes in a unit of work.
    pub fn per_unit(classes: u32) -> Rate
        ensures { result ≡ per_unit classes }
    {
        Rate {
            classes,
            work: UNIT_OF_WORK,
        }
    }

    /// Whether it is higher than another one. No work counts as work of 1.
    pub fn is_higher(self, other: Rate) -> bool
        ensures { result ≡ is_higher self other }
    {
        let own = self.classes as u128 * other.work.max(1) as u128;
        let others = other.classes as u128 * self.work.max(1) as u128;
        own > others
    }
}
